//! Instructions that breakpoints refer to.

ghost use Rattle.std.specs.Prelude.{◌≡◌, IfOk, OnErr};
ghost use Rattle.adapter.specs.Breakpoints.{Pairs, SetsInstructions};
ghost use Rattle.adapter.specs.InstructionBreaks.{FindsAt, FindsIn, IsPlaceOf, NamesSo, instruction_count};
ghost use Rattle.adapter.specs.State.{Suits, state_of};

use crate::adapter::Adapter;
use crate::breakpoints::{breakpoints_of, those};
use crate::code::Code;
use crate::disassembly::NO_INSTRUCTION;
use crate::replies::success;
use adapter_messages::{Body, InstructionBreakpoint, Reply, Text, Told};
use std::alloc::Global;
use wasm_types::{Module, NoMemory};
use wasm_world::CodePlace;

/// How many numbers instructions have.
const INSTRUCTIONS: usize = 1 << 32;

/// The offset that a reference names.
fn offset_named(reference: &str) -> Option<u64>
    ensures { NamesSo reference.now result }
{
    let Some(behind) = reference.strip_prefix('0') else {
        return None;
    };
    let Some(digits) = behind.strip_prefix('x') else {
        return None;
    };
    match u64::from_str_radix(digits, 16) {
        Ok(offset) => Some(offset),
        Err(_) => None,
    }
}

/// How many instructions a function has.
fn instruction_count(module: &Module, function: u32) -> usize
    ensures { result ≡ instruction_count «module».now function }
{
    match module.bodies.as_slice().get(function as usize) {
        Some(body) => body.code.as_slice().len(),
        None => 0,
    }
}

/// Of the first instructions of a function, so many, that which stands at an offset.
fn find_in(code: &Code<'_>, function: u32, count: usize, offset: usize) -> Option<CodePlace>
    ensures { FindsIn code.now function count offset result }
{
    for instruction in 0..count.min(INSTRUCTIONS) {
        let place = CodePlace {
            function,
            instruction: instruction as u32,
        };
        if code.offset(place) == Some(offset) {
            return Some(place);
        }
    }
    None
}

impl<'a> Adapter<'a> {
    /// The instruction that stands at an offset in the module.
    fn find_at(&self, offset: usize) -> Option<CodePlace>
        requires { Suits self.now }
        ensures { FindsAt (state_of self.now).debugger.code offset result }
    {
        let valid = self.debugger.valid();
        for function in 0..valid.functions() {
            let count = instruction_count(valid.module(), function);
            if let Some(place) = find_in(&self.code, function, count, offset) {
                return Some(place);
            }
        }
        None
    }

    /// The instruction that a reference names, so many bytes further.
    pub(crate) fn place_of(&self, reference: &Text, offset: i64) -> Option<CodePlace>
        requires { Suits self.now }
        ensures { IsPlaceOf (state_of self.now).debugger.code (record { reference = reference.now; offset = offset }) result }
    {
        let Some(named) = offset_named(reference.as_str()) else {
            return None;
        };
        match named.checked_add_signed(offset) {
            Some(offset) => self.find_at(offset as usize),
            None => None,
        }
    }

    /// The instructions to which breakpoints refer.
    fn places_of(
        &self,
        alloc: Global,
        asked: &[InstructionBreakpoint],
    ) -> Result<Vec<Option<CodePlace>>, NoMemory>
        requires { Suits self.now }
        ensures { IfOk result (λ found. Pairs (IsPlaceOf (state_of self.now).debugger.code) asked.now found.items) }
    {
        let mut found = Vec::new(alloc);
        for one in asked {
            found.push(self.place_of(&one.reference, one.offset))?;
        }
        Ok(found)
    }

    /// Sets breakpoints at instructions.
    pub(crate) fn set_instructions(
        &mut self,
        alloc: Global,
        asked: &[InstructionBreakpoint],
    ) -> Result<Reply, NoMemory>
        requires { Suits self.old }
        ensures sets { IfOk result (λ reply. SetsInstructions asked.now (state_of self.old) reply (state_of self.new)) }
        ensures unchanged { OnErr result (state_of self.new ≡ state_of self.old) }
        ensures suits { Suits self.new }
    {
        let found = self.places_of(alloc, asked)?;
        let breakpoints = breakpoints_of(alloc, NO_INSTRUCTION, &found)?;
        let mut places = Vec::new(alloc);
        places.extend_from_slice(&self.debugger.instructions()[..self.functions])?;
        places.extend_from_slice(&those(alloc, &found)?)?;
        self.debugger.set_instructions(places);
        Ok(success(Body::Breakpoints(breakpoints), Told::none()))
    }
}
