//! Instructions around one that is meant.

ghost use Rattle.std.specs.Prelude.{◌≡◌, ◌≤◌, pos, ◌+ℤ◌, IfOk, slice_get};
ghost use Rattle.adapter.specs.Disassembly.{around, disassembly_reply, no_instruction, told, told_at, told_from};

use crate::code::{Code, reference_of};
use crate::instruction_text::write_instruction;
use crate::replies::{failure, success};
use adapter_messages::{Body as ReplyBody, Instruction, List, Reply, Text, Told};
use std::alloc::Global;
use wasm_types::{Body, Module, NoMemory};
use wasm_world::CodePlace;

/// What is said of an instruction that there is not.
pub(crate) const NO_INSTRUCTION: &str = "error: no such instruction";

/// The most instructions that are told at once.
const MOST_INSTRUCTIONS: u64 = 65_536;

/// What is said where more are asked for.
const TOO_MANY: &str = "error: more than 65536 instructions";

/// What is told where there is no instruction.
fn no_instruction(alloc: Global) -> Result<Instruction, NoMemory>
    ensures { IfOk result (λ told. told ≡ no_instruction) }
{
    Ok(Instruction {
        address: Text::new(alloc, "0x0")?,
        text: Text::new(alloc, "(no instruction)")?,
    })
}

/// An instruction of a function that has this body, by its number.
fn told_at(
    alloc: Global,
    code: &Code<'_>,
    body: &Body,
    function: u32,
    number: u64,
) -> Result<Instruction, NoMemory>
    ensures { IfOk result (λ i. i ≡ told_at code.now body.now function number) }
{
    let Ok(instruction) = u32::try_from(number) else {
        return no_instruction(alloc);
    };
    let Some(found) = body.code.as_slice().get(instruction as usize) else {
        return no_instruction(alloc);
    };
    let mut text = String::new(alloc);
    write_instruction(&mut text, body.labels.as_slice(), *found)?;
    let offset = code.offset(CodePlace {
        function,
        instruction,
    });
    Ok(Instruction {
        address: reference_of(alloc, offset)?,
        text: Text::new(alloc, text.as_str())?,
    })
}

/// The instruction so many instructions behind another one.
fn told(
    alloc: Global,
    code: &Code<'_>,
    body: &Body,
    function: u32,
    number: u64,
    offset: i64,
) -> Result<Instruction, NoMemory>
    ensures { IfOk result (λ i. i ≡ told code.now body.now function (pos number +ℤ offset)) }
{
    match number.checked_add_signed(offset) {
        Some(number) => told_at(alloc, code, body, function, number),
        None => no_instruction(alloc),
    }
}

/// So many instructions, from that of a place moved by an offset on.
fn told_from(
    alloc: Global,
    code: &Code<'_>,
    body: &Body,
    place: CodePlace,
    offset: i64,
    count: u64,
) -> Result<List<Instruction>, NoMemory>
    requires { count ≤ 65536 }
    ensures { IfOk result (λ all. all ≡ told_from code.now body.now place.function place.instruction offset count) }
{
    let mut all = List::new(alloc);
    for index in 0..count {
        let number = u64::from(place.instruction) + index;
        all.push(told(alloc, code, body, place.function, number, offset)?)?;
    }
    Ok(all)
}

/// The instructions around a place.
fn around(
    alloc: Global,
    code: &Code<'_>,
    module: &Module,
    place: CodePlace,
    offset: i64,
    count: u64,
) -> Result<List<Instruction>, NoMemory>
    requires { count ≤ 65536 }
    ensures { IfOk result (λ all. all ≡ around code.now (slice_get «module».now.bodies place.function) place offset count) }
{
    match module.bodies.as_slice().get(place.function as usize) {
        Some(body) => told_from(alloc, code, body, place, offset, count),
        None => Ok(List::new(alloc)),
    }
}

/// The reply that tells the instructions around a place, if there is one.
pub(crate) fn disassembly_reply(
    alloc: Global,
    code: &Code<'_>,
    module: &Module,
    found: Option<CodePlace>,
    offset: i64,
    count: u64,
) -> Result<Reply, NoMemory>
    requires { code.now ≡ «module».now.source }
    ensures { IfOk result (λ reply. reply ≡ disassembly_reply «module».now offset count found) }
{
    if count > MOST_INSTRUCTIONS {
        return failure(alloc, TOO_MANY);
    }
    let Some(place) = found else {
        return failure(alloc, NO_INSTRUCTION);
    };
    let all = around(alloc, code, module, place, offset, count)?;
    Ok(success(ReplyBody::Instructions(all), Told::none()))
}
