//! How places in a module's code are written.

ghost use Rattle.std.specs.Prelude.{◌≡◌, ◌+◌, ◌≤◌, ◌++◌, ℕ, IfOk, IfSome, OnOk, codes, is_some, string_bytes};
ghost use Rattle.std.specs.Fmt.{decimal};
ghost use Rattle.arrayvec.specs.ArrayString.{array_string_len};
ghost use Rattle.binary_decoder.specs.Kept.{offset_of};
ghost use Rattle.binary_decoder.specs.Names.{function_name};
ghost use Rattle.binary_decoder.specs.Offsets.{instruction_offset};
ghost use Rattle.debug_views.specs.Standing.{PlaceForm, title, offset_text, offset_if, place_text};

use crate::hexadecimal::put_hexadecimal;
use crate::numbers::{Line, push_line, put_number};
use binary_decoder::{FunctionNames, InstructionOffsets, fits_line};
use integer_machine::CodePlace;
use std::alloc::Global;
use std::marker::Model;
use wasm_types::NoMemory;

/// Writes places in the code of a module: functions by the names in its bytes, and instructions with their offsets,
/// where these are asked for. Contracts see the module's bytes, and whether they are.
#[derive(Drop)]
pub struct PlaceWriter<'a> {
    source: &'a [u8],
    names: FunctionNames,
    offsets: Option<InstructionOffsets>,
}

impl<'a> Model for PlaceWriter<'a> {
    ghost use Rattle.std.specs.Prelude.{◌≡◌, ℕ, IfSome, is_some};
    ghost use Rattle.binary_decoder.specs.Kept.{name_of, offset_of};
    ghost use Rattle.binary_decoder.specs.Names.{function_name};
    ghost use Rattle.binary_decoder.specs.Offsets.{instruction_offset};
    ghost use Rattle.debug_views.specs.Standing.{PlaceForm};

    ghost Value = { PlaceForm };

    ghost view = { λ w. record { source = w.source.now; offsets = is_some w.offsets } };

    ghost invariant = { λ w. ((function : ℕ) → name_of w.names function ≡ function_name w.source.now function) × IfSome w.offsets (λ kept. (function instruction : ℕ) → offset_of kept function instruction ≡ instruction_offset w.source.now function instruction) };
}

/// The offsets of a module's instructions, where they are asked for.
fn offsets_if(
    alloc: Global,
    source: &[u8],
    has_offsets: bool,
) -> Result<Option<InstructionOffsets>, NoMemory>
    ensures asked { IfOk result (λ offsets. is_some offsets ≡ has_offsets) }
    ensures kept { IfOk result (λ offsets. IfSome offsets (λ kept. (function instruction : ℕ) → offset_of kept function instruction ≡ instruction_offset source.now function instruction)) }
{
    if has_offsets {
        Ok(Some(InstructionOffsets::of(alloc, source)?))
    } else {
        Ok(None)
    }
}

/// Puts a name behind a line that stands behind a text.
#[inline(always)]
fn put_name(text: &mut String, line: &mut Line, name: &str) -> Result<(), NoMemory>
    requires { array_string_len line.old + 64 ≤ 1024 }
    ensures text { OnOk result (string_bytes text.new ++ line.new.bytes ≡ (string_bytes text.old ++ line.old.bytes) ++ name.now) }
    ensures short { OnOk result (array_string_len line.new ≤ array_string_len line.old + 64) }
{
    if name.len() <= 64 {
        line.push_str(name);
        return Ok(());
    }
    push_line(text, line)?;
    text.push_str(name)?;
    Ok(())
}

/// Puts the offset of an instruction, if there is one, behind a line.
#[inline(always)]
fn put_offset(line: &mut Line, offset: Option<usize>)
    requires { array_string_len line.old + 19 ≤ 1024 }
    ensures text { line.new.bytes ≡ line.old.bytes ++ offset_text offset }
    ensures short { array_string_len line.new ≤ array_string_len line.old + 19 }
{
    if let Some(offset) = offset {
        line.push_str(" ");
        put_hexadecimal(line, offset as u64);
    }
}

impl<'a> PlaceWriter<'a> {
    /// A writer of places in the module of these bytes.
    pub fn new(
        alloc: Global,
        source: &'a [u8],
        has_offsets: bool,
    ) -> Result<PlaceWriter<'a>, NoMemory>
        ensures { IfOk result (λ places. places ≡ record { source = source.now; offsets = has_offsets }) }
    {
        Ok(PlaceWriter {
            source,
            names: FunctionNames::new(alloc, source)?,
            offsets: offsets_if(alloc, source, has_offsets)?,
        })
    }

    /// Puts a function, by its name, or by its number where it has none that may be put into a line, behind a line that
    /// stands behind a text.
    #[inline(always)]
    fn put_title(&self, text: &mut String, line: &mut Line, function: u32) -> Result<(), NoMemory>
        requires { array_string_len line.old + 64 ≤ 1024 }
        ensures text { OnOk result (string_bytes text.new ++ line.new.bytes ≡ (string_bytes text.old ++ line.old.bytes) ++ title (function_name self.now.source function) function) }
        ensures short { OnOk result (array_string_len line.new ≤ array_string_len line.old + 64) }
    {
        match self.names.get(function) {
            Some(name) if fits_line(name) => put_name(text, line, name),
            _ => {
                put_number(line, u64::from(function));
                Ok(())
            }
        }
    }

    /// The offset of the instruction at a place, where offsets are asked for.
    #[inline(always)]
    fn offset(&self, place: CodePlace) -> Option<usize>
        ensures { result ≡ offset_if self.now place }
    {
        match &self.offsets {
            Some(offsets) => offsets.offset(place.function, place.instruction),
            None => None,
        }
    }

    /// Puts where a thread stands in a function, its title, the number of the instruction that comes next in it, and
    /// perhaps the offset of that, behind a line that stands behind a text.
    #[inline(always)]
    pub(crate) fn put(
        &self,
        text: &mut String,
        line: &mut Line,
        place: CodePlace,
    ) -> Result<(), NoMemory>
        requires { array_string_len line.old + 104 ≤ 1024 }
        ensures text { OnOk result (string_bytes text.new ++ line.new.bytes ≡ (string_bytes text.old ++ line.old.bytes) ++ place_text self.now place) }
        ensures short { OnOk result (array_string_len line.new ≤ array_string_len line.old + 104) }
    {
        self.put_title(text, line, place.function)?;
        line.push_str("+");
        put_number(line, u64::from(place.instruction));
        put_offset(line, self.offset(place));
        Ok(())
    }

    /// Writes where a thread stands in a function: its title, the number of the instruction that comes next in it, and
    /// perhaps the offset of that.
    pub(crate) fn write(&self, text: &mut String, place: CodePlace) -> Result<(), NoMemory>
        ensures { OnOk result (string_bytes text.new ≡ string_bytes text.old ++ place_text self.now place) }
    {
        let mut line = Line::new();
        self.put(text, &mut line, place)?;
        text.push_str(line.as_str())?;
        Ok(())
    }
}
