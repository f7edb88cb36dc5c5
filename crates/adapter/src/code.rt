//! Places in a module's code: how functions are called, and where instructions stand.

ghost use Rattle.std.specs.Prelude.{◌≡◌, IfOk};
ghost use Rattle.binary_decoder.specs.Names.{function_name};
ghost use Rattle.binary_decoder.specs.Offsets.{instruction_offset};
ghost use Rattle.debug_views.specs.Standing.{title};
ghost use Rattle.adapter.specs.Code.{offset_at, reference_of};

use adapter_messages::Text;
use binary_decoder::{FunctionNames, InstructionOffsets, fits_line};
use itoa::Buffer;
use std::alloc::Global;
use std::fmt::Write;
use std::marker::Model;
use wasm_types::NoMemory;
use wasm_world::CodePlace;

/// The names of a module's functions, and the offsets of its instructions. Contracts see the module's bytes.
#[derive(Drop)]
pub(crate) struct Code<'a> {
    source: &'a [u8],
    names: FunctionNames,
    offsets: InstructionOffsets,
}

impl<'a> Model for Code<'a> {
    ghost use Rattle.std.specs.Prelude.{◌≡◌, ℕ, List};
    ghost use Rattle.binary_decoder.specs.Kept.{name_of, offset_of};
    ghost use Rattle.binary_decoder.specs.Names.{function_name};
    ghost use Rattle.binary_decoder.specs.Offsets.{instruction_offset};

    ghost Value = { List ℕ };

    ghost view = { λ c. c.source.now };

    ghost invariant = { λ c. ((function : ℕ) → name_of c.names function ≡ function_name c.source.now function) × ((function instruction : ℕ) → offset_of c.offsets function instruction ≡ instruction_offset c.source.now function instruction) };
}

/// An offset in a module, as a reference.
pub(crate) fn reference_of(alloc: Global, offset: Option<usize>) -> Result<Text, NoMemory>
    ensures { IfOk result (λ text. text ≡ reference_of offset) }
{
    let mut text = String::new(alloc);
    if let Some(offset) = offset {
        write!(text, "0x{offset:x}")?;
    }
    Ok(Text::new(alloc, text.as_str())?)
}

impl<'a> Code<'a> {
    /// The code of the module of these bytes.
    pub(crate) fn new(alloc: Global, source: &'a [u8]) -> Result<Code<'a>, NoMemory>
        ensures { IfOk result (λ code. code ≡ source.now) }
    {
        Ok(Code {
            source,
            names: FunctionNames::new(alloc, source)?,
            offsets: InstructionOffsets::of(alloc, source)?,
        })
    }

    /// A function by its name, or by its number where it has none that may be put into a line.
    pub(crate) fn title(&self, alloc: Global, function: u32) -> Result<Text, NoMemory>
        ensures { IfOk result (λ text. text ≡ title (function_name self.now function) function) }
    {
        match self.names.get(function) {
            Some(name) if fits_line(name) => Ok(Text::new(alloc, name)?),
            _ => {
                let mut number = Buffer::new();
                Ok(Text::new(alloc, number.format(function))?)
            }
        }
    }

    /// The offset of the instruction at a place.
    pub(crate) fn offset(&self, place: CodePlace) -> Option<usize>
        ensures { result ≡ offset_at self.now place }
    {
        self.offsets.offset(place.function, place.instruction)
    }
}
