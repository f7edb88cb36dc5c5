//! Whole modules.

ghost use Rattle.std.specs.Prelude.{◌≡◌, ℕ, List, IfOk, IfErr, true};
ghost use Rattle.wasm_types.specs.declared.modules.Module.{Module};
ghost use Rattle.binary_decoder.specs.Moves.{Gives, IsRefused, IsTooLarge};
ghost use Rattle.binary_decoder.specs.Grammar.{Spells};
ghost use Rattle.wasm_types.specs.Limits.{Within};
ghost use Rattle.binary_decoder.specs.First.{IsFirst};
ghost use Rattle.binary_decoder.specs.Reader.{parts_at};

use crate::cause::Limit;
use crate::cursor::Cursor;
use crate::fault::DecodeFault;
use crate::header::header_refusal;
use crate::order::ordered;
use crate::place::ModulePart;
use crate::sections::{Sections, read_sections};
use std::alloc::Global;
use wasm_types::{Items, Module};

/// The most bytes of a module.
pub const MOST_BYTES: usize = 1_048_576;

/// The sections behind the preamble.
#[tactic(auto, unfolding(crate::specs::Reader::parts_at))]
fn behind_preamble(alloc: Global, bytes: &[u8]) -> Result<Sections, DecodeFault>
    ensures { Gives (λ x. (x.types, (x.imports, (x.functions, (x.tables, (x.memories, (x.after.globals, (x.after.exports, (x.after.start, (x.after.elements, (x.after.after.bodies, (x.after.after.data, tt)))))))))))) result (parts_at true bytes.now) }
{
    match bytes {
        [0x00, 0x61, 0x73, 0x6D, 0x01, 0x00, 0x00, 0x00, rest @ ..] => {
            let start = Cursor::new(rest, 8);
            let mut cursor = start;
            match read_sections(alloc, &mut cursor) {
                Ok(sections) => Ok(sections),
                Err(fault) => Err(ordered(fault, &start)),
            }
        }
        [0x00, 0x61, 0x73, 0x6D, ..] => Err(header_refusal(4, bytes)),
        _ => Err(header_refusal(0, bytes)),
    }
}

/// The module that the bytes spell (WebAssembly Core 1.0, binary format, as far as the integer profile goes). Errors:
/// `Refused` where they spell none, at the offset where they stop to; `TooLarge` where they spell none of at most
/// 1,048,576 bytes, 256 pages and 4,096 elements at first, and 1,024 parameters and locals of a function; `NoMemory`.
/// Time is linear in the bytes.
pub fn decode(alloc: Global, bytes: &[u8]) -> Result<Module, DecodeFault>
    // What is answered is spelled by the bytes, and keeps the limits.
    ensures found { IfOk result (λ m. Spells m bytes.now × Within m) }
    // What is refused is spelled by nothing.
    ensures refused { IsRefused result → (m : Module) → Spells m bytes.now → ⊥ }
    // What is too large is spelled by nothing within the limits.
    ensures too_large { IsTooLarge result → (m : Module) → Spells m bytes.now → Within m → ⊥ }
    // Of a fault of the bytes and a limit that is passed, the one that comes first from left to right is answered.
    ensures first { IfErr result (IsFirst bytes.now) }
{
    if MOST_BYTES < bytes.len() {
        return Err(DecodeFault::TooLarge {
            limit: Limit::Bytes,
            count: bytes.len() as u64,
            place: ModulePart::End,
        });
    }
    let found = behind_preamble(alloc, bytes)?;
    let source = Vec::from_slice(alloc, bytes)?;
    Ok(Module {
        source: Items::from_vec(source),
        types: found.types,
        imports: found.imports,
        functions: found.functions,
        tables: found.tables,
        memories: found.memories,
        globals: found.after.globals,
        exports: found.after.exports,
        start: found.after.start,
        elements: found.after.elements,
        bodies: found.after.after.bodies,
        data: found.after.after.data,
    })
}

/// Bytes spell at most one module.
pub fn one_module()
    ensures { (m n : Module) (bytes : List ℕ) → Spells m bytes → Spells n bytes → m ≡ n }
{}
