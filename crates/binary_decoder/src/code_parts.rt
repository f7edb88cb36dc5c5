//! The parts of a code section, and where they stand.

ghost use Rattle.std.specs.Prelude.{◌≡◌, ◌≤◌, ◌++◌, false, length, IfSome, OnOk, option_map};
ghost use Rattle.binary_decoder.specs.Moves.{Moves};
ghost use Rattle.binary_decoder.specs.Passed.{IsOfBytes};
ghost use Rattle.binary_decoder.specs.Reader.{group_at};
ghost use Rattle.binary_decoder.specs.Names.{whole_items};
ghost use Rattle.binary_decoder.specs.Offsets.{offset_at, locals_of, offsets_behind, code_of};

use crate::cursor::Cursor;
use crate::fault::DecodeFault;
use crate::instructions::instruction;
use crate::name_parts::{next_part, sections};
use crate::parts::{Spelled, vector};
use std::alloc::Global;
use wasm_types::{LocalGroup, NoMemory, ValType};

/// The id of code sections.
const CODE: u8 = 10;

/// The content of a section, and the offset at which it ends.
#[derive(Clone, Copy)]
pub(crate) struct Placed<'a> {
    pub content: Cursor<'a>,
    pub end: usize,
}

/// Locals of one type, as many as there may be.
impl Spelled for LocalGroup {
    ghost reading = { group_at false 0 };

    #[tactic(auto, unfolding(crate::specs::Reader::group_at))]
    fn read(alloc: Global, cursor: &mut Cursor) -> Result<LocalGroup, DecodeFault> {
        let count = cursor.unsigned_32()?;
        let val_type = ValType::read(alloc, cursor)?;
        Ok(LocalGroup { count, val_type })
    }
}

/// The content of a module's first code section before the first damage.
pub(crate) fn code_section(bytes: &[u8]) -> Option<Placed<'_>>
    ensures found { option_map (λ code. (code.content.rest.now, code.end)) result ≡ code_of bytes.now }
    ensures within { IfSome result (λ code. length code.content.rest.now ≤ code.end) }
{
    let mut left = sections(bytes);
    let most = left.rest().len();
    for _ in 0..most {
        let Ok(part) = next_part(&mut left) else {
            return None;
        };
        if part.id == CODE {
            let end = bytes.len() - left.rest().len();
            return Some(Placed {
                content: part.content,
                end,
            });
        }
    }
    None
}

/// Passes on that memory ran out. Any other fault is one of the bytes, and passed over.
fn pass_no_memory(fault: DecodeFault) -> Result<(), NoMemory>
    ensures { OnOk result (IsOfBytes fault) }
{
    match fault {
        DecodeFault::NoMemory => Err(NoMemory),
        DecodeFault::Refused { .. } | DecodeFault::TooLarge { .. } => Ok(()),
    }
}

/// The offset of the next instruction in a text that ends at the offset `end`. The labels are room for its own.
#[tactic(auto, unfolding(crate::specs::Offsets::offset_at))]
fn next_offset(
    alloc: Global,
    end: usize,
    labels: &mut Vec<u32>,
    cursor: &mut Cursor,
) -> Result<usize, DecodeFault>
    requires { length cursor.now.rest.now ≤ end }
    ensures { Moves result cursor.new.rest.now (offset_at end cursor.old.rest.now) }
{
    let offset = end - cursor.rest().len();
    labels.clear();
    instruction(alloc, cursor, labels)?;
    Ok(offset)
}

/// Puts the offset of each instruction up to the first damage behind these offsets. The text ends at the offset `end`.
fn push_instructions(
    alloc: Global,
    end: usize,
    cursor: &mut Cursor,
    offsets: &mut Vec<usize>,
) -> Result<(), NoMemory>
    requires { length cursor.now.rest.now ≤ end }
    ensures { OnOk result (offsets.new.items ≡ offsets.old.items ++ whole_items (offset_at end) (length cursor.old.rest.now) cursor.old.rest.now) }
{
    let mut labels = Vec::new(alloc);
    let most = cursor.rest().len();
    for _ in 0..most {
        match next_offset(alloc, end, &mut labels, cursor) {
            Ok(offset) => offsets.push(offset)?,
            Err(fault) => {
                pass_no_memory(fault)?;
                return Ok(());
            }
        }
    }
    Ok(())
}

/// Puts the offset of each instruction of a body's content, which ends at the offset `end`, behind these offsets.
pub(crate) fn push_content(
    alloc: Global,
    end: usize,
    content: &Cursor,
    offsets: &mut Vec<usize>,
) -> Result<(), NoMemory>
    requires { length content.now.rest.now ≤ end }
    ensures { OnOk result (offsets.new.items ≡ offsets.old.items ++ offsets_behind end (locals_of content.now.rest.now)) }
{
    let mut behind = *content;
    match vector::<LocalGroup>(alloc, &mut behind) {
        Ok(_) => {}
        Err(fault) => {
            pass_no_memory(fault)?;
            return Ok(());
        }
    }
    push_instructions(alloc, end, &mut behind, offsets)?;
    Ok(())
}
