//! The entries of a name map.

ghost use Rattle.std.specs.Prelude.{IfErr};
ghost use Rattle.binary_decoder.specs.Moves.{MovesBy, IsRefusal};
ghost use Rattle.binary_decoder.specs.Names.{entry_at};

use crate::cause::{Cause, SpellingFault};
use crate::cursor::Cursor;
use crate::fault::DecodeFault;

/// A function's index, and its name.
#[derive(Clone, Copy)]
pub(crate) struct NamedFunction<'a> {
    pub function: u32,
    pub name: &'a str,
}

/// The next entry.
#[tactic(auto, unfolding(crate::specs::Names::entry_at))]
pub(crate) fn next_entry<'a>(cursor: &mut Cursor<'a>) -> Result<NamedFunction<'a>, DecodeFault>
    ensures value { MovesBy (λ e. (e.function, e.name.now)) result cursor.new.rest.now (entry_at cursor.old.rest.now) }
    ensures refusal { IfErr result IsRefusal }
{
    let function = cursor.unsigned_32()?;
    let content = cursor.sized()?;
    match str::from_utf8(content.rest()) {
        Ok(name) => Ok(NamedFunction { function, name }),
        Err(_) => Err(cursor.refusal(Cause::Spelling(SpellingFault::NotText))),
    }
}
