//! Breaks at writes of bytes, by the texts that name these.

ghost use Rattle.std.specs.Prelude.{◌≡◌, IfOk};
ghost use Rattle.adapter.specs.Breakpoints.{IsWriteBy, Pairs, info_reply, range_of};
ghost use Rattle.adapter.specs.State.{state_of};

use crate::adapter::Adapter;
use crate::breakpoints::NO_RANGE;
use crate::replies::success;
use adapter_messages::{Body, Reply, Text, Told};
use debugger::{Command, Line, read_line};
use replay_gate::Break;
use std::alloc::Global;
use wasm_types::{ByteRange, NoMemory};

/// The range of bytes that a debugger's command `write` names.
fn range_of(text: &str) -> Option<ByteRange>
    ensures { result ≡ range_of text.now }
{
    match read_line(text.as_bytes()) {
        Line::Command(Command::Write(range)) => Some(range),
        _ => None,
    }
}

/// Whether there may be a breakpoint at the bytes that a text names.
pub(crate) fn data_info(alloc: Global, name: &Text) -> Result<Reply, NoMemory>
    ensures { IfOk result (λ reply. reply ≡ info_reply name.now) }
{
    let body = match range_of(name.as_str()) {
        Some(_) => Body::DataBreakpoint {
            data_id: Some(Text::new(alloc, name.as_str())?),
            description: Text::new(alloc, name.as_str())?,
        },
        None => Body::DataBreakpoint {
            data_id: None,
            description: Text::new(alloc, NO_RANGE)?,
        },
    };
    Ok(success(body, Told::none()))
}

impl<'a> Adapter<'a> {
    /// The break at the writes of the bytes that a text names, if it names some.
    fn write_of(&self, text: &str) -> Option<Break>
        ensures { IsWriteBy (state_of self.now).debugger.power (range_of text.now) result }
    {
        match range_of(text) {
            Some(range) => Some(self.debugger.write_break(range)),
            None => None,
        }
    }

    /// The breaks at the writes of the bytes that texts name.
    pub(crate) fn writes_of(
        &self,
        alloc: Global,
        ids: &[Text],
    ) -> Result<Vec<Option<Break>>, NoMemory>
        ensures { IfOk result (λ found. Pairs (λ id. IsWriteBy (state_of self.now).debugger.power (range_of id)) ids.now found.items) }
    {
        let mut found = Vec::new(alloc);
        for id in ids {
            found.push(self.write_of(id.as_str()))?;
        }
        Ok(found)
    }
}
