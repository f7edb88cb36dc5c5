//! Disassembly on request.

ghost use Rattle.std.specs.Prelude.{IfOk};
ghost use Rattle.adapter.specs.Disassembly.{Disassembles};
ghost use Rattle.adapter.specs.State.{Suits, state_of};

use crate::adapter::Adapter;
use crate::disassembly::disassembly_reply;
use adapter_messages::{Reply, Text};
use std::alloc::Global;
use wasm_types::NoMemory;

impl<'a> Adapter<'a> {
    /// Tells so many instructions from the one that is meant, moved by `instructions`, on.
    pub(crate) fn disassemble(
        &self,
        alloc: Global,
        reference: &Text,
        offset: i64,
        instructions: i64,
        count: u64,
    ) -> Result<Reply, NoMemory>
        requires { Suits self.now }
        ensures { IfOk result (λ reply. Disassembles (state_of self.now).debugger.code (record { reference = reference.now; offset = offset }) instructions count reply) }
    {
        let found = self.place_of(reference, offset);
        let module = self.debugger.valid().module();
        disassembly_reply(alloc, &self.code, module, found, instructions, count)
    }
}
