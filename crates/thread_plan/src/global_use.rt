//! What instructions do with globals.

ghost use Rattle.std.specs.Prelude.{◌≡◌};
ghost use Rattle.thread_plan.specs.Globals.{use_by, use_of};

use wasm_types::{IndexOp, Instr};

/// What an instruction does with globals. What is called may do anything with any.
#[derive(Clone, Copy, Debug, PartialEq, Eq)]
pub(crate) enum GlobalUse {
    Gets(u32),
    Sets(u32),
    Calls,
    Nothing,
}

/// What an instruction with an index does with globals.
fn use_by(op: IndexOp, index: u32) -> GlobalUse
    ensures { result ≡ use_by op index }
{
    match op {
        IndexOp::GlobalGet => GlobalUse::Gets(index),
        IndexOp::GlobalSet => GlobalUse::Sets(index),
        IndexOp::Call => GlobalUse::Calls,
        _ => GlobalUse::Nothing,
    }
}

/// What an instruction does with globals.
pub(crate) fn use_of(instr: Instr) -> GlobalUse
    ensures { result ≡ use_of instr }
{
    match instr {
        Instr::Index(op, index) => use_by(op, index),
        Instr::CallIndirect(_) => GlobalUse::Calls,
        _ => GlobalUse::Nothing,
    }
}
