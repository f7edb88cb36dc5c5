//! Whether a module has atomic instructions.

ghost use Rattle.std.specs.Prelude.{◌≡◌};
ghost use Rattle.std.specs.List.{list_any};
ghost use Rattle.thread_plan.specs.Hints.{is_atomic, has_atomic};

use wasm_types::{Body, Instr};

fn is_atomic(instr: Instr) -> bool
    ensures { result ≡ is_atomic instr }
{
    match instr {
        Instr::Atomic(_, _) => true,
        _ => false,
    }
}

fn is_any_atomic(code: &[Instr]) -> bool
    ensures { result ≡ list_any is_atomic code.now }
{
    let mut any = false;
    for instr in code {
        any |= is_atomic(*instr);
    }
    any
}

/// Whether some function has an atomic instruction; the fence is none.
pub(crate) fn have_atomic(bodies: &[Body]) -> bool
    ensures { result ≡ list_any has_atomic bodies.now }
{
    let mut any = false;
    for body in bodies {
        any |= is_any_atomic(body.code.as_slice());
    }
    any
}
