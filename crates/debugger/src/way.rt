//! Ways, as lines.

ghost use Rattle.std.specs.Prelude.{◌≡◌, ◌++◌, IfOk, OnOk, string_bytes};
ghost use Rattle.debugger.specs.Replies.{leg_line, way_text};

use replay_session::Leg;
use std::alloc::Global;
use std::fmt::Write;
use wasm_types::NoMemory;

/// Writes a leg.
fn write_leg(text: &mut String, leg: Leg) -> Result<(), NoMemory>
    ensures { OnOk result (string_bytes text.new ≡ string_bytes text.old ++ leg_line leg) }
{
    match leg {
        Leg::Thread { thread, steps } => write!(text, "thread {thread} steps {steps}\n")?,
        Leg::Rounds { steps } => write!(text, "rounds steps {steps}\n")?,
    }
    Ok(())
}

/// A way, leg by leg.
pub(crate) fn way_text(alloc: Global, legs: &[Leg]) -> Result<String, NoMemory>
    ensures { IfOk result (λ text. string_bytes text ≡ way_text legs.now) }
{
    let mut text = String::new(alloc);
    for leg in legs {
        write_leg(&mut text, *leg)?;
    }
    Ok(text)
}
