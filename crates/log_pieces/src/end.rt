//! How a thread's log ends.

use std::alloc::Global;
use std::fmt;
use wasm_types::{NoMemory, Outcome, Same};

/// The number of steps that a thread made, of its entries, and how it then stands.
#[derive(Clone, Copy, Debug, PartialEq, Eq)]
pub struct End {
    pub steps: u32,
    pub places: u32,
    pub outcome: Outcome,
}

impl fmt::Display for End {
    ghost use Rattle.std.specs.Prelude.{Some};
    ghost use Rattle.log_pieces.specs.Text.{end_text};

    ghost output = { λ e. Some (end_text e) };

    /// `steps=S places=P` and the outcome, after one space.
    fn fmt<W: fmt::Write>(&self, f: &mut fmt::Formatter<W>) -> fmt::Result {
        write!(
            f,
            "steps={} places={} {}",
            self.steps, self.places, self.outcome
        )
    }
}

impl Same for End {
    fn copy(&self, _alloc: Global) -> Result<End, NoMemory> {
        Ok(*self)
    }

    ghost use Rattle.log_pieces.specs.Decides.{end_decides};

    ghost decides = { end_decides };
}
