//! The end of a run.

ghost use Rattle.std.specs.Prelude.{◌≡◌};

use std::marker::Model;
use wasm_types::Outcome;

/// The end of a run: the bytes of its memory, and how each thread stands, by thread. Contracts see the two lists.
#[derive(Debug, Drop)]
pub struct Ended {
    memory: Vec<u8>,
    outcomes: Vec<Outcome>,
}

impl Model for Ended {
    ghost use Rattle.event_core.specs.End.{RunEnd};

    ghost Value = { RunEnd };

    ghost view = { λ e. record { memory = e.memory.items; outcomes = e.outcomes.items } };
}

impl Ended {
    /// The end with these bytes and outcomes.
    pub fn new(memory: Vec<u8>, outcomes: Vec<Outcome>) -> Ended
        ensures memory { result.memory ≡ memory.items }
        ensures outcomes { result.outcomes ≡ outcomes.items }
    {
        Ended { memory, outcomes }
    }

    /// The bytes of the memory.
    pub fn memory(&self) -> &[u8]
        ensures { result.now ≡ self.now.memory }
    {
        self.memory.as_slice()
    }

    /// How each thread stands, by thread.
    pub fn outcomes(&self) -> &[Outcome]
        ensures { result.now ≡ self.now.outcomes }
    {
        self.outcomes.as_slice()
    }
}
