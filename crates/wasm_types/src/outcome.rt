//! How a thread stands.

use crate::no_memory::NoMemory;
use crate::same::Same;
use crate::trap::Trap;
use crate::value::Value;
use std::alloc::Global;
use std::fmt;

/// How a thread stands at the end of a run.
#[derive(Clone, Copy, Debug, PartialEq, Eq)]
pub enum Outcome {
    /// It has steps left.
    Running,
    /// It sleeps in a wait, woken or not.
    Waiting,
    /// Its function returned, with at most one value.
    Done(Option<Value>),
    /// It was stopped.
    Trapped(Trap),
}

impl fmt::Display for Outcome {
    ghost use Rattle.std.specs.Prelude.{Some};
    ghost use Rattle.wasm_types.specs.Text.{outcome_text};

    ghost output = { λ o. Some (outcome_text o) };

    /// `running`, `waiting`, `none` for done without a value, else the value or the trap.
    fn fmt<W: fmt::Write>(&self, f: &mut fmt::Formatter<W>) -> fmt::Result {
        match self {
            Outcome::Running => write!(f, "running"),
            Outcome::Waiting => write!(f, "waiting"),
            Outcome::Done(None) => write!(f, "none"),
            Outcome::Done(Some(value)) => write!(f, "{value}"),
            Outcome::Trapped(trap) => write!(f, "{trap}"),
        }
    }
}

impl Same for Outcome {
    fn copy(&self, _alloc: Global) -> Result<Outcome, NoMemory> {
        Ok(*self)
    }

    ghost use Rattle.std.specs.Prelude.{refl};
    ghost use Rattle.std.proofs.Common.{rules};
    ghost use denote.Enum.Bare.{same_true, true_same};
    ghost use Rattle.wasm_types.specs.contracts.trap.Trap.{the_type};
    ghost use Rattle.wasm_types.specs.Decides.{outcome_decides, outcome_eq_is, value_decides};

    ghost decides = { outcome_decides _ ⟦<Value as PartialEq>⟧.eq ⟦<Trap as PartialEq>⟧.eq (value_decides _ (λ m n. refl) (λ m n. refl) (λ m n. refl) (λ m n. refl)) (λ k l. (same_true the_type (Prim.search rules) k l, true_same the_type k l)) outcome_eq_is };
}
