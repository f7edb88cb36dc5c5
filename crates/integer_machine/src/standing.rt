//! How a thread stands, and where in the code.

ghost use Rattle.std.specs.Prelude.{◌≡◌, length, option_copied, slice_get};
ghost use Rattle.wasm_types.specs.declared.modules.Module.{Module};
ghost use Rattle.event_core.specs.End.{outcome_of};
ghost use Rattle.thread_words.specs.Instance.{Instance};
ghost use Rattle.thread_words.specs.Thread.{move};
ghost use Rattle.thread_words.specs.ThreadCode.{next_by};
ghost use Rattle.integer_machine.specs.Frames.{levels_of};
ghost use Rattle.integer_machine.specs.Meaning.{meaning};
ghost use Rattle.integer_machine.specs.Standing.{standing, place_of_level};

use thread_words::{Level, Stacks, Stage};
use wasm_types::Outcome;

/// A place in the code of a module.
#[derive(Clone, Copy, Debug, PartialEq, Eq)]
pub struct CodePlace {
    /// The function's index.
    pub function: u32,
    /// The number of an instruction of its body, from 0.
    pub instruction: u32,
}

/// How a thread stands: one that sleeps waits. No instruction need be read for it.
pub(crate) fn outcome_of(m: &Stacks) -> Outcome
    ensures { (within : Module) (instance : Instance) → result ≡ outcome_of (next_by instance (move within instance (meaning within m.now))) }
{
    match m.stage {
        Stage::Running => Outcome::Running,
        Stage::Sleeping { .. } => Outcome::Waiting,
        Stage::Ended(outcome) => outcome,
    }
}

/// How many functions a thread is in.
pub(crate) fn depth_of(m: &Stacks) -> usize
    ensures { (within : Module) → result ≡ length (standing (meaning within m.now)) }
{
    if let Stage::Ended(_) = m.stage {
        return 0;
    }
    m.callers.len() + 1
}

/// The level of a function that a thread is in: that of the one that runs, or of the caller with this number from 1.
pub(crate) fn level_at(m: &Stacks, depth: usize) -> Option<&Level>
    ensures { option_copied result ≡ slice_get (levels_of m.now) depth }
{
    if depth == 0 {
        return Some(&m.here);
    }
    let callers = m.callers.as_slice();
    if callers.len() < depth {
        return None;
    }
    callers.get(callers.len() - depth)
}

/// Where a function stands by its level.
fn place_of_level(level: &Level) -> CodePlace
    ensures { result ≡ place_of_level level.now }
{
    CodePlace {
        function: level.function,
        instruction: level.place,
    }
}

/// Where a thread stands in a function that it is in.
pub(crate) fn place_at(m: &Stacks, depth: usize) -> Option<CodePlace>
    ensures { (within : Module) → result ≡ slice_get (standing (meaning within m.now)) depth }
{
    if let Stage::Ended(_) = m.stage {
        return None;
    }
    match level_at(m, depth) {
        Some(level) => Some(place_of_level(level)),
        None => None,
    }
}
