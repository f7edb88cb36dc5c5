//! The types of a function's locals.

ghost use Rattle.std.specs.Prelude.{◌≡◌, ℕ, ◌++◌, ◌<◌, ◌≤◌, ◌^◌, length, OnOk, slice_get, slice_index};
ghost use Rattle.std.specs.List.Sorted.{IsNonDecreasing};
ghost use Rattle.wasm_types.specs.Locals.{locals_of};
ghost use Rattle.validator.specs.Ends.{ends_from};

use crate::fault::InstructionFault;
use crate::step_cause::{Named, StepCause};
use wasm_types::{Body, FuncType, LocalGroup, NoMemory, ValType};

/// Notes where each group of locals ends: how many locals there are up to its last, or the greatest `u64` where there
/// are more.
pub(crate) fn note_ends(ends: &mut Vec<u64>, groups: &[LocalGroup]) -> Result<(), NoMemory>
    ensures { OnOk result (ends.new.items ≡ ends_from 0 groups.now) }
{
    ends.clear();
    let mut end = 0u64;
    for group in groups {
        end = end.saturating_add(u64::from(group.count));
        ends.push(end)?;
    }
    Ok(())
}

/// The type of a function's local; the parameters come first. It takes as long as a binary search in the groups.
pub(crate) fn local_type(kind: &FuncType, body: &Body, ends: &[u64], local: u32) -> Option<ValType>
    requires { ends.now ≡ ends_from 0 body.now.locals }
    ensures { result ≡ slice_get (kind.now.params ++ locals_of body.now.locals) local }
{
    let at = local as usize;
    let params = kind.params.as_slice();
    if at < params.len() {
        return Some(params[at]);
    }
    grouped_type(body.locals.as_slice(), ends, (at - params.len()) as u64)
}

/// The fault of a local that is not there.
#[cold]
pub(crate) fn no_local(kind: &FuncType, ends: &[u64], index: u32) -> InstructionFault {
    let grouped = ends.last().copied().unwrap_or(0);
    InstructionFault::IllTyped(StepCause::Missing {
        what: Named::Local,
        index,
        count: kind
            .params
            .as_slice()
            .len()
            .saturating_add(grouped as usize),
    })
}

// The type of a local, counted from the first of the groups on.
fn grouped_type(groups: &[LocalGroup], ends: &[u64], at: u64) -> Option<ValType>
    requires ends { ends.now ≡ ends_from 0 groups.now }
    requires at { at < 2 ^ 32 }
    ensures { result ≡ slice_get (locals_of groups.now) at }
{
    match groups.get(ends_before(ends, at)) {
        None => None,
        Some(group) => Some(group.val_type),
    }
}

// How many of the ends are not behind a place. The ends do not fall.
fn ends_before(ends: &[u64], at: u64) -> usize
    requires { IsNonDecreasing ends.now }
    ensures before { (k : ℕ) → k < result → slice_index ends.now k ≤ at }
    ensures behind { result < length ends.now → at < slice_index ends.now result }
{
    ends.partition_point(|end| *end <= at)
}
