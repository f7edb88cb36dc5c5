//! Calls.

ghost use Rattle.std.specs.Prelude.{◌≡◌, ℕ, ◌+◌, ◌-◌, ◌≤◌, ◌<◌, ◌^◌, List, ◌++◌, length, take, replicate, IfOk, OnOk, OnErr, IsOk, vec_len, vec_capacity};
ghost use Rattle.wasm_types.specs.declared.instruction.Instr.TheVariants.{Index};
ghost use Rattle.wasm_types.specs.declared.instruction.IndexOp.TheVariants.{Call};
ghost use Rattle.wasm_types.specs.Locals.{locals_of};
ghost use Rattle.thread_words.specs.Thread.{most_frames};
ghost use Rattle.thread_words.specs.Calling.{declared_of, CanCall, Calls};
ghost use Rattle.thread_words.specs.Moves.{CanStepIn, StepsIn, Unchanged, HasRoom};

use crate::functions::{body_of_function, type_of_function};
use crate::stacks::{Level, Stacks, Stage};
use validator::Valid;
use wasm_types::{Body, NoMemory, Outcome, Trap};

/// How many locals a body declares. No memory has room for as many as there are no numbers for.
#[inline(always)]
pub fn declared_locals(body: &Body) -> Result<usize, NoMemory>
    ensures ok { IfOk result (λ count. count ≡ length (locals_of body.now.locals)) }
    ensures err { OnErr result (2 ^ 64 ≤ length (locals_of body.now.locals)) }
{
    let mut count = 0usize;
    for group in body.locals.as_slice() {
        let Some(more) = count.checked_add(group.count as usize) else {
            return Err(NoMemory);
        };
        count = more;
    }
    Ok(count)
}

/// How many functions may stand one above the other. The exported function that waits for the start function counts
/// for none.
#[inline(always)]
pub(crate) fn frame_limit(starting: bool) -> usize
    ensures { result ≡ most_frames starting }
{
    if starting { 257 } else { 256 }
}

/// Does what `put_zeros` says, for any number of zeros. It is kept apart, so that a call of a function without locals
/// is short.
#[inline(never)]
fn put_some_zeros(words: &mut Vec<u64>, taken: usize, zeros: usize) -> Result<(), NoMemory>
    requires { taken ≤ length words.old.items }
    ensures ok { OnOk result (words.new.items ≡ take (length words.old.items - taken) words.old.items ++ replicate zeros 0) }
    ensures err { OnErr result (words.new.items ≡ words.old.items) }
    ensures room { vec_len words.old + zeros ≤ vec_capacity words.old → IsOk result }
{
    words.reserve(zeros)?;
    let left = words.len() - taken;
    words.truncate(left);
    words.resize(left + zeros, 0)?;
    Ok(())
}

/// Zeros come in the place of so many words on top. Where memory is wanted the words stay.
#[inline(always)]
pub fn put_zeros(words: &mut Vec<u64>, taken: usize, zeros: usize) -> Result<(), NoMemory>
    requires { taken ≤ length words.old.items }
    ensures ok { OnOk result (words.new.items ≡ take (length words.old.items - taken) words.old.items ++ replicate zeros 0) }
    ensures err { OnErr result (words.new.items ≡ words.old.items) }
    ensures room { vec_len words.old + zeros ≤ vec_capacity words.old → IsOk result }
{
    if zeros == 0 {
        let left = words.len() - taken;
        words.truncate(left);
        return Ok(());
    }
    put_some_zeros(words, taken, zeros)
}

/// Enters a function, whose arguments stand below so many words that go.
#[inline(always)]
fn enter_function(
    m: &mut Stacks,
    valid: &Valid,
    function: u32,
    taken: usize,
) -> Result<(), NoMemory>
    requires can { CanCall valid.now function taken m.old }
    requires fits { length m.old.callers.items + 2 ≤ most_frames m.old.starting }
    ensures ok { OnOk result (Calls valid.now function taken m.old m.new) }
    ensures err { OnErr result (Unchanged m.old m.new) }
    ensures room { HasRoom (declared_of valid.now function) m.old → IsOk result }
{
    m.callers.reserve(1)?;
    let params = type_of_function(valid, function).params.as_slice().len();
    let declared = declared_locals(body_of_function(valid, function))?;
    let low = m.words.len() - taken - params;
    put_zeros(&mut m.words, taken, declared)?;
    m.callers.push_reserved(Level {
        function: m.here.function,
        place: m.here.place + 1,
        words: m.here.words,
        labels: m.here.labels,
    });
    m.here = Level {
        function,
        place: 0,
        words: low,
        labels: m.labels.len(),
    };
    Ok(())
}

/// Calls a function, whose arguments stand below so many words that go. One function too many stops the thread.
#[inline(always)]
pub(crate) fn call_function(
    m: &mut Stacks,
    valid: &Valid,
    function: u32,
    taken: usize,
) -> Result<(), NoMemory>
    requires { CanCall valid.now function taken m.old }
    ensures ok { OnOk result (Calls valid.now function taken m.old m.new) }
    ensures err { OnErr result (Unchanged m.old m.new) }
    ensures room { HasRoom (declared_of valid.now function) m.old → IsOk result }
{
    if m.callers.len() + 2 > frame_limit(m.starting) {
        m.stage = Stage::Ended(Outcome::Trapped(Trap::StackExhausted));
        return Ok(());
    }
    enter_function(m, valid, function, taken)
}

/// `call`.
#[inline(always)]
pub fn call(m: &mut Stacks, valid: &Valid, function: u32) -> Result<(), NoMemory>
    requires { CanStepIn valid.now (Index Call function) m.old }
    ensures ok { OnOk result (StepsIn valid.now (Index Call function) m.old m.new) }
    ensures err { OnErr result (Unchanged m.old m.new) }
    ensures room { HasRoom (declared_of valid.now function) m.old → IsOk result }
{
    call_function(m, valid, function, 0)
}
