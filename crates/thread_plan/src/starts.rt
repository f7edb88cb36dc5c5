//! With which globals the functions of threads begin.

ghost use Rattle.std.specs.Prelude.{◌≡◌, ◌<◌, ◌≢◌, ℕ, IfOk, None, length, slice_get, slice_index_or};
ghost use Rattle.thread_plan.specs.Globals.{begins_with};
ghost use Rattle.thread_plan.specs.Hints.{thread_code};
ghost use Rattle.thread_plan.specs.Starts.{begins_in, begins_at, threads_in, value_or};

use crate::Plan;
use crate::global_use::{GlobalUse, use_of};
use std::alloc::Global;
use wasm_types::{Instr, Module, NoMemory};

/// What the instructions of a body do first with each global.
#[derive(Debug, Drop)]
pub(crate) struct Start {
    /// Of each global, whether the first instruction that names it takes its value; None where none names it before the
    /// first call.
    first: Vec<Option<bool>>,
    /// Whether there is a call.
    calls: bool,
}

/// Notes whether an instruction takes the value of a global that it names, if the global is there and none named it
/// before.
fn note(first: &mut Vec<Option<bool>>, global: u32, takes: bool)
    ensures count { length first.new.items ≡ length first.old.items }
    ensures noted { global < length first.old.items → slice_index_or first.new.items global None ≡ value_or (slice_index_or first.old.items global None) takes }
    ensures others { (g : ℕ) → g ≢ global → slice_index_or first.new.items g None ≡ slice_index_or first.old.items g None }
{
    let at = global as usize;
    if at < first.len() && first[at].is_none() {
        first[at] = Some(takes);
    }
}

/// What a body does first with each of so many globals.
fn start_of(alloc: Global, globals: usize, code: &[Instr]) -> Result<Start, NoMemory>
    ensures { IfOk result (λ start. (g : ℕ) → g < globals → begins_in start g ≡ begins_with g code.now) }
{
    let unknown: Option<bool> = None;
    let mut first = vec![in alloc; unknown; globals]?;
    for instr in code {
        match use_of(*instr) {
            GlobalUse::Gets(global) => note(&mut first, global, true),
            GlobalUse::Sets(global) => note(&mut first, global, false),
            GlobalUse::Calls => return Ok(Start { first, calls: true }),
            GlobalUse::Nothing => {}
        }
    }
    Ok(Start {
        first,
        calls: false,
    })
}

/// The instructions of the function of a thread; none where there is no such thread.
fn code_of<'a>(module: &'a Module, plan: &Plan, thread: u32) -> &'a [Instr]
    ensures { result.now ≡ thread_code «module».now (slice_get plan.now.threads thread) }
{
    let Some(thread) = plan.thread(thread) else {
        return &[];
    };
    match module.bodies.as_slice().get(thread.function as usize) {
        Some(body) => body.code.as_slice(),
        None => &[],
    }
}

/// What the functions of the threads of a plan do first with each global of the module.
pub(crate) fn starts_of(alloc: Global, module: &Module, plan: &Plan) -> Result<Vec<Start>, NoMemory>
    ensures count { IfOk result (λ starts. length starts.items ≡ length plan.now.threads) }
    ensures begin { IfOk result (λ starts. (g t : ℕ) → g < length «module».now.globals → begins_at g (slice_get starts.items t) ≡ begins_with g (thread_code «module».now (slice_get plan.now.threads t))) }
{
    let globals = module.globals.as_slice().len();
    let mut starts = Vec::new(alloc);
    for thread in 0..plan.threads() {
        let start = start_of(alloc, globals, code_of(module, plan, thread))?;
        starts.push(start)?;
    }
    Ok(starts)
}

/// Whether a body begins with the value of a global.
fn begins(start: &Start, global: usize) -> bool
    ensures { result ≡ begins_in start.now global }
{
    let first = match start.first.get(global) {
        Some(first) => *first,
        None => None,
    };
    first.unwrap_or(start.calls)
}

/// The threads that begin with the value of a global, which are numbered by their place.
pub(crate) fn threads_with(
    alloc: Global,
    starts: &[Start],
    global: usize,
) -> Result<Vec<usize>, NoMemory>
    ensures { IfOk result (λ threads. threads.items ≡ threads_in starts.now global) }
{
    let mut threads = Vec::new(alloc);
    for thread in 0..starts.len() {
        if begins(&starts[thread], global) {
            threads.push(thread)?;
        }
    }
    Ok(threads)
}
