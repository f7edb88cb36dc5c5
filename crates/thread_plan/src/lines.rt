//! The hints, as lines.

ghost use Rattle.std.specs.Prelude.{◌≡◌, ◌<◌, ◌∷◌, ◌++◌, ◌&&◌, false, IfOk, OnOk, length, flat_map, slice_get, slice_index_or, string_bytes};
ghost use Rattle.std.specs.Fmt.{decimal};
ghost use Rattle.thread_plan.specs.Hints.{stack_line, line_of_many, stack_hint, is_mutable_i32, may_be_stack, lacks_atomics, hints_text};
ghost use Rattle.thread_plan.specs.Starts.{threads_in};
ghost use Rattle.std.specs.List.{range_with_len};

use crate::Plan;
use crate::atomics::have_atomic;
use crate::marks::set_globals;
use crate::starts::{Start, starts_of, threads_with};
use std::alloc::Global;
use std::fmt::Write;
use validator::Valid;
use wasm_types::{Module, NoMemory, ValType, first_memory, is_shared};

/// The line of a shared memory that no instruction uses atomically.
const MEMORY_LINE: &str = "warning: the memory is shared, and no instruction is atomic\n";

/// Whether a global may be a stack pointer, as that of C: mutable, of type `i32`.
fn is_mutable_i32(global: wasm_types::Global) -> bool
    ensures { result ≡ is_mutable_i32 global }
{
    match global.val_type {
        ValType::I32 => global.mutable,
        ValType::I64 => false,
    }
}

/// Puts the numbers of threads behind a text, each after a space.
fn put_threads(text: &mut String, threads: &[usize]) -> Result<(), NoMemory>
    ensures { OnOk result (string_bytes text.new ≡ string_bytes text.old ++ flat_map (λ t. 32 ∷ decimal t) threads.now) }
{
    for thread in threads {
        write!(text, " {thread}")?;
    }
    Ok(())
}

/// Puts the line of a global behind a text that these threads begin with.
fn put_stack_line(text: &mut String, global: usize, threads: &[usize]) -> Result<(), NoMemory>
    ensures { OnOk result (string_bytes text.new ≡ string_bytes text.old ++ stack_line global threads.now) }
{
    text.push_str("warning: threads")?;
    put_threads(text, threads)?;
    write!(
        text,
        " begin with the same value of global {global}, which functions set: do they share a stack?\n"
    )?;
    Ok(())
}

/// Whether a global may be a stack pointer: it is mutable, of type `i32`, and marked as one that some function sets.
fn may_be_stack(globals: &[wasm_types::Global], marks: &[bool], global: usize) -> bool
    requires there { global < length globals.now }
    requires marked { global < length marks.now }
    ensures { result ≡ (may_be_stack (slice_get globals.now global) && slice_index_or marks.now global false) }
{
    is_mutable_i32(globals[global]) && marks[global]
}

/// Puts the line of a global behind a text, where two threads or more begin with its value.
fn put_stack_hint(
    alloc: Global,
    text: &mut String,
    starts: &[Start],
    global: usize,
) -> Result<(), NoMemory>
    ensures { OnOk result (string_bytes text.new ≡ string_bytes text.old ++ line_of_many global (threads_in starts.now global)) }
{
    let threads = threads_with(alloc, starts, global)?;
    if threads.len() < 2 {
        return Ok(());
    }
    put_stack_line(text, global, &threads)
}

/// The lines of the globals of a module, one behind the other.
fn stack_hints(alloc: Global, module: &Module, plan: &Plan) -> Result<String, NoMemory>
    ensures { IfOk result (λ text. string_bytes text ≡ flat_map (stack_hint «module».now plan.now.threads) (range_with_len 0 (length «module».now.globals))) }
{
    let starts = starts_of(alloc, module, plan)?;
    let marks = set_globals(alloc, module)?;
    let globals = module.globals.as_slice();
    let mut text = String::new(alloc);
    for global in 0..globals.len() {
        if may_be_stack(globals, &marks, global) {
            put_stack_hint(alloc, &mut text, &starts, global)?;
        }
    }
    Ok(text)
}

/// Whether two threads or more share a memory that no instruction uses atomically.
fn lacks_atomics(module: &Module, plan: &Plan) -> bool
    ensures { result ≡ lacks_atomics «module».now plan.now.threads }
{
    let is_shared = is_shared(first_memory(module));
    plan.threads() >= 2 && is_shared && !have_atomic(module.bodies.as_slice())
}

/// The lines that hint at what may go wrong with the threads of a plan for a module; none of them is an error.
///
/// First, by rising index, each mutable global of type `i32` that some function sets and with whose value two threads
/// or more begin: in the function of such a thread the first instruction that names the global or is a call is no
/// `global.set` of it. So the stack pointer of C is named, where threads did not get stacks of their own. Then a memory
/// that is shared, where there are two threads or more and no instruction but fences is atomic. It takes time in
/// proportion to the module and to its globals by the threads. It fails only where memory runs out.
pub fn hints(alloc: Global, valid: &Valid, plan: &Plan) -> Result<String, NoMemory>
    ensures { IfOk result (λ text. string_bytes text ≡ hints_text valid.now plan.now) }
{
    let module = valid.module();
    let mut text = stack_hints(alloc, module, plan)?;
    if lacks_atomics(module, plan) {
        text.push_str(MEMORY_LINE)?;
    }
    Ok(text)
}
