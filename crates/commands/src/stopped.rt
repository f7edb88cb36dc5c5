//! The threads of a recording that stopped at `--steps`.

ghost use Rattle.std.specs.Prelude.{◌≡◌, ◌∷◌, ◌++◌, IfOk, OnOk, flat_map, string_bytes};
ghost use Rattle.std.specs.Fmt.{decimal};
ghost use Rattle.commands.specs.Records.{has_stopped, is_running, stopped_from, stopped_line};

use replica::End;
use std::alloc::Global;
use std::fmt::Write;
use wasm_record::ThreadLog;
use wasm_types::{NoMemory, Outcome};

fn is_running(outcome: &Outcome) -> bool
    ensures { result ≡ is_running outcome.now }
{
    matches!(outcome, Outcome::Running)
}

/// Whether a thread has steps left when it has made as many as it may.
fn has_stopped(most: u32, end: &End) -> bool
    ensures { result ≡ has_stopped most end.now }
{
    is_running(&end.outcome) && end.steps >= most
}

/// The threads that have steps left when they have made as many as they may, which are numbered by their place.
fn stopped_threads(alloc: Global, most: u32, threads: &[ThreadLog]) -> Result<Vec<usize>, NoMemory>
    ensures { IfOk result (λ stopped. stopped.items ≡ stopped_from most 0 threads.now) }
{
    let mut stopped = Vec::new(alloc);
    for thread in 0..threads.len() {
        if has_stopped(most, &threads[thread].end()) {
            stopped.push(thread)?;
        }
    }
    Ok(stopped)
}

/// Puts the numbers of threads behind a text, each after a space.
fn put_threads(text: &mut String, threads: &[usize]) -> Result<(), NoMemory>
    ensures { OnOk result (string_bytes text.new ≡ string_bytes text.old ++ flat_map (λ t. 32 ∷ decimal t) threads.now) }
{
    for thread in threads {
        write!(text, " {thread}")?;
    }
    Ok(())
}

/// A line of the threads that stopped at `--steps`, the most steps that each might make; empty where there are none.
pub(crate) fn stopped_line(
    alloc: Global,
    most: u32,
    threads: &[ThreadLog],
) -> Result<String, NoMemory>
    ensures { IfOk result (λ line. string_bytes line ≡ stopped_line most (stopped_from most 0 threads.now)) }
{
    let stopped = stopped_threads(alloc, most, threads)?;
    if stopped.is_empty() {
        return Ok(String::new(alloc));
    }
    let mut line = format!(in alloc; "threads stopped at --steps {most}:")?;
    put_threads(&mut line, &stopped)?;
    line.push_str("\n")?;
    Ok(line)
}
