//! Plans.

ghost use Rattle.std.specs.Prelude.{◌≡◌, ◌<◌, ◌≤◌, Ok, IfOk, IfErr, length, slice_get, option_copied};
ghost use Rattle.text_lines.specs.Parts.{parts_left, lines};
ghost use Rattle.thread_plan.specs.Plans.{plan_of, threads_of, threads_in, IsPlanOf};
ghost use Rattle.thread_plan.specs.Refusals.{IsFaultOf};

use crate::fault::{PlanCause, PlanFault};
use crate::planned_thread::PlannedThread;
use crate::thread_line::read_thread;
use std::alloc::Global;
use std::marker::Model;
use text_lines::{Parts, SpacingFault, without_end};
use validator::Valid;
use wasm_types::{MOST_THREADS, fit_segments, may_share};

/// The first line of a plan.
const FIRST_LINE: &[u8] = b"wreplay plan 1";

/// A plan: which exported functions of a module run as threads, and with which arguments. Contracts see its bytes and
/// its threads.
#[derive(Drop)]
pub struct Plan {
    bytes: Vec<u8>,
    threads: Vec<PlannedThread>,
}

impl Model for Plan {
    ghost use Rattle.std.specs.Prelude.{◌≤◌, length};
    ghost use Rattle.wasm_types.specs.declared.sizes.TheConstants.{MOST_THREADS};
    ghost use Rattle.thread_plan.specs.Plans.{PlanValue};

    ghost Value = { PlanValue };

    ghost view = { λ p. record { bytes = p.bytes.items; threads = p.threads.items } };

    ghost invariant = { λ p. length p.threads.items ≤ MOST_THREADS };
}

impl Plan {
    /// Reads the plan that these bytes spell for a module.
    ///
    /// The first line is `wreplay plan 1`. Then come 1 to 16 lines `thread NAME ARG ..`: a function's export name in
    /// UTF-8 without a space, and an integer in decimal for each parameter, with a single space between two words. An
    /// integer for a parameter of N bits is from -2^(N-1) to 2^N - 1, and stands for its value modulo 2^N. The last
    /// line may lack its line end. The first faulty line is answered, numbered from 1; a line's form goes before its
    /// name, and its name before its arguments. Where no line is faulty, a memory that is not shared goes before a
    /// segment out of bounds.
    pub fn read(alloc: Global, bytes: &[u8], valid: &Valid) -> Result<Plan, PlanFault>
        ensures ok { IfOk result (λ plan. plan_of valid.now bytes.now ≡ Ok plan) }
        ensures err { IfErr result (λ fault. IsFaultOf (plan_of valid.now bytes.now) fault) }
        ensures suits { IfOk result (λ plan. IsPlanOf valid.now plan) }
    {
        let threads = read_threads(alloc, bytes, valid)?;
        let module = valid.module();
        if threads.len() > 1 && !may_share(module) {
            return Err(PlanFault::NotShared);
        }
        if !fit_segments(module) {
            return Err(PlanFault::SegmentOutOfBounds);
        }
        let bytes = Vec::from_slice(alloc, bytes)?;
        Ok(Plan { bytes, threads })
    }

    /// The bytes that it was read from.
    pub fn bytes(&self) -> &[u8]
        ensures { result.now ≡ self.now.bytes }
    {
        self.bytes.as_slice()
    }

    /// How many threads it has.
    pub fn threads(&self) -> u32
        ensures { result ≡ length self.now.threads }
    {
        self.threads.len() as u32
    }

    /// A thread by its number, from 0 on; None past the last.
    pub fn thread(&self, thread: u32) -> Option<&PlannedThread>
        ensures { option_copied result ≡ slice_get self.now.threads thread }
    {
        self.threads.as_slice().get(thread as usize)
    }
}

// The threads of a plan's text.
fn read_threads(alloc: Global, text: &[u8], valid: &Valid) -> Result<Vec<PlannedThread>, PlanFault>
    ensures ok { IfOk result (λ threads. threads_in valid.now (lines text.now) ≡ Ok threads.items) }
    ensures err { IfErr result (λ fault. IsFaultOf (threads_in valid.now (lines text.now)) fault) }
    ensures few { IfOk result (λ threads. length threads.items ≤ MOST_THREADS) }
{
    let mut lines = Parts::new(without_end(text), b'\n');
    match lines.take_part() {
        Some(first) if first == FIRST_LINE => read_lines(alloc, lines, valid),
        Some([.., b'\r']) => Err(PlanFault::BadLine {
            line: 1,
            cause: PlanCause::Spacing(SpacingFault::CarriageReturn),
        }),
        _ => Err(PlanFault::BadLine {
            line: 1,
            cause: PlanCause::FirstLine,
        }),
    }
}

// The threads of the lines behind the first.
fn read_lines(
    alloc: Global,
    mut lines: Parts<'_>,
    valid: &Valid,
) -> Result<Vec<PlannedThread>, PlanFault>
    ensures ok { IfOk result (λ threads. threads_of valid.now (parts_left lines.entry) ≡ Ok threads.items) }
    ensures err { IfErr result (λ fault. IsFaultOf (threads_of valid.now (parts_left lines.entry)) fault) }
    ensures few { IfOk result (λ threads. length threads.items ≤ MOST_THREADS) }
{
    let mut threads = Vec::new(alloc);
    while let Some(line) = lines.take_part() {
        let number = threads.len() as u64 + 2;
        if threads.len() == MOST_THREADS {
            return Err(PlanFault::BadLine {
                line: number,
                cause: PlanCause::SeventeenthThread,
            });
        }
        let thread = read_thread(alloc, line, number, valid)?;
        threads.push(thread)?;
    }
    if threads.is_empty() {
        return Err(PlanFault::BadLine {
            line: 2,
            cause: PlanCause::NoThread,
        });
    }
    Ok(threads)
}
