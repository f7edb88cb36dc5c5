//! The lines of answers that take no memory.

ghost use Rattle.std.specs.Prelude.{◌≡◌, ◌≤◌, IfSome, length};
ghost use Rattle.debugger.specs.Replies.{back_line, fault_words, ceased_words, gone_line, stopped_line, unreached_line, reverse_line, break_line, paused_line, test_words, watch_line, IsPauseOf, IsStopOf};
ghost use Rattle.replay_session.specs.declared.paused.Paused.TheVariants as paused;

use crate::numbers::put_number;
use arrayvec::ArrayString;
use debug_views::stop_words;
use replay_gate::{Break, Stopped};
use replay_session::{Ceased, Gone, Met, Paused};
use wasm_replay::ReplayFault;

/// Why a replay does not go on, in words.
fn fault_words(fault: ReplayFault) -> &'static str
    ensures words { result.now ≡ fault_words fault }
    ensures short { length result.now ≤ 16 }
{
    match fault {
        ReplayFault::Clash { .. } => " clash\n",
        ReplayFault::Missing { .. } => " missing\n",
        ReplayFault::Shut => " shut\n",
        ReplayFault::Diverged { .. } => " diverged\n",
        ReplayFault::NoMemory => " memory\n",
        ReplayFault::Stuck => " stuck\n",
    }
}

/// Why no more steps of a thread were made.
fn ceased_words(ceased: Ceased) -> &'static str
    ensures words { result.now ≡ ceased_words ceased }
    ensures short { length result.now ≤ 16 }
{
    match ceased {
        Ceased::All => "\n",
        Ceased::Done => " done\n",
        Ceased::Fault(fault) => fault_words(fault),
    }
}

/// How many steps of a thread were made, and why no more.
pub fn gone_line(gone: Gone) -> ArrayString<64>
    ensures { result.bytes ≡ gone_line gone }
{
    let mut line = ArrayString::<64>::new();
    line.push_str("stepped ");
    put_number(&mut line, gone.steps);
    line.push_str(ceased_words(gone.ceased));
    line
}

/// Where all threads stopped.
pub(crate) fn stopped_line(stopped: Stopped, breaks: &[Break]) -> ArrayString<64>
    requires { IsStopOf stopped breaks.now }
    ensures { result.bytes ≡ stopped_line stopped breaks.now }
{
    let mut line = ArrayString::<64>::new();
    match stopped {
        Stopped::Break(_) | Stopped::Finished | Stopped::Stuck => {
            line.push_str(stop_words(stopped, breaks));
            line.push_str("\n");
        }
        Stopped::Fault(fault) => {
            line.push_str("stopped");
            line.push_str(fault_words(fault));
        }
    }
    line
}

/// What stopped them that is none of the breaks.
fn test_words(index: usize, instructions: usize) -> &'static str
    ensures words { result.now ≡ test_words index instructions }
    ensures short { length result.now ≤ 20 }
{
    if index < instructions {
        "stopped instruction\n"
    } else {
        "stopped watch\n"
    }
}

/// Where all threads stopped, perhaps at a break at one of so many instructions, or at a number that is watched.
pub fn paused_line(how: Paused, breaks: &[Break], instructions: usize) -> ArrayString<64>
    requires { IsPauseOf how breaks.now }
    ensures { result.bytes ≡ paused_line how breaks.now instructions }
{
    match how {
        Paused::Met(Met::Break(index)) => stopped_line(Stopped::Break(index), breaks),
        Paused::Met(Met::Test(index)) => {
            let mut line = ArrayString::<64>::new();
            line.push_str(test_words(index, instructions));
            line
        }
        Paused::Finished => stopped_line(Stopped::Finished, breaks),
        Paused::Stuck => stopped_line(Stopped::Stuck, breaks),
        Paused::Fault(fault) => stopped_line(Stopped::Fault(fault), breaks),
    }
}

/// That a place was not reached, and where all threads stopped.
pub(crate) fn unreached_line(stopped: Stopped, breaks: &[Break]) -> ArrayString<64>
    requires { IsStopOf stopped breaks.now }
    ensures { result.bytes ≡ unreached_line stopped breaks.now }
{
    let mut line = ArrayString::<64>::new();
    line.push_str("error: no such place: ");
    line.push_str(stopped_line(stopped, breaks).as_str());
    line
}

/// At which break a move back ends.
pub(crate) fn reverse_line(
    found: Option<Met>,
    breaks: &[Break],
    instructions: usize,
) -> ArrayString<64>
    requires { IfSome found (λ m. IsPauseOf (paused.Met m) breaks.now) }
    ensures { result.bytes ≡ reverse_line found breaks.now instructions }
{
    match found {
        Some(met) => paused_line(Paused::Met(met), breaks, instructions),
        None => {
            let mut line = ArrayString::<64>::new();
            line.push_str("no break before\n");
            line
        }
    }
}

/// A break, by its number from 0.
pub(crate) fn break_line(number: usize) -> ArrayString<64>
    ensures { result.bytes ≡ break_line number }
{
    let mut line = ArrayString::<64>::new();
    line.push_str("break ");
    put_number(&mut line, number as u64);
    line.push_str("\n");
    line
}

/// A number that is watched, by its number from 0.
pub(crate) fn watch_line(number: usize) -> ArrayString<64>
    ensures { result.bytes ≡ watch_line number }
{
    let mut line = ArrayString::<64>::new();
    line.push_str("watch ");
    put_number(&mut line, number as u64);
    line.push_str("\n");
    line
}

/// What is said of a move back.
pub(crate) fn back_line() -> ArrayString<64>
    ensures { result.bytes ≡ back_line }
{
    let mut line = ArrayString::<64>::new();
    line.push_str("back\n");
    line
}
