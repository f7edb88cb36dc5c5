//! Schedules out of stretches, and their text.

ghost use Rattle.std.specs.Prelude.{◌≡◌, ◌<◌, ◌++◌, ◌⊎◌, false, Ok, IfOk, OnOk, IfSome, IfNone, length, string_bytes};
ghost use Rattle.event_core.specs.declared.pick.Input.TheVariants.{Go, TimeOut};
ghost use Rattle.pick_schedule.specs.Schedule.{schedule_of};
ghost use Rattle.pick_schedule.specs.Stretches.{picks_in};
ghost use Rattle.pick_schedule.specs.Printing.{are_of_threads, AreOfThreads, lines_by, stretch_lines, text_of};

use crate::stretches::{Schedule, Stretch};
use event_core::Input;
use std::alloc::Global;
use std::fmt::Write;
use wasm_types::{LAST_THREAD, NoMemory};

impl Schedule {
    /// The picks of these stretches, one behind the other. None where they are more than 1,000,000, or one of them is
    /// of a thread above 15.
    pub fn of_stretches(alloc: Global, stretches: &[Stretch]) -> Result<Option<Schedule>, NoMemory>
        ensures some { IfOk result (λ s. IfSome s (λ s. (s ≡ picks_in stretches.now) × AreOfThreads s)) }
        ensures none { IfOk result (λ s. IfNone s ((1000000 < length (picks_in stretches.now)) ⊎ (are_of_threads (picks_in stretches.now) ≡ false))) }
    {
        let mut schedule = Schedule::new(alloc);
        for stretch in stretches {
            if stretch.times == 0 {
                continue;
            }
            if stretch.pick.thread > LAST_THREAD || stretch.times > schedule.room() {
                return Ok(None);
            }
            schedule.push(stretch.pick, stretch.times)?;
        }
        Ok(Some(schedule))
    }

    /// The lines of the picks, as `schedule` reads them: each with its line end, one for a stretch of which the thread
    /// goes on, and one for each time that a wait times out.
    pub fn text(&self, alloc: Global) -> Result<String, NoMemory>
        requires { AreOfThreads self.now }
        ensures { IfOk result (λ text. schedule_of (string_bytes text) ≡ Ok self.now) }
    {
        let mut text = String::new(alloc);
        for stretch in self.stretches() {
            write_stretch(&mut text, *stretch)?;
        }
        Ok(text)
    }
}

/// Writes the lines of a stretch.
fn write_stretch(text: &mut String, stretch: Stretch) -> Result<(), NoMemory>
    ensures { OnOk result (string_bytes text.new ≡ string_bytes text.old ++ text_of (stretch_lines stretch)) }
{
    let thread = stretch.pick.thread;
    match stretch.pick.input {
        Input::Go => write_go(text, thread, stretch.times),
        Input::TimeOut => write_outs(text, thread, stretch.times),
    }
}

/// Writes the line by which a thread goes on so many times, if any.
fn write_go(text: &mut String, thread: u32, times: u32) -> Result<(), NoMemory>
    ensures { OnOk result (string_bytes text.new ≡ string_bytes text.old ++ text_of (lines_by Go thread times)) }
{
    if times == 0 {
        return Ok(());
    }
    write!(text, "go {thread} {times}\n")?;
    Ok(())
}

/// Writes a line for each time that the wait of a thread times out.
fn write_outs(text: &mut String, thread: u32, times: u32) -> Result<(), NoMemory>
    ensures { OnOk result (string_bytes text.new ≡ string_bytes text.old ++ text_of (lines_by TimeOut thread times)) }
{
    for _ in 0..times {
        write!(text, "out {thread}\n")?;
    }
    Ok(())
}
