//! Schedules.

ghost use Rattle.std.specs.Prelude.{◌≡◌, Ok, IfOk, IfErr};
ghost use Rattle.pick_schedule.specs.Schedule.{schedule_of, IsFaultOf};

use crate::fault::{ScheduleCause, ScheduleFault};
use crate::line::stretch_of;
use crate::stretches::Schedule;
use std::alloc::Global;
use text_lines::{Parts, without_end};

/// Reads the picks of a schedule.
///
/// Each line is `go T N`, thread T goes on N times, or `out T`, the wait of thread T times out: T from 0 to 15, N from
/// 1 to 1,000,000, in decimal, with a single space between two words. The last line may lack its line end, and a text
/// of no bytes has no line. The first line that is of another form, or brings the picks above 1,000,000, is answered.
pub fn schedule(alloc: Global, text: &[u8]) -> Result<Schedule, ScheduleFault>
    ensures ok { IfOk result (λ picks. schedule_of text.now ≡ Ok picks) }
    ensures err { IfErr result (λ fault. IsFaultOf (schedule_of text.now) fault) }
{
    let mut picks = Schedule::new(alloc);
    if text.is_empty() {
        return Ok(picks);
    }
    let mut lines = Parts::new(without_end(text), b'\n');
    let mut number = 1;
    while let Some(line) = lines.take_part() {
        let stretch = match stretch_of(line) {
            Ok(stretch) => stretch,
            Err(cause) => {
                return Err(ScheduleFault::BadLine {
                    line: number,
                    cause,
                });
            }
        };
        if stretch.times > picks.room() {
            return Err(ScheduleFault::BadLine {
                line: number,
                cause: ScheduleCause::TooMany,
            });
        }
        picks.push(stretch.pick, stretch.times)?;
        number += 1;
    }
    Ok(picks)
}
