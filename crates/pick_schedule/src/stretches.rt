//! Schedules, as stretches of equal picks.

ghost use Rattle.std.specs.Prelude.{◌≡◌, ◌+◌, ◌≤◌, ◌<◌, ◌^◌, ◌++◌, ◌==◌, [], length, replicate, IfOk, OnOk, OnErr};
ghost use Rattle.std.specs.Bool.{MatchBool};
ghost use Rattle.pick_schedule.specs.Stretches.{picks_in};

use event_core::Pick;
use std::alloc::Global;
use std::marker::Model;
use wasm_types::NoMemory;

/// The most picks of a schedule.
pub const MOST_PICKS: u32 = 1_000_000;

/// A pick that comes several times in a row.
#[derive(Clone, Copy, Debug, PartialEq, Eq)]
pub struct Stretch {
    pub pick: Pick,
    /// How often it comes.
    pub times: u32,
}

/// Picks in the order in which they are tried. Contracts see their list.
#[derive(Debug, Drop)]
pub struct Schedule {
    stretches: Vec<Stretch>,
    len: u32,
}

impl Model for Schedule {
    ghost use Rattle.std.specs.Prelude.{List};
    ghost use Rattle.event_core.specs.declared.pick.Pick.{Pick};
    ghost use Rattle.pick_schedule.specs.Stretches.{AreCounted, picks_in};

    ghost Value = { List Pick };

    ghost view = { λ s. picks_in s.stretches.items };

    ghost invariant = { λ s. AreCounted s.len s.stretches.items };
}

impl Schedule {
    /// No pick. It takes no memory.
    pub fn new(alloc: Global) -> Schedule
        ensures { result ≡ [] }
    {
        Schedule {
            stretches: Vec::new(alloc),
            len: 0,
        }
    }

    /// These picks, of which there are at most 1,000,000.
    pub fn of(alloc: Global, picks: &[Pick]) -> Result<Schedule, NoMemory>
        requires { length picks.now ≤ 1000000 }
        ensures { IfOk result (λ schedule. schedule ≡ picks.now) }
    {
        let mut schedule = Schedule::new(alloc);
        for pick in picks {
            schedule.push(*pick, 1)?;
        }
        Ok(schedule)
    }

    /// How many picks there are, at most 1,000,000.
    pub fn len(&self) -> u32
        ensures len { result ≡ length self.now }
        ensures few { length self.now ≤ 1000000 }
    {
        self.len
    }

    /// Whether there is no pick.
    pub fn is_empty(&self) -> bool
        ensures { result ≡ (length self.now == 0) }
    {
        self.len == 0
    }

    /// How many more picks there may be.
    pub fn room(&self) -> u32
        ensures { length self.now + result ≡ 1000000 }
    {
        MOST_PICKS - self.len
    }

    /// Puts a pick behind the others, so many times.
    pub fn push(&mut self, pick: Pick, times: u32) -> Result<(), NoMemory>
        requires { length self.old + times ≤ 1000000 }
        ensures ok { OnOk result (self.new ≡ self.old ++ replicate times pick) }
        ensures err { OnErr result (self.new ≡ self.old) }
    {
        put(&mut self.stretches, Stretch { pick, times })?;
        self.len += times;
        Ok(())
    }

    /// The picks as stretches, one behind the other.
    pub fn stretches(&self) -> &[Stretch]
        ensures picks { picks_in result.now ≡ self.now }
        ensures few { length self.now ≤ 1000000 }
    {
        self.stretches.as_slice()
    }
}

/// Puts a stretch behind others. One of the last stretch's pick makes that longer.
fn put(stretches: &mut Vec<Stretch>, stretch: Stretch) -> Result<(), NoMemory>
    requires { length (picks_in stretches.old.items) + stretch.times < 2 ^ 32 }
    ensures ok { OnOk result (picks_in stretches.new.items ≡ picks_in stretches.old.items ++ replicate stretch.times stretch.pick) }
    ensures err { OnErr result (stretches.new.items ≡ stretches.old.items) }
{
    if lengthen(stretches, stretch) {
        return Ok(());
    }
    stretches.push(stretch)?;
    Ok(())
}

/// Makes the last stretch longer, where it is of the same pick.
fn lengthen(stretches: &mut [Stretch], stretch: Stretch) -> bool
    requires { length (picks_in stretches.old) + stretch.times < 2 ^ 32 }
    ensures { MatchBool result (picks_in stretches.new ≡ picks_in stretches.old ++ replicate stretch.times stretch.pick) (stretches.new ≡ stretches.old) }
{
    let count = stretches.len();
    if count == 0 || stretches[count - 1].pick != stretch.pick {
        return false;
    }
    stretches[count - 1].times += stretch.times;
    true
}
