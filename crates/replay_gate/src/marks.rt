//! What the next event of a thread may write.

ghost use Rattle.std.specs.Prelude.{◌≡◌, ◌≤◌, ◌||◌, [], length, map, Some, option_copied};
ghost use Rattle.rw_objects.specs.declared.entry.Entry.{Entry};
ghost use Rattle.log_pieces.specs.declared.flat.Flat.TheVariants.{Known};
ghost use Rattle.rw_objects.specs.Counts.{count_at};
ghost use Rattle.event_core.specs.World.{world_of, step_of_pick};
ghost use Rattle.replay_gate.specs.Marks.{mark_of_found, marks_of_step, is_any_rewritten, AreMarks};

use crate::breaks::ObjectRange;
use event_core::{Input, Pick, PickStep, World};
use log_pieces::Flat;
use rw_objects::{Entry, Few, Found, Machine, Next, ObjectSpace, Versions};
use std::alloc::Global;

/// An object, and its version.
#[derive(Clone, Copy, Debug, PartialEq, Eq, Default)]
pub struct Mark {
    pub object: u32,
    pub version: u64,
}

/// The objects that a thread touches if it goes on, and if it times out, with their versions before.
#[derive(Debug, Drop)]
pub struct Marks {
    pub goes: Few<Mark>,
    pub times_out: Few<Mark>,
}

/// The object that was found, and its version.
#[inline(always)]
fn mark_of_found(found: Found) -> Mark
    ensures { result ≡ mark_of_found found }
{
    match found {
        Found::Read { object, version } => Mark { object, version },
        Found::Write {
            object,
            version,
            reads: _,
        } => Mark { object, version },
    }
}

/// The objects that a pick touches, with their versions.
fn marks_of_pick<M: Machine<S>, S: ObjectSpace>(
    alloc: Global,
    world: &World<M, S>,
    pick: Pick,
) -> Few<Mark>
    ensures { result ≡ marks_of_step S.meaning (world_of world.now).memory.counts (step_of_pick S.meaning M.code (world_of world.now) pick) }
{
    let mut marks = Few::new(alloc);
    if let PickStep::Event(op) = world.step_of(pick) {
        let touches = S::touches(alloc, &op);
        for touch in touches.as_slice() {
            let object = touch.object;
            let version = world.versions().at(object).version;
            marks.push(Mark { object, version });
        }
    }
    marks
}

/// The objects that a thread's next event may touch, with their versions; none where its next step is local.
pub(crate) fn marks_of<M: Machine<S>, S: ObjectSpace>(
    alloc: Global,
    world: &World<M, S>,
    thread: u32,
) -> Marks
    ensures { AreMarks S.meaning M.code (world_of world.now) thread result }
{
    if let Some(Next::Local) = world.next(thread) {
        let goes = Few::new(alloc);
        let times_out = Few::new(alloc);
        return Marks { goes, times_out };
    }
    let goes = marks_of_pick(
        alloc,
        world,
        Pick {
            thread,
            input: Input::Go,
        },
    );
    let times_out = marks_of_pick(
        alloc,
        world,
        Pick {
            thread,
            input: Input::TimeOut,
        },
    );
    Marks { goes, times_out }
}

/// The objects that were found, with their versions.
fn marks_of_found(alloc: Global, all: &[Found]) -> Few<Mark>
    requires { length all.now ≤ 3 }
    ensures { result ≡ map mark_of_found all.now }
{
    let mut marks = Few::new(alloc);
    for found in all {
        marks.push(mark_of_found(*found));
    }
    marks
}

/// The objects of an entry, with the versions that it found; none of a time-out, and none of an item that is no entry.
pub(crate) fn marks_of_item(alloc: Global, item: Option<&Flat<Entry>>) -> Marks
    ensures goes { (e : Entry) → option_copied item.entry ≡ Some (Known e) → result.goes ≡ map mark_of_found e.found }
    ensures times_out { result.times_out ≡ [] }
{
    let goes = match item {
        Some(Flat::Known(entry)) => marks_of_found(alloc, entry.found.as_slice()),
        _ => Few::new(alloc),
    };
    let times_out = Few::new(alloc);
    Marks { goes, times_out }
}

/// Whether a marked object of the range has another version.
fn is_any_rewritten(marks: &[Mark], versions: &Versions, objects: &ObjectRange) -> bool
    ensures { result ≡ is_any_rewritten objects.now (count_at versions.now) marks.now }
{
    match marks {
        [] => false,
        [mark, rest @ ..] => {
            (objects.has(mark.object) && versions.at(mark.object).version != mark.version)
                || is_any_rewritten(rest, versions, objects)
        }
    }
}

impl Marks {
    /// Whether a marked object of the range has another version.
    pub(crate) fn are_rewritten(&self, versions: &Versions, objects: &ObjectRange) -> bool
        ensures { result ≡ (is_any_rewritten objects.now (count_at versions.now) self.now.goes || is_any_rewritten objects.now (count_at versions.now) self.now.times_out) }
    {
        is_any_rewritten(self.goes.as_slice(), versions, objects)
            || is_any_rewritten(self.times_out.as_slice(), versions, objects)
    }
}
