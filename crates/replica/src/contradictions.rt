//! The contradictions of a log, as text.

ghost use Rattle.std.specs.Prelude.{◌≡◌, ◌+◌, ◌≤◌, ◌++◌, length, IfOk};
ghost use Rattle.replica.specs.Contradictions.{event_text, clash_text, double_text, contradiction_line, told_by};

use crate::diverging::{Diverging, EventAt};
use crate::finding::divergence;
use crate::form::ListingForm;
use crate::log::Log;
use crate::room::Room;
use std::alloc::Global;
use wasm_types::NoMemory;

/// The contradictions that a listing tells in that form.
pub(crate) fn told_by(
    alloc: Global,
    form: ListingForm,
    log: &Log,
) -> Result<Vec<Diverging>, NoMemory>
    ensures { IfOk result (λ told. told.items ≡ told_by form log.now) }
{
    if form.contradictions {
        divergence(alloc, log)
    } else {
        Ok(Vec::new(alloc))
    }
}

/// Puts where an event stands behind other bytes.
fn put_event(room: &mut Room, at: EventAt)
    requires { length room.old + 41 ≤ 66560 }
    ensures text { room.new ≡ room.old ++ event_text at }
    ensures short { length room.new ≤ length room.old + 41 }
{
    room.put_number(u64::from(at.thread));
    room.put(b".");
    room.put_number(u64::from(at.place));
}

/// Puts which item of a thread clashes behind other bytes: the entry at a place, or with no place the end.
fn put_clash(room: &mut Room, thread: u32, place: Option<u32>)
    requires { length room.old + 50 ≤ 66560 }
    ensures text { room.new ≡ room.old ++ clash_text thread place }
    ensures short { length room.new ≤ length room.old + 50 }
{
    room.put(b"clash ");
    match place {
        Some(place) => put_event(room, EventAt { thread, place }),
        None => {
            room.put_number(u64::from(thread));
            room.put(b" end");
        }
    }
}

/// Puts which write of a version of an object two events claim behind other bytes.
fn put_double(room: &mut Room, object: u32, version: u64, first: EventAt, second: EventAt)
    requires { length room.old + 133 ≤ 66560 }
    ensures text { room.new ≡ room.old ++ double_text object version first second }
    ensures short { length room.new ≤ length room.old + 133 }
{
    room.put(b"double w");
    room.put_number(u64::from(object));
    room.put(b"@");
    room.put_number(version);
    room.put(b" ");
    put_event(room, first);
    room.put(b" ");
    put_event(room, second);
}

/// Puts the line of a contradiction behind the others.
pub(crate) fn put_contradiction(room: &mut Room, contradiction: &Diverging)
    requires { length room.old ≤ 65536 }
    ensures text { room.new ≡ room.old ++ contradiction_line contradiction.now }
    ensures short { length room.new ≤ 66560 }
{
    match *contradiction {
        Diverging::Clash { thread, place } => put_clash(room, thread, place),
        Diverging::DoubleWrite {
            object,
            version,
            first,
            second,
        } => put_double(room, object, version, first, second),
    }
    room.put(b"\n");
}
