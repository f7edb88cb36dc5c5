//! Who watches a replay and writes a line for each event that is asked for.

ghost use Rattle.std.specs.Prelude.{◌≡◌, ◌+◌, ◌∷◌, ◌++◌, ◌<◌, ◌≤◌, ℕ, [], false, OnOk, IfOk, Some, codes, slice_get, string_bytes};
ghost use Rattle.std.specs.Fmt.{decimal};
ghost use Rattle.arrayvec.specs.ArrayString.{array_string_len};
ghost use Rattle.event_core.specs.World.{world_of};
ghost use Rattle.debug_views.specs.Trace.{asked_with, standing_text, is_of_threads, measured, outcome_in, seen_if, seen_of, trace_note};
ghost use Rattle.debug_views.specs.declared.trace_watch.TheConstants.{FULL};
ghost use Rattle.wasm_types.specs.declared.sizes.TheConstants.{MOST_THREADS};
ghost use Rattle.debug_views.specs.TraceLines.{event_line};

use crate::numbers::{Line, push_line, put_number};
use crate::places::PlaceWriter;
use crate::trace_choice::{TraceChoice, threads_of};
use crate::trace_lines::put_done;
use crate::trace_seen::{Seen, action_of, seen_of};
use event_core::World;
use integer_machine::{CodePlace, ThreadState};
use replay_gate::Watch;
use std::alloc::Global;
use std::marker::Model;
use wasm_types::{MOST_THREADS, NoMemory};
use wasm_world::SharedSpace;

/// What contracts see of what a trace is asked for.
pub struct AskedTrace {}

impl Model for AskedTrace {
    ghost use Rattle.std.specs.Prelude.{[], None, false};
    ghost use Rattle.debug_views.specs.Trace.{TraceAsked};

    ghost Value = { TraceAsked };

    ghost view = { λ _. record { places = record { source = []; offsets = false }; only = []; bytes = []; since = None } };
}

/// The most bytes that the last lines have before another is begun.
const FULL: usize = 768;

/// Writes a line for each event that is asked for, until memory is wanted for one.
#[derive(Drop)]
pub(crate) struct Tracer<'a> {
    places: &'a PlaceWriter<'a>,
    choice: TraceChoice<'a>,
    threads: [bool; MOST_THREADS],
    seen: Option<Seen>,
    text: String,
    /// The last lines, which are not pushed behind the text yet.
    line: Line,
    is_wanting: bool,
    ghost chosen: { (t : ℕ) → t < MOST_THREADS → slice_get threads t ≡ Some (is_of_threads choice.only.now t) },
}

/// Puts where a thread stands in a function, and a space, behind a line that stands behind a text.
#[inline(always)]
fn put_standing(
    text: &mut String,
    line: &mut Line,
    places: &PlaceWriter<'_>,
    standing: Option<CodePlace>,
) -> Result<(), NoMemory>
    requires { array_string_len line.old + 105 ≤ 1024 }
    ensures text { OnOk result (string_bytes text.new ++ line.new.bytes ≡ (string_bytes text.old ++ line.old.bytes) ++ standing_text places.now standing) }
    ensures short { OnOk result (array_string_len line.new ≤ array_string_len line.old + 105) }
{
    let Some(place) = standing else {
        return Ok(());
    };
    places.put(text, line, place)?;
    line.push_str(" ");
    Ok(())
}

/// Puts an event's thread and place, and a space, behind a line.
#[inline(always)]
fn put_event(line: &mut Line, thread: u32, place: u32)
    requires { array_string_len line.old + 42 ≤ 1024 }
    ensures text { line.new.bytes ≡ line.old.bytes ++ (decimal thread ++ (codes "." ++ (decimal place ++ 32 ∷ []))) }
    ensures short { array_string_len line.new ≤ array_string_len line.old + 42 }
{
    put_number(line, u64::from(thread));
    line.push_str(".");
    put_number(line, u64::from(place));
    line.push_str(" ");
}

/// Pushes lines behind a text where there is no room for another.
#[inline(always)]
fn make_room(text: &mut String, line: &mut Line) -> Result<(), NoMemory>
    ensures text { OnOk result (string_bytes text.new ++ line.new.bytes ≡ string_bytes text.old ++ line.old.bytes) }
    ensures room { OnOk result (array_string_len line.new ≤ FULL) }
{
    if line.len() > FULL {
        push_line(text, line)?;
    }
    Ok(())
}

/// Writes the line of an event.
#[inline(always)]
fn write_event(
    text: &mut String,
    line: &mut Line,
    places: &PlaceWriter<'_>,
    thread: u32,
    seen: &Seen,
    world: &World<ThreadState<'_>, SharedSpace>,
) -> Result<(), NoMemory>
    ensures { OnOk result (string_bytes text.new ++ line.new.bytes ≡ (string_bytes text.old ++ line.old.bytes) ++ event_line thread seen.now.place (standing_text places.now seen.now.standing) seen.now.action seen.now.found (measured seen.now.action (world_of world.now)) (outcome_in (world_of world.now) thread)) }
{
    make_room(text, line)?;
    put_event(line, thread, seen.place);
    put_standing(text, line, places, seen.standing)?;
    put_done(text, line, seen, world, thread)
}

impl<'a> Tracer<'a> {
    /// A tracer that wrote nothing so far.
    pub(crate) fn new(
        alloc: Global,
        places: &'a PlaceWriter<'a>,
        choice: TraceChoice<'a>,
    ) -> Tracer<'a>
        ensures places { result.places.now ≡ places.now }
        ensures choice { result.choice ≡ choice.entry }
        ensures text { string_bytes result.text ++ result.line.bytes ≡ [] }
        ensures fine { result.is_wanting ≡ false }
    {
        Tracer {
            places,
            threads: threads_of(choice.only),
            choice,
            seen: None,
            text: String::new(alloc),
            line: Line::new(),
            is_wanting: false,
        }
    }

    /// What is seen of a thread whose event comes next, where it may have a line.
    fn seen_of(&self, world: &World<ThreadState<'_>, SharedSpace>, thread: u32) -> Option<Seen>
        ensures { result ≡ seen_if self.now.choice.only.now self.now.choice.bytes.now thread (seen_of (world_of world.now) thread) }
    {
        let at = thread as usize;
        if at >= world.count() || !self.threads[at] {
            return None;
        }
        let action = action_of(world, thread)?;
        if !self.choice.has_action(&action) {
            return None;
        }
        seen_of(world, thread, action)
    }

    /// What it wrote, or that memory was wanted.
    pub(crate) fn into_text(self) -> Result<String, NoMemory>
        ensures { IfOk result (λ text. (self.entry.is_wanting ≡ false) × (string_bytes text ≡ string_bytes self.entry.text ++ self.entry.line.bytes)) }
    {
        let Tracer {
            mut text,
            line,
            is_wanting,
            ..
        } = self;
        if is_wanting {
            return Err(NoMemory);
        }
        text.push_str(line.as_str())?;
        Ok(text)
    }
}

impl<'a, 'b> Watch<ThreadState<'b>, SharedSpace> for Tracer<'a> {
    type Asked = AskedTrace;

    ghost asked = { λ t. asked_with t.places.now t.choice };

    ghost note = { trace_note };

    ghost notes = { λ t. string_bytes t.text ++ t.line.bytes };

    ghost whole = { λ t. t.is_wanting ≡ false };

    ghost looked = { λ t w thread. t.seen ≡ seen_if t.choice.only.now t.choice.bytes.now thread (seen_of w thread) };

    fn look(&mut self, world: &World<ThreadState<'b>, SharedSpace>, thread: u32) {
        self.seen = self.seen_of(world, thread);
    }

    fn take_note(&mut self, world: &World<ThreadState<'b>, SharedSpace>, thread: u32) {
        let Some(seen) = &self.seen else {
            return;
        };
        if self.choice.has_begun(world) {
            let (text, line) = (&mut self.text, &mut self.line);
            if let Err(_) = write_event(text, line, self.places, thread, seen, world) {
                self.is_wanting = true;
            }
        }
    }
}
