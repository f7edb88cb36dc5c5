//! Who wrote a version of an object, and who read it.

ghost use Rattle.std.specs.Prelude.{◌≡◌, ◌++◌, ◌+◌, ◌^◌, ◌<◌, ◌≤◌, IfOk, OnOk, option_copied, string_bytes};
ghost use Rattle.std.specs.List.{list_any};
ghost use Rattle.event_core.specs.World.{world_of};
ghost use Rattle.debugger.specs.Touched.{is_writer, is_reader, is_sought, is_sought_entry, is_sought_item, event_if, events_from, events_of, first_of, count_of, or_nobody, role_words, sought_line};

use event_core::World;
use log_pieces::{End, Flat};
use replay_gate::ReadLog;
use rw_objects::{Entry, Found, Machine, ObjectSpace};
use std::alloc::Global;
use std::fmt::Write;
use wasm_types::NoMemory;

/// What an event did with a version.
#[derive(Clone, Copy, Debug, PartialEq, Eq)]
pub enum Role {
    /// It made it, by a write over the version before.
    Writer,
    /// It read it.
    Reader,
}

impl Role {
    fn is_writer(self) -> bool
        ensures { result ≡ is_writer self }
    {
        match self {
            Role::Writer => true,
            Role::Reader => false,
        }
    }

    fn is_reader(self) -> bool
        ensures { result ≡ is_reader self }
    {
        match self {
            Role::Writer => false,
            Role::Reader => true,
        }
    }

    fn words(self) -> &'static str
        ensures { result.now ≡ role_words self }
    {
        match self {
            Role::Writer => " written by",
            Role::Reader => " read by",
        }
    }
}

/// Which events of the threads are looked through.
#[derive(Clone, Copy, Debug, PartialEq, Eq)]
pub enum Events {
    /// Those that they have made.
    Made,
    /// Those that they have still to make. Of a thread whose end is not known none is.
    Ahead,
}

impl Events {
    /// The first of a thread that has made so many.
    fn first(self, places: u32) -> u32
        ensures first { result ≡ first_of self places }
        ensures few { result ≤ places }
    {
        match self {
            Events::Made => 0,
            Events::Ahead => places,
        }
    }

    /// How many there are of a thread that has made so many, whose end this is.
    fn count(self, end: Option<Flat<End>>, places: u32) -> u32
        ensures count { result ≡ count_of self end places }
        ensures few { first_of self places + result < 2 ^ 32 }
    {
        match (self, end) {
            (Events::Made, _) => places,
            (Events::Ahead, Some(Flat::Known(end))) => end.places.saturating_sub(places),
            (Events::Ahead, Some(Flat::Clash) | None) => 0,
        }
    }
}

/// A version of an object, and what the events did with it that are sought.
#[derive(Clone, Copy, Debug)]
pub struct Sought {
    pub role: Role,
    pub object: u32,
    pub version: u64,
}

impl Sought {
    /// Whether an event did so by this touch.
    fn is_touch(&self, found: &Found) -> bool
        ensures { result ≡ is_sought self.now found.now }
    {
        match *found {
            Found::Read { object, version } => {
                self.role.is_reader() && (object == self.object && version == self.version)
            }
            Found::Write {
                object,
                version,
                ..
            } => {
                let made = u128::from(version) + 1;
                self.role.is_writer() && (object == self.object && made == u128::from(self.version))
            }
        }
    }

    /// Whether an event did so by one of these touches.
    fn is_any(&self, all: &[Found]) -> bool
        ensures { result ≡ list_any (is_sought self.now) all.now }
    {
        all.iter().any(|found| self.is_touch(found))
    }

    /// Whether the event of an entry did so.
    fn is_entry(&self, item: &Flat<Entry>) -> bool
        ensures { result ≡ is_sought_entry self.now item.now }
    {
        match item {
            Flat::Known(entry) => self.is_any(entry.found.as_slice()),
            Flat::Clash => false,
        }
    }

    /// Whether the event of an item did so.
    pub(crate) fn is_item(&self, item: Option<&Flat<Entry>>) -> bool
        ensures { result ≡ is_sought_item self.now (option_copied item.entry) }
    {
        match item {
            Some(item) => self.is_entry(item),
            None => false,
        }
    }
}

/// Writes where an event stands that did so.
pub(crate) fn write_if(
    text: &mut String,
    did: bool,
    thread: u32,
    place: u32,
) -> Result<(), NoMemory>
    ensures { OnOk result (string_bytes text.new ≡ string_bytes text.old ++ event_if did thread place) }
{
    if did {
        write!(text, " {thread}.{place}")?;
    }
    Ok(())
}

/// Writes which of so many of a thread's events did so, from the first on. The reader goes forward through the log.
fn write_events<L: ReadLog>(
    text: &mut String,
    log: &L,
    reader: &mut L::Reader,
    sought: Sought,
    thread: u32,
    first: u32,
    count: u32,
) -> Result<(), NoMemory>
    requires reads { L.reads log.now reader.old }
    requires few { thread < 16 }
    requires end { first + count < 2 ^ 32 }
    ensures written { OnOk result (string_bytes text.new ≡ string_bytes text.old ++ events_from (L.log log.now) sought thread first count) }
    ensures reads { OnOk result (L.reads log.now reader.new) }
{
    for index in 0..count {
        log.read(reader, thread, first + index);
        let did = sought.is_item(L::held(reader, thread));
        write_if(text, did, thread, first + index)?;
    }
    Ok(())
}

/// Which of the threads' events did so.
fn events_of<M: Machine<S>, S: ObjectSpace, L: ReadLog>(
    alloc: Global,
    world: &World<M, S>,
    log: &L,
    sought: Sought,
    events: Events,
) -> Result<String, NoMemory>
    ensures { IfOk result (λ text. string_bytes text ≡ events_of (L.log log.now) sought events 0 (world_of world.now).threads) }
{
    let mut text = String::new(alloc);
    let mut reader = log.reader();
    for number in 0..world.count() {
        let thread = number as u32;
        let Some(places) = world.places(thread) else {
            unreachable!()
        };
        let first = events.first(places);
        let count = events.count(log.end(thread), places);
        write_events(&mut text, log, &mut reader, sought, thread, first, count)?;
    }
    Ok(text)
}

/// The events, or that there is none.
fn or_nobody(events: &str) -> &str
    ensures { result.now ≡ or_nobody events.now }
{
    if events.is_empty() { " nobody" } else { events }
}

/// The line that says who writes a version of an object, or who reads it: these events.
pub(crate) fn line_of(alloc: Global, sought: Sought, events: &str) -> Result<String, NoMemory>
    ensures { IfOk result (λ text. string_bytes text ≡ sought_line sought events.now) }
{
    let object = sought.object;
    let version = sought.version;
    let words = sought.role.words();
    let names = or_nobody(events);
    Ok(format!(in alloc; "object {object} version {version}{words}{names}\n")?)
}

/// The line that says who writes a version of an object, or who reads it, of these events.
pub(crate) fn sought_text<M: Machine<S>, S: ObjectSpace, L: ReadLog>(
    alloc: Global,
    world: &World<M, S>,
    log: &L,
    sought: Sought,
    events: Events,
) -> Result<String, NoMemory>
    ensures { IfOk result (λ text. string_bytes text ≡ sought_line sought (events_of (L.log log.now) sought events 0 (world_of world.now).threads)) }
{
    let events = events_of(alloc, world, log, sought, events)?;
    line_of(alloc, sought, events.as_str())
}
