//! The log of a thread that is replayed.

ghost use Rattle.std.specs.Prelude.{◌≡◌, ◌<◌, Some, OnOk, OnErr};
ghost use Rattle.event_core.specs.World.{world_of};
ghost use Rattle.log_pieces.specs.declared.flat.Flat.TheVariants.{Known};
ghost use Rattle.replay_gate.specs.Leads.{Leads};

use crate::event::{event_of, input_for};
use crate::read_log::ReadLog;
use event_core::{Pick, World};
use log_pieces::{End, Flat};
use rw_objects::{Entry, EntryLog, Machine, ObjectSpace, Versioned};
use std::alloc::Global;
use std::marker::Model;
use wasm_types::NoMemory;

/// A log with its reader, at the place of a thread that comes next. As a log of entries it takes just the entry that is
/// claimed there, so that a thread that is run with it makes the accesses that are logged. Contracts see the log, the
/// thread, its place, and how many places its known end has.
#[derive(Drop)]
pub(crate) struct Following<'a, L: ReadLog> {
    log: &'a L,
    reader: L::Reader,
    thread: u32,
    place: u32,
    places: u32,
}

impl<'a, L: ReadLog> Model for Following<'a, L> {
    ghost use Rattle.std.specs.Prelude.{◌<◌};
    ghost use Rattle.replay_gate.specs.Following.{LogPlace};

    ghost Value = { LogPlace L };

    ghost view = { λ f. record { log = f.log.now; thread = f.thread; place = f.place; places = f.places } };

    ghost invariant = { λ f. L.reads f.log.now f.reader × (f.thread < 16) };
}

impl<'a, L: ReadLog> Following<'a, L> {
    /// A log at no thread's place yet.
    pub(crate) fn new(log: &'a L) -> Following<'a, L>
        ensures { result.log ≡ log.now }
    {
        Following {
            log,
            reader: log.reader(),
            thread: 0,
            place: 0,
            places: 0,
        }
    }

    /// The end of a thread, if one is claimed.
    pub(crate) fn end(&self, thread: u32) -> Option<Flat<End>>
        ensures { result ≡ (L.log self.now.log).end thread }
    {
        self.log.end(thread)
    }

    /// Goes to a place of a thread, whose known end has so many places.
    pub(crate) fn go_to(&mut self, thread: u32, place: u32, places: u32)
        requires { thread < 16 }
        ensures { self.new ≡ record { log = self.old.log; thread = thread; place = place; places = places } }
    {
        self.thread = thread;
        self.place = place;
        self.places = places;
    }

    /// Makes the event that the log has next for a thread, before the thread's logged end, where the log lets it pass,
    /// and answers whether it did. The reader goes forward to its item, and holds it where the event is not let pass
    /// yet.
    pub(crate) fn pass_event<M: Machine<S>, S: ObjectSpace>(
        &mut self,
        alloc: Global,
        world: &mut World<M, S>,
        thread: u32,
        end: End,
    ) -> Result<bool, NoMemory>
        requires { (L.log self.old.log).end thread ≡ Some (Known end) }
        ensures same { self.new ≡ self.old }
        ensures passes { OnOk result (Leads S.meaning M.code (L.log self.old.log) (world_of world.old) (world_of world.new)) }
        ensures err { OnErr result (world_of world.new ≡ world_of world.old) }
    {
        let Some(steps) = world.steps(thread) else {
            return Ok(false);
        };
        let Some(place) = world.places(thread) else {
            return Ok(false);
        };
        if steps >= end.steps || place >= end.places {
            return Ok(false);
        }
        self.log.read(&mut self.reader, thread, place);
        let Some(Flat::Known(item)) = L::held(&self.reader, thread) else {
            return Ok(false);
        };
        let input = input_for(item.kind);
        let pick = Pick { thread, input };
        match event_of(alloc, world, pick, item) {
            None => Ok(false),
            Some(op) => match world.event(pick, op) {
                Ok(_) => Ok(true),
                Err(error) => Err(error),
            },
        }
    }
}

impl<'a, L: ReadLog> EntryLog for Following<'a, L> {
    ghost use Rattle.replay_gate.specs.Following.{follow};

    type Seen = Following<'a, L>;

    ghost seen = { λ following. following };

    ghost add = { λ at entry. follow L.log at entry };

    ghost has_room = { λ following. Unit {0} };

    fn room(&mut self) -> Result<(), NoMemory> {
        Ok(())
    }

    fn takes<S: ObjectSpace>(&mut self, memory: &Versioned<S>, op: &S::Op) -> bool {
        if self.place >= self.places {
            return false;
        }
        self.log.read(&mut self.reader, self.thread, self.place);
        match L::held(&self.reader, self.thread) {
            None => false,
            Some(Flat::Clash) => false,
            Some(Flat::Known(item)) => memory.logs(op, item),
        }
    }

    fn push(&mut self, entry: &Entry) {
        self.place += 1;
    }
}
