//! The known entries of a log, in an order that the versions which they met allow.

ghost use Rattle.std.specs.Prelude.{◌≡◌, ◌<◌, ◌^◌, ◌++◌, [], ◌∷◌, None, length, IfOk, OnOk, IfSome};
ghost use Rattle.replica.specs.Passage.{Passes, IsPassage, IsStuck, IsFull, places_behind};
ghost use Rattle.replica.specs.ObjectLines.{is_row_of};
ghost use Rattle.replica.specs.Kept.{IsNextEntry, HasNoNextEntry, Keeps, IsLonger};

use crate::object_counts::ObjectCounts;
use crate::threads::ThreadNumber;
use crate::{EventAt, Log};
use log_pieces::Flat;
use rw_objects::Entry;
use std::alloc::{AllocError, Global};
use wasm_types::MOST_THREADS;

/// A known entry, and where it stands.
#[derive(Debug, Drop)]
pub(crate) struct EntryRow {
    pub(crate) thread: ThreadNumber,
    pub(crate) place: u32,
    pub(crate) entry: Entry,
}

impl EntryRow {
    /// Whether it is the row of an event.
    pub(crate) fn is_of(&self, at: EventAt) -> bool
        ensures { result ≡ is_row_of at self.now }
    {
        self.thread.number() == at.thread && self.place == at.place
    }
}

/// Rows, each of which was let pass behind those in front of it, and what they leave.
#[derive(Drop)]
struct Passage {
    rows: Vec<EntryRow>,
    counts: ObjectCounts,
    /// The next place of each thread.
    places: [u64; MOST_THREADS],
}

impl Passage {
    /// No rows.
    fn new(alloc: Global) -> Passage
        ensures rows { result.rows.items ≡ [] }
        ensures keeps { Keeps result }
    {
        Passage {
            rows: Vec::new(alloc),
            counts: ObjectCounts::new(alloc),
            places: [0; MOST_THREADS],
        }
    }

    /// The known entry at a thread's next place.
    fn next_entry(&self, log: &Log, thread: ThreadNumber) -> Option<EntryRow>
        ensures some { IfSome result (λ row. IsNextEntry log.now self.now.places thread row) }
        ensures none { result ≡ None → HasNoNextEntry log.now self.now.places thread }
    {
        let Ok(place) = u32::try_from(self.places[thread.number() as usize]) else {
            return None;
        };
        match log.entry(thread.number(), place) {
            Some(Flat::Known(entry)) => Some(EntryRow {
                thread,
                place,
                entry,
            }),
            Some(Flat::Clash) => None,
            None => None,
        }
    }

    /// The row with which a thread goes on.
    fn next(&self, log: &Log, thread: ThreadNumber) -> Option<EntryRow>
        requires { Keeps self.now }
        ensures some { IfSome result (λ row. Passes log.now self.now.rows.items row) }
        ensures none { result ≡ None → IsStuck log.now self.now.rows.items thread }
    {
        match self.next_entry(log, thread) {
            Some(row) => {
                if self.counts.lets_pass(&row.entry) {
                    Some(row)
                } else {
                    None
                }
            }
            None => None,
        }
    }

    /// Puts a row behind the others.
    fn add(&mut self, row: EntryRow) -> Result<(), AllocError>
        requires keeps { Keeps self.old }
        requires next { row.place ≡ places_behind self.old.rows.items row.thread }
        ensures rows { OnOk result (self.new.rows.items ≡ self.old.rows.items ++ row ∷ []) }
        ensures keeps { OnOk result (Keeps self.new) }
        ensures few { OnOk result (length self.old.rows.items < 2 ^ 64) }
    {
        // A fact for the prover: there are fewer rows than 2 ^ 64.
        let _count = self.rows.as_slice().len();
        self.counts.add_entry(&row.entry)?;
        self.places[row.thread.number() as usize] = u64::from(row.place) + 1;
        self.rows.push(row)?;
        Ok(())
    }

    /// A thread goes on until its gate is shut.
    fn go_on(&mut self, log: &Log, thread: ThreadNumber) -> Result<(), AllocError>
        requires { Keeps self.old }
        ensures longer { OnOk result (IsLonger log.now self.old self.new) }
        ensures stuck { OnOk result (IsStuck log.now self.new.rows.items thread) }
    {
        while let Some(row) = self.next(log, thread) {
            self.add(row)?;
        }
        Ok(())
    }

    /// Each thread goes on until its gate is shut.
    fn go_round(&mut self, log: &Log) -> Result<(), AllocError>
        requires { Keeps self.old }
        ensures longer { OnOk result (IsLonger log.now self.old self.new) }
        ensures full { OnOk result (length self.new.rows.items ≡ length self.old.rows.items → IsFull log.now self.new.rows.items) }
    {
        for number in 0..MOST_THREADS as u32 {
            self.go_on(log, ThreadNumber::new(number))?;
        }
        Ok(())
    }
}

/// The known entries of a log that are let pass one behind the other, until none is.
pub(crate) fn passage_of(alloc: Global, log: &Log) -> Result<Vec<EntryRow>, AllocError>
    ensures passage { IfOk result (λ rows. IsPassage log.now [] rows.items) }
    ensures full { IfOk result (λ rows. IsFull log.now rows.items) }
{
    let mut passage = Passage::new(alloc);
    loop {
        let placed = passage.rows.len();
        passage.go_round(log)?;
        if passage.rows.len() == placed {
            return Ok(passage.rows);
        }
    }
}
