//! Which accesses are drawn.

ghost use Rattle.std.specs.Prelude.{◌≡◌, IfOk};
ghost use Rattle.replica.specs.ObjectLines.{chart_asked, rows_before, first_drawn, last_drawn, is_asked, is_between};

use crate::EventAt;
use crate::choice::{Choice, ChosenObjects};
use crate::passage::EntryRow;
use std::alloc::{AllocError, Global};

/// What is drawn of a log.
#[derive(Clone, Copy, Debug)]
pub struct ChartChoice<'a> {
    /// Accesses alone that touch one of these objects; all where none is named.
    pub only: &'a [u32],
    /// From the row of this event on; nothing is drawn where it has no row.
    pub from: Option<EventAt>,
    /// Up to the row of this event; all where it has no row.
    pub to: Option<EventAt>,
}

/// The rows that are drawn: from one index up to another, those that touch an object that is asked for.
#[derive(Drop)]
pub(crate) struct DrawnRows<'a> {
    pub(crate) objects: ChosenObjects<'a>,
    pub(crate) first: usize,
    pub(crate) last: usize,
}

/// How many rows stand in front of the row of an event: all, where it has none.
fn rows_before(rows: &[EntryRow], at: EventAt) -> usize
    ensures { result ≡ rows_before rows.now at }
{
    rows.iter().take_while(|row| !row.is_of(at)).count()
}

/// The index from which on rows are drawn.
fn first_drawn(rows: &[EntryRow], from: Option<EventAt>) -> usize
    ensures { result ≡ first_drawn rows.now from }
{
    match from {
        Some(at) => rows_before(rows, at),
        None => 0,
    }
}

/// The index up to which rows are drawn.
fn last_drawn(rows: &[EntryRow], to: Option<EventAt>) -> usize
    ensures { result ≡ last_drawn rows.now to }
{
    match to {
        Some(at) => rows_before(rows, at),
        None => rows.len(),
    }
}

impl<'a> DrawnRows<'a> {
    /// The rows of a choice.
    pub(crate) fn of(
        alloc: Global,
        choice: ChartChoice<'a>,
        rows: &[EntryRow],
    ) -> Result<DrawnRows<'a>, AllocError>
        ensures first { IfOk result (λ drawn. drawn.first ≡ first_drawn rows.now choice.entry.from) }
        ensures last { IfOk result (λ drawn. drawn.last ≡ last_drawn rows.now choice.entry.to) }
        ensures only { IfOk result (λ drawn. drawn.objects.only ≡ choice.entry.only.now) }
    {
        let objects = Choice {
            only: choice.only,
            shared: false,
        };
        Ok(DrawnRows {
            objects: ChosenObjects::of(alloc, objects)?,
            first: first_drawn(rows, choice.from),
            last: last_drawn(rows, choice.to),
        })
    }

    /// Whether an access touches an object that is asked for.
    fn is_asked(&self, row: &EntryRow) -> bool
        ensures { result ≡ is_asked self.now.objects.only row.now }
    {
        if self.objects.is_unnamed() {
            return true;
        }
        for found in row.entry.found.as_slice() {
            if self.objects.is_named(found.object()) {
                return true;
            }
        }
        false
    }

    /// Whether the row is drawn that has an index.
    pub(crate) fn is_drawn(&self, index: usize, row: &EntryRow) -> bool
        ensures { result ≡ is_between self.now.first self.now.last self.now.objects.only index row.now }
    {
        self.first <= index && (index <= self.last && self.is_asked(row))
    }
}
