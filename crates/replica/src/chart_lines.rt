//! The lines that are drawn.

ghost use Rattle.std.specs.Prelude.{◌≡◌, ◌<◌, ◌++◌, ◌∷◌, [], List, Option, Some, None, length, map, if◌then◌else◌, IfOk, OnOk};
ghost use Rattle.replica.specs.ObjectLines.{Seen, chart_asked, mark_of, touches_of, seen_with, line_of, lines_of};
ghost use Rattle.replica.specs.Met.{HasMet};

use crate::chart_choice::{ChartChoice, DrawnRows};
use crate::passage::EntryRow;
use crate::threads::ThreadNumber;
use crate::touch::ObjectTouch;
use crate::versions_met::{Mark, VersionsMet};
use std::alloc::{AllocError, Global};
use std::marker::Model;

/// An access, as it is drawn.
#[derive(Debug, Drop)]
pub(crate) struct Line {
    thread: ThreadNumber,
    place: u32,
    marks: Vec<Mark>,
}

impl Model for Line {
    ghost use Rattle.replica.specs.ObjectLines.{LineValue};

    ghost Value = { LineValue };

    ghost view = { λ l. record { thread = l.thread; place = l.place; marks = l.marks.items } };
}

impl Line {
    /// The thread of the access.
    pub(crate) fn thread(&self) -> u32
        ensures value { result ≡ self.now.thread }
        ensures few { self.now.thread < 16 }
    {
        self.thread.number()
    }

    /// Its place.
    pub(crate) fn place(&self) -> u32
        ensures { result ≡ self.now.place }
    {
        self.place
    }

    /// Its touches.
    pub(crate) fn marks(&self) -> &[Mark]
        ensures { result.now ≡ self.now.marks }
    {
        self.marks.as_slice()
    }
}

/// How the touches of the row are drawn that comes next.
fn marks_of(alloc: Global, met: &VersionsMet, row: &EntryRow) -> Result<Vec<Mark>, AllocError>
    ensures { IfOk result (λ marks. (seen : List Seen) → HasMet met.now seen → marks.items ≡ map (mark_of seen) (touches_of row.now)) }
{
    let mut marks = Vec::new(alloc);
    for found in row.entry.found.as_slice() {
        marks.push(met.mark(ObjectTouch::of(*found, row.thread, row.place)))?;
    }
    Ok(marks)
}

/// The line of the row that comes next.
fn line_of(alloc: Global, met: &VersionsMet, row: &EntryRow) -> Result<Line, AllocError>
    ensures { IfOk result (λ line. (seen : List Seen) → HasMet met.now seen → line ≡ line_of seen row.now) }
{
    Ok(Line {
        thread: row.thread,
        place: row.place,
        marks: marks_of(alloc, met, row)?,
    })
}

/// Adds the touches of a row to what is known of versions.
fn add_row(met: &mut VersionsMet, row: &EntryRow, line: Option<usize>) -> Result<(), AllocError>
    ensures { OnOk result ((seen : List Seen) → HasMet met.old seen → HasMet met.new (seen_with line (touches_of row.now) seen)) }
{
    for found in row.entry.found.as_slice() {
        met.add(ObjectTouch::of(*found, row.thread, row.place), line)?;
    }
    Ok(())
}

/// Adds the line of a row, and its touches to what is known of versions.
fn add_line(
    alloc: Global,
    lines: &mut Vec<Line>,
    met: &mut VersionsMet,
    row: &EntryRow,
) -> Result<(), AllocError>
    ensures lines { OnOk result ((seen : List Seen) → HasMet met.old seen → lines.new.items ≡ lines.old.items ++ line_of seen row.now ∷ []) }
    ensures met { OnOk result ((seen : List Seen) → HasMet met.old seen → HasMet met.new (seen_with (Some (length lines.old.items)) (touches_of row.now) seen)) }
{
    let number = lines.len();
    lines.push(line_of(alloc, met, row)?)?;
    add_row(met, row, Some(number))
}

/// Adds the touches of a row to what is known of versions, and its line, if it is drawn.
fn add_if_drawn(
    alloc: Global,
    lines: &mut Vec<Line>,
    met: &mut VersionsMet,
    row: &EntryRow,
    is_drawn: bool,
) -> Result<(), AllocError>
    ensures lines { OnOk result ((seen : List Seen) → HasMet met.old seen → lines.new.items ≡ (if is_drawn then lines.old.items ++ line_of seen row.now ∷ [] else lines.old.items)) }
    ensures met { OnOk result ((seen : List Seen) → HasMet met.old seen → HasMet met.new (seen_with (if is_drawn then Some (length lines.old.items) else None) (touches_of row.now) seen)) }
{
    if is_drawn {
        add_line(alloc, lines, met, row)
    } else {
        add_row(met, row, None)
    }
}

/// The lines of the rows that are drawn.
pub(crate) fn lines_of(
    alloc: Global,
    choice: ChartChoice<'_>,
    rows: &[EntryRow],
) -> Result<Vec<Line>, AllocError>
    ensures { IfOk result (λ lines. lines.items ≡ lines_of (chart_asked choice.entry) rows.now) }
{
    let drawn = DrawnRows::of(alloc, choice, rows)?;
    let mut met = VersionsMet::new(alloc);
    let mut lines = Vec::new(alloc);
    let mut index = 0;
    for row in rows {
        let is_drawn = drawn.is_drawn(index, row);
        add_if_drawn(alloc, &mut lines, &mut met, row, is_drawn)?;
        index += 1;
    }
    Ok(lines)
}
