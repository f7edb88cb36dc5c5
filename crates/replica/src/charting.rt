//! The chart of a log.

ghost use Rattle.std.specs.Prelude.{◌≡◌, ◌++◌, List, IfOk, OnOk};
ghost use Rattle.std.specs.List.{flat_map};
ghost use Rattle.std.specs.String.{string_bytes};
ghost use Rattle.log_pieces.specs.Piece.{PieceValue};
ghost use Rattle.replica.specs.Log.{items_at};
ghost use Rattle.replica.specs.Judged.{IsFound};
ghost use Rattle.replica.specs.ObjectLines.{chart_asked};
ghost use Rattle.replica.specs.Chart.{known_of_item, known_events, IsLogChart, IsChart};

use crate::chart_choice::ChartChoice;
use crate::chart_lines::lines_of;
use crate::drawing::drawing;
use crate::passage::passage_of;
use crate::threads::ThreadNumber;
use crate::{EventAt, Log, Replica};
use log_pieces::Flat;
use std::alloc::{AllocError, Global};
use wasm_types::{MOST_THREADS, NoMemory};

/// The picture where no piece came.
const NO_PIECES: &str =
    "<svg xmlns=\"http://www.w3.org/2000/svg\" font-family=\"monospace\" font-size=\"12\" width=\"120\" height=\"40\">\n<rect width=\"100%\" height=\"100%\" fill=\"white\"/>\n<text x=\"20\" y=\"24\">no pieces</text>\n</svg>\n";

/// Adds where the known entries of a thread stand.
fn add_known(events: &mut Vec<EventAt>, log: &Log, thread: ThreadNumber) -> Result<(), AllocError>
    ensures { OnOk result (events.new.items ≡ events.old.items ++ flat_map (known_of_item thread) (items_at log.now thread)) }
{
    let Some(items) = log.items(thread.number()) else {
        return Ok(());
    };
    for (place, item) in items {
        if let Flat::Known(_entry) = item {
            events.push(EventAt {
                thread: thread.number(),
                place,
            })?;
        }
    }
    Ok(())
}

/// Where the known entries of a log stand.
fn known_events(alloc: Global, log: &Log) -> Result<Vec<EventAt>, AllocError>
    ensures { IfOk result (λ events. events.items ≡ known_events log.now) }
{
    let mut events = Vec::new(alloc);
    for number in 0..MOST_THREADS as u32 {
        add_known(&mut events, log, ThreadNumber::new(number))?;
    }
    Ok(events)
}

/// The chart of a log.
fn log_chart(alloc: Global, log: &Log, choice: ChartChoice<'_>) -> Result<String, AllocError>
    ensures { IfOk result (λ text. IsLogChart (chart_asked choice.entry) log.now (string_bytes text)) }
{
    let rows = passage_of(alloc, log)?;
    let lines = lines_of(alloc, choice, rows.as_slice())?;
    let known = known_events(alloc, log)?;
    let more = known.len().saturating_sub(rows.len());
    let text = drawing(alloc, lines.as_slice(), more)?;
    Ok(text)
}

/// The chart of what was collected, as an SVG: a column for each thread and downwards its accesses, in an order that the
/// versions allow, with an arrow from each write to those that met it in other threads. That of no piece says so.
pub fn chart_of(
    alloc: Global,
    replica: &Option<Replica>,
    choice: ChartChoice<'_>,
) -> Result<String, NoMemory>
    ensures { IfOk result (λ text. (pieces : List PieceValue) → IsFound pieces replica.now → IsChart (chart_asked choice.entry) pieces (string_bytes text)) }
{
    match replica {
        Some(replica) => {
            let log = replica.log();
            // A fact for the prover: the items of each thread stand by rising place.
            log.is_ordered();
            let text = log_chart(alloc, log, choice)?;
            Ok(text)
        }
        None => Ok(String::from_str(alloc, NO_PIECES)?),
    }
}
