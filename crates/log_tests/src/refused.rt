//! Want of memory where pieces are delivered, merged, collected and gathered. Where each growth is refused in turn, as
//! `bench/test_growths.py` does it, the call answers so, or does what it does with ample memory. Without it none is
//! refused, and the tests pass, too.

use crate::checks::{check, compare, compare_texts};
use crate::contradictions::{CONTRADICTING, CONTRADICTING_TOLD, TELLING, text_of};
use crate::replicas::{WHOLE, WHOLE_TEXT, delivered};
use crate::skipping::{Gathered, answer};
use byte_streams::{MemorySink, MemorySource, Sink, Source};
use log_pieces::{End, Piece};
use replica::{GatherFault, ListingForm, Log, Replica, ReplicaFault, Skipped, collect, listing};
use rw_objects::{Entry, Few, Found, Kind};
use std::alloc::Global;
use std::process::Abort;
use std::test::Fail;
use wasm_types::{Outcome, Profile, RunKey};

/// An entry that reads this version of object 1.
fn read_of(alloc: Global, version: u32) -> Entry {
    let mut found = Few::new(alloc);
    found.push(Found::Read {
        object: 1,
        version: u64::from(version),
    });
    Entry {
        kind: Kind::Access,
        found,
    }
}

/// A piece of thread 0 with so many entries, each a read of the version that is its place, and perhaps with their end.
fn long_piece(alloc: Global, count: u32, has_end: bool) -> Result<Piece, Fail> {
    let key = RunKey {
        digest: [0xaa; 32],
        run: 1,
        profile: Profile::One,
    };
    let end = End {
        steps: count,
        places: count,
        outcome: Outcome::Running,
    };
    let mut entries = Vec::new(alloc);
    for version in 0..count {
        entries.push(read_of(alloc, version))?;
    }
    Ok(Piece::new(key, 0, 0, entries, has_end.then_some(end))?)
}

/// How many entries of thread 0 stand in a log before the first that doesn't.
fn standing(log: &Log) -> u32 {
    for place in 0..u32::MAX {
        if log.entry(0, place).is_none() {
            return place;
        }
    }
    u32::MAX
}

/// Delivers to a replica the piece of so many first entries, where there are any.
fn deliver_first(alloc: Global, replica: &mut Replica, count: u32) -> Result<(), Fail> {
    if count > 0 {
        replica.deliver(alloc, &long_piece(alloc, count, false)?)?;
    }
    Ok(())
}

/// The listing of what so many first entries of a long piece make, in a run with this key.
fn listing_of_first(alloc: Global, key: RunKey, count: u32) -> Result<String, Fail> {
    let mut replica = Replica::new(alloc, key);
    deliver_first(alloc, &mut replica, count)?;
    Ok(listing(alloc, replica.log())?)
}

/// Checks that a log is what the first of a long piece's entries make, without its end.
fn check_partial(rt: &impl Abort, alloc: Global, log: &Log) -> Result<(), Fail> {
    let found = listing(alloc, log)?;
    let wanted = listing_of_first(alloc, *log.key(), standing(log))?;
    compare_texts(rt, found.as_str(), wanted.as_str(), "a part");
    Ok(())
}

/// Delivers a piece, and again where memory was wanting: the log is then what its first entries make.
fn deliver_again(
    rt: &impl Abort,
    alloc: Global,
    replica: &mut Replica,
    piece: &Piece,
) -> Result<(), Fail> {
    if let Err(fault) = replica.deliver(alloc, piece) {
        compare(rt, &fault, &ReplicaFault::NoMemory, "delivered once");
        check_partial(rt, alloc, replica.log())?;
        replica.deliver(alloc, piece)?;
    }
    Ok(())
}

#[test]
fn delivering_again_completes_what_want_of_memory_left(rt: HostRuntime) -> Result<(), Fail> {
    let piece = long_piece(rt.alloc(), 300, true)?;
    let mut replica = Replica::new(rt.alloc(), *piece.key());
    deliver_again(&rt, rt.alloc(), &mut replica, &piece)?;
    let log = replica.log();
    compare(
        &rt,
        &(log.complete(1), log.clashes()),
        &(true, 0),
        "delivered",
    );
    Ok(())
}

/// Merges a log, and again where memory was wanting: the end is then not there.
fn merge_again(
    rt: &impl Abort,
    alloc: Global,
    replica: &mut Replica,
    other: &Log,
) -> Result<(), Fail> {
    if let Err(fault) = replica.merge(alloc, other) {
        compare(rt, &fault, &ReplicaFault::NoMemory, "merged once");
        check(rt, replica.log().end(0).is_none(), "no end");
        replica.merge(alloc, other)?;
    }
    Ok(())
}

/// A replica to which a piece of five entries and their end was delivered.
fn replica_of_five(alloc: Global) -> Result<Replica, Fail> {
    let piece = long_piece(alloc, 5, true)?;
    let mut replica = Replica::new(alloc, *piece.key());
    replica.deliver(alloc, &piece)?;
    Ok(replica)
}

#[test]
fn merging_again_completes_what_want_of_memory_left(rt: HostRuntime) -> Result<(), Fail> {
    let other = replica_of_five(rt.alloc())?;
    let mut replica = Replica::new(rt.alloc(), *other.log().key());
    merge_again(&rt, rt.alloc(), &mut replica, other.log())?;
    check(&rt, replica.log().complete(1), "merged");
    Ok(())
}

/// Whether a whole log is collected of `WHOLE`; None where no piece came.
fn collected(alloc: Global) -> Result<Option<bool>, GatherFault> {
    let mut source = MemorySource::new(WHOLE.as_bytes(), 100, None);
    match collect(alloc, &mut source)? {
        Some(replica) => Ok(Some(replica.log().complete(1))),
        None => Ok(None),
    }
}

#[test]
fn collecting_refused_memory_is_an_answer(rt: HostRuntime) {
    match collected(rt.alloc()) {
        Ok(found) => compare(&rt, &found, &Some(true), "collected"),
        Err(fault) => compare(&rt, &fault, &GatherFault::NoMemory, "refused"),
    }
}

/// Gathers a text of which up to a hundred bytes come at a call, and ten are taken.
pub(crate) fn gather_by_ten(
    alloc: Global,
    text: &[u8],
    skips: bool,
    form: ListingForm,
) -> Gathered {
    let mut source = MemorySource::new(text, 100, None);
    let mut sink = MemorySink::new(alloc, 10, None);
    Gathered {
        answer: answer(alloc, &mut source, &mut sink, skips, form),
        source_failures: source.failures(),
        sink_failures: sink.failures(),
        sink,
    }
}

/// Checks an answer to want of memory, where these bytes are written with ample memory, and no line is passed over.
pub(crate) fn check_answer(rt: &impl Abort, found: &Gathered, wanted: &[u8]) {
    let taken = found.sink.taken();
    match found.answer {
        Ok(skipped) => {
            compare(rt, &skipped, &Skipped { bad: 0, foreign: 0 }, "skipped");
            compare(rt, &taken, &wanted, "written");
        }
        // A sink over memory fails where its own memory is refused.
        Err(GatherFault::SinkFailed) => {
            compare(rt, &found.sink_failures, &1, "failures of the sink");
            check(rt, wanted.starts_with(taken), "a beginning is written");
        }
        Err(fault) => {
            compare(rt, &fault, &GatherFault::NoMemory, "refused");
            check(rt, taken.is_empty(), "nothing is written");
        }
    }
    compare(rt, &found.source_failures, &0, "failures of the source");
}

#[test]
fn gathering_with_refused_memory_writes_no_other_bytes(rt: HostRuntime) {
    let found = gather_by_ten(rt.alloc(), WHOLE.as_bytes(), false, ListingForm::default());
    check_answer(&rt, &found, WHOLE_TEXT.as_bytes());
}

#[test]
fn contradictions_with_refused_memory_are_an_answer(rt: HostRuntime) -> Result<(), Fail> {
    let text = text_of(rt.alloc(), CONTRADICTING)?;
    let found = gather_by_ten(rt.alloc(), text.as_bytes(), false, TELLING);
    check_answer(&rt, &found, CONTRADICTING_TOLD.as_bytes());
    Ok(())
}

/// The listing of `WHOLE`; None where memory was wanting for the listing itself.
fn listing_of_whole(alloc: Global) -> Result<Option<String>, Fail> {
    let replica = delivered(alloc, &[WHOLE])?;
    Ok(listing(alloc, replica.log()).ok())
}

#[test]
fn listing_with_refused_memory_is_an_answer(rt: HostRuntime) -> Result<(), Fail> {
    if let Some(text) = listing_of_whole(rt.alloc())? {
        compare_texts(&rt, text.as_str(), WHOLE_TEXT, "listed");
    }
    Ok(())
}
