//! Sources and sinks over streams in memory.

ghost use Rattle.std.specs.Prelude.{◌≡◌, ℕ, ◌+◌, ◌<◌, ◌≤◌, List, ◌++◌, Some, Err, OnOk, OnErr};
ghost use Rattle.log_pieces.specs.Piece.{PieceValue};
ghost use Rattle.replica.specs.Gathered.{IsText, IsListing};
ghost use Rattle.replica.specs.declared.fault.GatherFault.TheVariants as faults;
ghost use Rattle.replica.specs.Listing.{plain};

use crate::checks::{check, compare};
use crate::fitful::{FitfulReader, FitfulWriter, FullWriter};
use byte_streams::{Failed, Sink, Source, StandardSink, StandardSource, write_all};
use replica::{GatherFault, ListingForm, gather};
use std::alloc::Global;
use std::io::{Read, Write};
use std::test::Fail;

/// The first byte that a call brings, or none at the end.
fn next_byte<R: Read>(source: &mut StandardSource<R>) -> Result<Option<u8>, Failed>
    requires countable { source.old.failures < 100 }
    ensures counted { source.new.failures ≤ source.old.failures + 1 }
{
    let mut buffer = [0u8; 4];
    match source.read(&mut buffer) {
        Ok(0) => Ok(None),
        Ok(_) => Ok(Some(buffer[0])),
        Err(Failed) => Err(Failed),
    }
}

/// Writes all of the bytes.
fn put<W: Write>(sink: &mut StandardSink<W>, bytes: &[u8]) -> Result<(), Failed>
    requires countable { sink.old.failures < 100 }
    ensures counted { sink.new.failures ≤ sink.old.failures + 1 }
{
    write_all(sink, bytes)
}

/// What gathering one stream into another comes to, and the other stream. Where the bytes of both are known, it then
/// holds what it held and the listing of what the first had left; unless it failed, an error leaves what it held.
fn gathered<R: Read + Drop, W: Write>(
    alloc: Global,
    input: R,
    output: W,
) -> (Result<(), GatherFault>, W)
    ensures listed { OnOk result.0 ((text held : List ℕ) → R.remaining input ≡ Some text → W.contents output ≡ Some held
        → (pieces : List PieceValue) × (listing : List ℕ) × IsText text pieces × IsListing plain pieces listing × (W.contents result.1 ≡ Some (held ++ listing))) }
    ensures unwritten { OnErr result.0 ((result.0 ≡ Err faults.SinkFailed → ⊥) → W.contents result.1 ≡ W.contents output) }
{
    let mut source = StandardSource::new(input);
    let mut sink = StandardSink::new(output);
    let answer = gather(alloc, &mut source, &mut sink, ListingForm::default());
    (answer, sink.into_inner())
}

#[test]
fn a_slice_comes_in_order(rt: HostRuntime) {
    let text: &[u8] = b"abcdef";
    let mut source = StandardSource::new(text);
    let mut buffer = [0u8; 4];
    let answer = source.read(&mut buffer);
    let found = (answer, buffer, source.failures());
    compare(&rt, &found, &(Ok(4), *b"abcd", 0), "read");
    compare(&rt, &source.into_inner(), &b"ef".as_slice(), "rest");
}

#[test]
fn interrupted_calls_are_made_again(rt: HostRuntime) {
    let mut source = StandardSource::new(FitfulReader::new(b"ab", 0));
    let found = [
        next_byte(&mut source),
        next_byte(&mut source),
        next_byte(&mut source),
        next_byte(&mut source),
    ];
    let want = [Ok(Some(b'a')), Ok(Some(b'b')), Ok(None), Ok(None)];
    compare(&rt, &(found, source.failures()), &(want, 0), "bytes");
}

#[test]
fn bytes_go_on_behind_a_failing_call(rt: HostRuntime) {
    for fails_at in [3, 4] {
        let mut source = StandardSource::new(FitfulReader::new(b"ab", fails_at));
        let found = [
            next_byte(&mut source),
            next_byte(&mut source),
            next_byte(&mut source),
            next_byte(&mut source),
        ];
        let want = [Ok(Some(b'a')), Err(Failed), Ok(Some(b'b')), Ok(None)];
        compare(&rt, &(found, source.failures()), &(want, 1), "bytes");
    }
}

#[test]
fn a_vector_takes_all(rt: HostRuntime) {
    let mut sink = StandardSink::new(Vec::new(rt.alloc()));
    let found = [put(&mut sink, b"ab"), put(&mut sink, b"c")];
    compare(&rt, &(found, sink.failures()), &([Ok(()); 2], 0), "written");
    let taken = sink.into_inner();
    compare(&rt, &taken.as_slice(), &b"abc".as_slice(), "taken");
}

#[test]
fn a_sink_goes_on_behind_a_failing_call(rt: HostRuntime) {
    for fails_at in [3, 4] {
        let mut sink = StandardSink::new(FitfulWriter::new(rt.alloc(), fails_at));
        let first = (put(&mut sink, b"abc"), sink.failures());
        let second = (put(&mut sink, b"bc"), sink.failures());
        let want = ((Err(Failed), 1), (Ok(()), 1));
        compare(&rt, &(first, second), &want, "written");
        let output = sink.into_inner();
        compare(&rt, &output.taken(), &b"abc".as_slice(), "taken");
    }
}

#[test]
fn a_stream_that_takes_nothing_fails(rt: HostRuntime) {
    let mut sink = StandardSink::new(FullWriter);
    let answer = put(&mut sink, b"a");
    compare(
        &rt,
        &(answer, sink.failures()),
        &(Err(Failed), 1),
        "written",
    );
}

// A piece of thread 3 with no entry and an end, and its listing.
const LINE: &[u8] = b"\
    49525001aaaaaaaaaaaaaaaaaaaaaaaaaaaaaaaaaaaaaaaaaaaaaaaaaaaaaaaaaaaaaaaa0100000000000000030000\
    0000000001030000000000000002\n";

const LISTING: &[u8] = b"\
run aaaaaaaaaaaaaaaaaaaaaaaaaaaaaaaaaaaaaaaaaaaaaaaaaaaaaaaaaaaaaaaa:1
3 end steps=3 places=0 none
ends 1 missing 0 strays 0 clashes 0
";

#[test]
fn streams_gather(rt: HostRuntime) {
    let alloc = rt.alloc();
    let (answer, listing) = gathered(alloc, LINE, Vec::new(alloc));
    compare(&rt, &answer, &Ok(()), "a vector");
    compare(&rt, &listing.as_slice(), &LISTING, "a vector");
    let input = FitfulReader::new(LINE, 0);
    let (answer, output) = gathered(alloc, input, FitfulWriter::new(alloc, 0));
    compare(&rt, &answer, &Ok(()), "a fitful writer");
    compare(&rt, &output.taken(), &LISTING, "a fitful writer");
}

#[test]
fn nothing_is_written_where_reading_fails(rt: HostRuntime) {
    let alloc = rt.alloc();
    for fails_at in 1..200 {
        let input = FitfulReader::new(LINE, fails_at);
        let (answer, output) = gathered(alloc, input, FitfulWriter::new(alloc, 0));
        let found = (fails_at, answer, output.taken().len());
        let want = (fails_at, Err(GatherFault::SourceFailed), 0);
        compare(&rt, &found, &want, "gathered");
    }
}

#[test]
fn a_beginning_is_written_where_writing_fails(rt: HostRuntime) {
    let alloc = rt.alloc();
    for fails_at in 1..200 {
        let output = FitfulWriter::new(alloc, fails_at);
        let (answer, output) = gathered(alloc, LINE, output);
        let taken = output.taken();
        let found = (fails_at, answer, taken.len() as u64);
        let want = (fails_at, Err(GatherFault::SinkFailed), (fails_at - 1) / 2);
        compare(&rt, &found, &want, "gathered");
        check(&rt, LISTING.starts_with(taken), "a beginning");
    }
}
