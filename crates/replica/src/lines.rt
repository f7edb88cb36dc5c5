//! Lines out of a source, a chunk at a time.

ghost use Rattle.std.specs.Prelude.{◌≡◌, ℕ, ◌+◌, ◌-◌, ◌*◌, ◌^◌, ◌<◌, ◌≤◌, List, [], ◌∷◌, ◌++◌, length, true, false, Ok, Err, IfErr, IfOk, OnOk, OnErr, IsTrue, ◌↔◌};
ghost use Rattle.replica.specs.Lines.{HasNoEnd, IsReadFault, pending};

use crate::fault::GatherFault;
use byte_streams::{Failed, Source};
use log_pieces::LONGEST_LINE;
use memchr::memchr;
use std::alloc::Global;
use std::marker::Model;
use wasm_types::NoMemory;

/// How many bytes are asked for at once.
const CHUNK: usize = 65_536;

/// Bytes that came from a source and were not taken yet. Contracts see these bytes.
#[derive(Drop)]
pub(crate) struct Chunk {
    bytes: Vec<u8>,
    start: usize,
    end: usize,
}

impl Model for Chunk {
    ghost use Rattle.std.specs.Prelude.{◌≡◌, ℕ, ◌≤◌, List, slice_range, vec_len};

    ghost Value = { List ℕ };

    ghost view = { λ c. slice_range c.bytes.items c.start c.end };

    ghost invariant = { λ c. (c.start ≤ c.end) × (c.end ≤ vec_len c.bytes) × (vec_len c.bytes ≡ 65536) };
}

impl Chunk {
    /// Room for a chunk, and no bytes.
    pub(crate) fn new(alloc: Global) -> Result<Chunk, NoMemory>
        ensures { IfOk result (λ chunk. chunk ≡ []) }
    {
        Ok(Chunk {
            bytes: vec![in alloc; 0; CHUNK]?,
            start: 0,
            end: 0,
        })
    }

    /// Moves the bytes up to the first line end behind the line, with that end, or all where there is none; answers
    /// whether there was one.
    pub(crate) fn take_line(&mut self, line: &mut Vec<u8>) -> Result<bool, NoMemory>
        ensures whole { result ≡ Ok true → ((front : List ℕ) × HasNoEnd front × (self.old ≡ front ++ 10 ∷ self.new) × (line.new.items ≡ line.old.items ++ (front ++ 10 ∷ []))) }
        ensures open { result ≡ Ok false → (HasNoEnd self.old × (self.new ≡ []) × (line.new.items ≡ line.old.items ++ self.old)) }
    {
        let held = &self.bytes[self.start..self.end];
        match memchr(b'\n', held) {
            Some(at) => {
                let (front, _) = held.split_at(at + 1);
                line.extend_from_slice(front)?;
                self.start += at + 1;
                Ok(true)
            }
            None => {
                line.extend_from_slice(held)?;
                self.start = self.end;
                Ok(false)
            }
        }
    }

    /// Asks the source for a chunk. No bytes come only at the end.
    pub(crate) fn refill<R: Source>(&mut self, source: &mut R) -> Result<(), Failed>
        requires empty { self.old ≡ [] }
        requires countable { R.failed source.old < 2 ^ 64 - 1 }
        ensures brought { OnOk result (R.brings source.old self.new source.new) }
        ensures few { OnOk result (length self.new ≤ 65536) }
        ensures ended { OnOk result (self.new ≡ [] → R.ended source.new) }
        ensures fewer { OnOk result ((self.new ≡ [] → ⊥) → R.calls source.new < R.calls source.old) }
        ensures none_failed { OnOk result (R.failed source.new ≡ R.failed source.old) }
        ensures one_failed { OnErr result (R.failed source.new ≡ R.failed source.old + 1) }
        ensures nothing_brought { OnErr result (R.brings source.old [] source.new) }
    {
        self.start = 0;
        self.end = 0;
        self.end = source.read(&mut self.bytes)?;
        Ok(())
    }

    /// Whether no bytes are held.
    pub(crate) fn is_empty(&self) -> bool
        ensures { IsTrue result ↔ (self.now ≡ []) }
    {
        self.start == self.end
    }
}

/// How the bytes of a line ended.
#[derive(Clone, Copy, Debug, PartialEq, Eq)]
pub(crate) enum LineEnd {
    /// By a line end, which stands behind them.
    Whole,
    /// By the end of the source.
    Last,
    /// Not yet, and they are more than any piece line has.
    TooLong,
}

/// Reads one line: up to its end, to the end of the source, or past the length of any piece line. An overlong line is
/// not kept, so that no input makes the memory grow past a few of the longest lines.
pub(crate) fn next_line<R: Source>(
    source: &mut R,
    chunk: &mut Chunk,
    line: &mut Vec<u8>,
) -> Result<LineEnd, GatherFault>
    requires { R.failed source.old < 2 ^ 64 - 1 }
    ensures whole { result ≡ Ok LineEnd.Whole → ((got front : List ℕ) × R.brings source.old got source.new × HasNoEnd front × (chunk.old ++ got ≡ front ++ 10 ∷ chunk.new) × (line.new.items ≡ front ++ 10 ∷ [])) }
    ensures last { result ≡ Ok LineEnd.Last → ((got : List ℕ) × R.brings source.old got source.new × R.ended source.new × HasNoEnd line.new.items × (chunk.old ++ got ≡ line.new.items)) }
    ensures too_long { result ≡ Ok LineEnd.TooLong → ((got front : List ℕ) × R.brings source.old got source.new × HasNoEnd front × (chunk.old ++ got ≡ front ++ chunk.new) × (LONGEST_LINE < length front)) }
    ensures source_failed { result ≡ Err GatherFault.SourceFailed → ((got : List ℕ) × R.brings source.old got source.new × HasNoEnd (chunk.old ++ got)) × (R.failed source.new ≡ R.failed source.old + 1) }
    ensures none_failed { (result ≡ Err GatherFault.SourceFailed → ⊥) → R.failed source.new ≡ R.failed source.old }
    ensures errors { IfErr result IsReadFault }
    ensures fewer { result ≡ Ok LineEnd.Whole → pending (R.calls source.new) chunk.new < pending (R.calls source.old) chunk.old }
    ensures no_more { result ≡ Ok LineEnd.TooLong → pending (R.calls source.new) chunk.new ≤ pending (R.calls source.old) chunk.old }
{
    line.clear();
    loop {
        if chunk.take_line(line)? {
            return Ok(LineEnd::Whole);
        }
        if line.len() > LONGEST_LINE {
            return Ok(LineEnd::TooLong);
        }
        match chunk.refill(source) {
            Ok(()) => {}
            Err(Failed) => return Err(GatherFault::SourceFailed),
        }
        if chunk.is_empty() {
            return Ok(LineEnd::Last);
        }
    }
}

/// Passes over the rest of a line: up to its end, and answers `true`, or to the end of the source. No byte of it is
/// kept.
pub(crate) fn pass_line<R: Source>(
    source: &mut R,
    chunk: &mut Chunk,
    line: &mut Vec<u8>,
) -> Result<bool, GatherFault>
    requires { R.failed source.old < 2 ^ 64 - 1 }
    ensures whole { result ≡ Ok true → ((got front : List ℕ) × R.brings source.old got source.new × HasNoEnd front × (chunk.old ++ got ≡ front ++ 10 ∷ chunk.new)) }
    ensures last { result ≡ Ok false → ((got : List ℕ) × R.brings source.old got source.new × R.ended source.new × HasNoEnd (chunk.old ++ got)) }
    ensures source_failed { result ≡ Err GatherFault.SourceFailed → R.failed source.new ≡ R.failed source.old + 1 }
    ensures none_failed { (result ≡ Err GatherFault.SourceFailed → ⊥) → R.failed source.new ≡ R.failed source.old }
    ensures errors { IfErr result IsReadFault }
    ensures fewer { result ≡ Ok true → pending (R.calls source.new) chunk.new < pending (R.calls source.old) chunk.old }
{
    loop {
        line.clear();
        if chunk.take_line(line)? {
            return Ok(true);
        }
        match chunk.refill(source) {
            Ok(()) => {}
            Err(Failed) => return Err(GatherFault::SourceFailed),
        }
        if chunk.is_empty() {
            return Ok(false);
        }
    }
}
