//! A stream to write as a sink.

ghost use Rattle.std.specs.Prelude.{◌≡◌, ◌-◌, ◌^◌, ◌≤◌, [], length, take, Err, IfOk, OnErr, IfErr};
ghost use Rattle.std.specs.Io.KnownBytes.{Appends};
ghost use Rattle.byte_streams.specs.Stops.{IsGivenUp};

use crate::sink::Sink;
use crate::source::Failed;
use crate::stop::Stop;
use std::io::{ErrorKind, Write};

/// A stream to write, as a sink. A call that takes bytes adds exactly these to what the stream holds, in their order; a
/// call that fails adds none, so that the next call goes on from there. Nothing is flushed: what a stream keeps back
/// for later is part of what it holds.
///
/// An interrupted call of the stream is made again, up to 2^64 - 1 calls in all. A call fails where none is left to
/// make, at any other error of the stream, and where the stream takes no byte.
///
/// All this is proved for every stream, by its `contents`, as `Write` has them. Left to the stream is how many bytes it
/// takes at a call, and which calls fail. Where its contract knows no bytes, as that of standard output, it is trusted
/// that there are such bytes.
#[derive(Drop)]
pub struct StandardSink<W> {
    stream: W,
    made: u64,
    failures: u64,
}

impl<W: Write> StandardSink<W> {
    /// That stream, from where it stands.
    pub fn new(stream: W) -> StandardSink<W>
        ensures stream { result.stream ≡ stream }
        ensures none_made { result.made ≡ 0 }
        ensures none_failed { result.failures ≡ 0 }
    {
        StandardSink {
            stream,
            made: 0,
            failures: 0,
        }
    }

    /// The stream, with what it took.
    pub fn into_inner(self) -> W
        ensures { result ≡ self.stream }
    {
        self.stream
    }

    /// What the stream answers to the first call that it does not interrupt.
    fn answered(&mut self, bytes: &[u8]) -> Result<usize, Stop>
        ensures within { IfOk result (λ n. n ≤ length bytes.now) }
        ensures taken { IfOk result (λ n. Appends (W.contents self.old.stream) (W.contents self.new.stream) (take n bytes.now)) }
        ensures nothing_taken { OnErr result (Appends (W.contents self.old.stream) (W.contents self.new.stream) []) }
        ensures given_up { IfErr result (IsGivenUp self.new.made) }
        ensures no_call_left { self.old.made ≡ 2 ^ 64 - 1 → result ≡ Err Stop.NoCallsLeft }
        ensures failures { self.new.failures ≡ self.old.failures }
    {
        while self.made != u64::MAX {
            self.made += 1;
            match self.stream.write(bytes) {
                Ok(count) => return Ok(count),
                Err(error) if error.kind() == ErrorKind::Interrupted => {}
                Err(error) => return Err(Stop::Stream(error)),
            }
        }
        Err(Stop::NoCallsLeft)
    }
}

impl<W: Write> Sink for StandardSink<W> {
    ghost use Rattle.std.specs.Io.KnownBytes.{Appends};
    ghost use Rattle.std.proofs.KnownBytes.{Appends-nil, Appends-trans};

    ghost takes = { λ s xs t. Appends (W.contents s.stream) (W.contents t.stream) xs };

    ghost failed = { λ s. s.failures };

    fn write(&mut self, bytes: &[u8]) -> Result<usize, Failed> {
        match self.answered(bytes) {
            Ok(count) if count > 0 => Ok(count),
            _ => {
                self.failures += 1;
                Err(Failed)
            }
        }
    }

    fn failures(&self) -> u64 {
        self.failures
    }

    ghost takes_nothing = { λ s. Appends-nil (W.contents s.stream) };

    ghost takes_more = { λ s t u xs ys h g. Appends-trans (W.contents s.stream) (W.contents t.stream) (W.contents u.stream) xs ys h g };
}
