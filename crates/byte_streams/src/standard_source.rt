//! A stream to read as a source.

ghost use Rattle.std.specs.Prelude.{◌≡◌, ◌-◌, ◌^◌, ◌<◌, ◌≤◌, [], length, take, Err, IfOk, OnErr, IfErr};
ghost use Rattle.std.specs.Io.KnownBytes.{Consumes, IsAtEnd};
ghost use Rattle.byte_streams.specs.Stops.{IsGivenUp};

use crate::source::{Failed, Source};
use crate::stop::Stop;
use std::io::{ErrorKind, Read};

/// A stream to read, as a source. A call that brings bytes takes exactly the next ones of those that the stream has
/// left; none come only where none are left; a call that fails takes none, so that the next call goes on from there.
///
/// An interrupted call of the stream is made again, up to 2^64 - 1 calls in all. A call fails where none is left to
/// make, and at any other error of the stream.
///
/// All this is proved for every stream, by its `remaining` bytes, as `Read` has them. Left to the stream is how many
/// bytes come at a call, what stands behind them in the buffer, and which calls fail. Where its contract knows no
/// bytes, as that of standard input, it is trusted that there are such bytes.
#[derive(Drop)]
pub struct StandardSource<R> {
    stream: R,
    made: u64,
    failures: u64,
}

impl<R: Read> StandardSource<R> {
    /// That stream, from where it stands.
    pub fn new(stream: R) -> StandardSource<R>
        ensures stream { result.stream ≡ stream }
        ensures none_made { result.made ≡ 0 }
        ensures none_failed { result.failures ≡ 0 }
    {
        StandardSource {
            stream,
            made: 0,
            failures: 0,
        }
    }

    /// The stream, which stands behind the bytes that were brought.
    pub fn into_inner(self) -> R
        ensures { result ≡ self.stream }
    {
        self.stream
    }

    /// What the stream answers to the first call that it does not interrupt.
    fn answered(&mut self, buffer: &mut [u8]) -> Result<usize, Stop>
        requires room { 0 < length buffer.old }
        ensures within { IfOk result (λ n. n ≤ length buffer.old) }
        ensures brought { IfOk result (λ n. Consumes (R.remaining self.old.stream) (R.remaining self.new.stream) (take n buffer.new)) }
        ensures end { IfOk result (λ n. n ≡ 0 → IsAtEnd (R.remaining self.new.stream)) }
        ensures nothing_brought { OnErr result (Consumes (R.remaining self.old.stream) (R.remaining self.new.stream) []) }
        ensures given_up { IfErr result (IsGivenUp self.new.made) }
        ensures no_call_left { self.old.made ≡ 2 ^ 64 - 1 → result ≡ Err Stop.NoCallsLeft }
        ensures counted { IfOk result (λ n. self.old.made < self.new.made) }
        ensures failures { self.new.failures ≡ self.old.failures }
    {
        while self.made != u64::MAX {
            self.made += 1;
            match self.stream.read(buffer) {
                Ok(count) => return Ok(count),
                Err(error) if error.kind() == ErrorKind::Interrupted => {}
                Err(error) => return Err(Stop::Stream(error)),
            }
        }
        Err(Stop::NoCallsLeft)
    }
}

impl<R: Read> Source for StandardSource<R> {
    ghost use Rattle.std.specs.Prelude.{◌-◌, ◌^◌};
    ghost use Rattle.std.specs.Io.KnownBytes.{Consumes, IsAtEnd};
    ghost use Rattle.std.proofs.KnownBytes.{Consumes-nil, Consumes-trans};

    ghost brings = { λ s xs t. Consumes (R.remaining s.stream) (R.remaining t.stream) xs };

    ghost failed = { λ s. s.failures };

    ghost calls = { λ s. 2 ^ 64 - 1 - s.made };

    ghost ended = { λ s. IsAtEnd (R.remaining s.stream) };

    fn read(&mut self, buffer: &mut [u8]) -> Result<usize, Failed> {
        match self.answered(buffer) {
            Ok(count) => Ok(count),
            Err(_) => {
                self.failures += 1;
                Err(Failed)
            }
        }
    }

    fn failures(&self) -> u64 {
        self.failures
    }

    ghost brings_nothing = { λ s. Consumes-nil (R.remaining s.stream) };

    ghost brings_more = { λ s t u xs ys h g. Consumes-trans (R.remaining s.stream) (R.remaining t.stream) (R.remaining u.stream) xs ys h g };
}
