//! Streams in memory that interrupt, fail and take nothing.

ghost use Rattle.std.specs.Prelude.{◌≡◌, [], Some};

use std::alloc::Global;
use std::io;
use std::io::{ErrorKind, Read, Write};

/// Which calls of a stream are refused: each first one of two is interrupted, and the call of that number, from 1,
/// fails.
#[derive(Drop)]
pub(crate) struct Refusals {
    made: u64,
    fails_at: u64,
}

impl Refusals {
    fn new(fails_at: u64) -> Refusals {
        Refusals { made: 0, fails_at }
    }

    /// Counts a call, and refuses it where it is to be refused.
    fn call(&mut self) -> io::Result<()> {
        self.made = self.made.saturating_add(1);
        if self.made == self.fails_at {
            return Err(ErrorKind::TimedOut.into());
        }
        if self.made % 2 == 1 {
            return Err(ErrorKind::Interrupted.into());
        }
        Ok(())
    }
}

/// Bytes of which one comes at a call.
#[derive(Drop)]
pub(crate) struct FitfulReader<'a> {
    rest: &'a [u8],
    refusals: Refusals,
}

impl<'a> FitfulReader<'a> {
    pub(crate) fn new(bytes: &'a [u8], fails_at: u64) -> FitfulReader<'a>
        ensures { result.rest.now ≡ bytes.now }
    {
        FitfulReader {
            rest: bytes,
            refusals: Refusals::new(fails_at),
        }
    }
}

impl Read for FitfulReader<'_> {
    ghost remaining = { λ s. Some s.rest.now };

    fn read(&mut self, buffer: &mut [u8]) -> io::Result<usize> {
        self.refusals.call()?;
        let count = self.rest.len().min(buffer.len()).min(1);
        let (front, after) = self.rest.split_at(count);
        let (into, _) = buffer.split_at_mut(count);
        into.copy_from_slice(front);
        self.rest = after;
        Ok(count)
    }
}

/// Bytes of which one is taken at a call.
#[derive(Drop)]
pub(crate) struct FitfulWriter {
    taken: Vec<u8>,
    refusals: Refusals,
}

impl FitfulWriter {
    pub(crate) fn new(alloc: Global, fails_at: u64) -> FitfulWriter
        ensures { result.taken.items ≡ [] }
    {
        FitfulWriter {
            taken: Vec::new(alloc),
            refusals: Refusals::new(fails_at),
        }
    }

    pub(crate) fn taken(&self) -> &[u8]
        ensures { result.now ≡ self.now.taken.items }
    {
        &self.taken
    }
}

impl Write for FitfulWriter {
    ghost contents = { λ s. Some s.taken.items };

    fn write(&mut self, bytes: &[u8]) -> io::Result<usize> {
        self.refusals.call()?;
        let Some(first) = bytes.first() else {
            return Ok(0);
        };
        self.taken.push(*first)?;
        Ok(1)
    }

    fn flush(&mut self) -> io::Result<()> {
        Ok(())
    }
}

/// Room for no byte.
#[derive(Drop)]
pub(crate) struct FullWriter;

impl Write for FullWriter {
    ghost contents = { λ s. Some [] };

    fn write(&mut self, _bytes: &[u8]) -> io::Result<usize> {
        Ok(0)
    }

    fn flush(&mut self) -> io::Result<()> {
        Ok(())
    }
}
