//! A gathered log, as a replay reads it.

ghost use Rattle.std.specs.Prelude.{◌≡◌};

use crate::reader::{LogReader, ThreadReader};
use log_pieces::{End, Flat};
use replay_gate::ReadLog;
use replica::Log;
use rw_objects::Entry;
use std::array;

/// A log that was gathered from pieces.
#[derive(Clone, Copy)]
pub struct Gathered<'a> {
    pub(crate) log: &'a Log,
}

impl<'a> Gathered<'a> {
    /// This log, as a replay reads it.
    pub fn new(log: &'a Log) -> Gathered<'a>
        ensures { result.log.now ≡ log.now }
    {
        Gathered { log }
    }
}

impl<'a> ReadLog for Gathered<'a> {
    type Reader = LogReader<'a>;

    ghost use Rattle.replica.specs.Claims.{has_limits};
    ghost use Rattle.wasm_replay.specs.Replays.{gathered_log};
    ghost use Rattle.wasm_replay.specs.Reads.{ReadsLog, log_holds};

    ghost log = { λ g. gathered_log g.log.now };

    ghost reads = { λ g r. ReadsLog g.log.now r };

    ghost holds = { λ r t. log_holds r t };

    fn entry(&self, thread: u32, place: u32) -> Option<Flat<Entry>> {
        self.log.entry(thread, place)
    }

    fn reader(&self) -> LogReader<'a> {
        let log = self.log;
        array::from_fn(|_| ThreadReader::unread(log))
    }

    fn read(&self, reader: &mut LogReader<'a>, thread: u32, place: u32) {
        ThreadReader::read_on(&mut reader[thread as usize], self.log, thread, place);
    }

    fn held<'r>(reader: &'r LogReader<'a>, thread: u32) -> Option<&'r Flat<Entry>> {
        let readers = &reader[..];
        match readers.get(thread as usize) {
            Some(Some(one)) => one.held(),
            _ => None,
        }
    }

    fn end(&self, thread: u32) -> Option<Flat<End>> {
        self.log.end(thread)
    }

    ghost limits = { λ g. has_limits g.log.now };
}
