//! A reader of the items of a gathered log.

ghost use Rattle.std.specs.Prelude.{◌≡◌, None, option_copied};
ghost use Rattle.std.specs.Ordering.{nat_cmp};
ghost use Rattle.log_pieces.specs.Keyed.{value_at};
ghost use Rattle.replica.specs.Log.{entry_at};

use log_pieces::{Flat, RunsCursor};
use replica::Log;
use rw_objects::Entry;
use wasm_types::MOST_THREADS;

/// Reads the items of one thread, and holds the one that it read last, with its place.
#[derive(Drop)]
pub struct ThreadReader<'a> {
    cursor: RunsCursor<'a, Entry>,
    place: u32,
    item: Option<Flat<Entry>>,
    ghost read: { item ≡ value_at nat_cmp cursor place },
}

impl<'a> ThreadReader<'a> {
    ghost use Rattle.wasm_replay.specs.Reads.{ReadsThread, thread_holds};

    /// No reader yet of a thread of a log.
    pub(crate) fn unread(_log: &'a Log) -> Option<ThreadReader<'a>>
        ensures { result ≡ None }
    {
        None
    }

    /// A reader that has read the item at a place of a thread. A run has no thread past the sixteenth.
    fn new(log: &'a Log, thread: u32, place: u32) -> Option<ThreadReader<'a>>
        ensures holds { thread_holds result ≡ entry_at log.now thread place }
        ensures reads { ReadsThread log.now thread result }
    {
        match log.cursor(thread) {
            None => None,
            Some(mut cursor) => {
                let mut item = None;
                cursor.read(place, &mut item);
                Some(ThreadReader {
                    cursor,
                    place,
                    item,
                })
            }
        }
    }

    /// Reads the item at a place, which it holds already where that is the place that it read last.
    fn read(&mut self, place: u32)
        ensures item { self.new.item ≡ value_at nat_cmp self.old.cursor place }
        ensures same { self.new.cursor ≡ self.old.cursor }
    {
        if place != self.place {
            self.cursor.read(place, &mut self.item);
            self.place = place;
        }
    }

    /// The item that it read last.
    pub(crate) fn held(&self) -> Option<&Flat<Entry>>
        ensures { option_copied result ≡ self.now.item }
    {
        self.item.as_ref()
    }

    /// Has the reader of a thread read the item at a place; it is made where there was none.
    pub(crate) fn read_on(
        reader: &mut Option<ThreadReader<'a>>,
        log: &'a Log,
        thread: u32,
        place: u32,
    )
        requires { ReadsThread log.now thread reader.old }
        ensures holds { thread_holds reader.new ≡ entry_at log.now thread place }
        ensures reads { ReadsThread log.now thread reader.new }
    {
        match reader {
            Some(one) => one.read(place),
            None => *reader = ThreadReader::new(log, thread, place),
        }
    }
}

/// Reads the items of a gathered log: by thread its reader, once it was read.
pub type LogReader<'a> = [Option<ThreadReader<'a>>; MOST_THREADS];
