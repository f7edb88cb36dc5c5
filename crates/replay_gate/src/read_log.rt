//! Logs as a replay reads them.

ghost use Rattle.std.specs.Prelude.{◌≡◌, ◌<◌, ℕ, Option, option_copied};
ghost use Rattle.rw_objects.specs.declared.entry.Entry.{Entry};
ghost use Rattle.log_pieces.specs.declared.flat.Flat.{Flat};
ghost use Rattle.replay_laws.specs.Log.{Log, HasLimits};

use log_pieces::{End, Flat};
use rw_objects::Entry;

/// A log: what is claimed of each event, and of each thread's end.
pub trait ReadLog {
    /// What reads the items of a log, forward in each of its at most 16 threads, and holds what it read last.
    type Reader: Drop;

    ghost log: { Self → Log };

    ghost reads: { Self → Self.Reader → Type 0 };

    ghost holds: { Self.Reader → ℕ → Option (Flat Entry) };

    /// The item at a place of a thread, if one is claimed there. It is looked up by its place.
    fn entry(&self, thread: u32, place: u32) -> Option<Flat<Entry>>
        ensures { result ≡ (log self.now).entry thread place };

    /// A reader of this log.
    fn reader(&self) -> Self::Reader
        ensures { reads self.now result };

    /// Reads the item at a place of a thread, if one is claimed there; the reader then holds it. Of a thread whose
    /// places rise no item is searched for, and one that is asked for again is not read again.
    fn read(&self, reader: &mut Self::Reader, thread: u32, place: u32)
        requires reads { reads self.now reader.old }
        requires thread { thread < 16 }
        ensures holds { holds reader.new thread ≡ (log self.now).entry thread place }
        ensures reads { reads self.now reader.new };

    /// The item that a reader holds of a thread, as of the one that it read last.
    fn held(reader: &Self::Reader, thread: u32) -> Option<&Flat<Entry>>
        ensures { option_copied result ≡ holds reader.now thread };

    /// The end of a thread, if one is claimed.
    fn end(&self, thread: u32) -> Option<Flat<End>>
        ensures { result ≡ (log self.now).end thread };

    ghost limits: { (l : Self) → HasLimits (log l) };
}
