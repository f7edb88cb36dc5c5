//! The entries of each thread, while a run is recorded.

ghost use Rattle.std.specs.Prelude.{◌≡◌, ◌<◌, ◌∷◌, [], ◌++◌, length, replicate, IfOk, OnOk, OnErr};
ghost use Rattle.event_core.specs.Threads.{change_at};
ghost use Rattle.recorder.specs.Recorded.{list_at};

use log_pieces::{EntriesWriter, PackedEntries};
use rw_objects::Entry;
use std::alloc::Global;
use std::marker::Model;
use std::mem::replace;
use wasm_types::NoMemory;

/// The entries of each thread. Contracts see the lists.
#[derive(Drop)]
pub struct Logs {
    lists: Vec<PackedEntries>,
}

impl Model for Logs {
    ghost use Rattle.std.specs.Prelude.{List};
    ghost use Rattle.rw_objects.specs.declared.entry.Entry.{Entry};

    ghost Value = { List (List Entry) };

    ghost view = { λ l. l.lists.items };
}

impl Logs {
    /// No entry yet, of so many threads.
    pub fn new(alloc: Global, threads: usize) -> Result<Logs, NoMemory>
        ensures { IfOk result (λ logs. logs ≡ replicate threads []) }
    {
        let lists = empty_lists(alloc, threads)?;
        Ok(Logs { lists })
    }

    /// Those of threads that logged these entries.
    pub fn of(lists: Vec<PackedEntries>) -> Logs
        ensures { result ≡ lists.items }
    {
        Logs { lists }
    }

    /// Puts an entry behind the others of its thread. Where memory is wanted the lists stay as they were.
    pub fn push(&mut self, thread: u32, entry: &Entry) -> Result<(), NoMemory>
        requires { thread < length self.old }
        ensures ok { OnOk result (self.new ≡ change_at self.old thread (λ entries. entries ++ entry.now ∷ [])) }
        ensures err { OnErr result (self.new ≡ self.old) }
    {
        push_at(&mut self.lists, thread as usize, entry)
    }

    /// Takes a thread's entries out, to go on behind them. None are left there.
    pub fn take_out(&mut self, thread: u32) -> EntriesWriter
        requires { thread < length self.old }
        ensures taken { result.entries ≡ list_at self.old thread }
        ensures left { self.new ≡ change_at self.old thread (λ entries. []) }
    {
        let none = PackedEntries::new(*self.lists.allocator());
        replace(&mut self.lists[thread as usize], none).into_writer()
    }

    /// Puts a thread's entries back.
    pub fn put_back(&mut self, thread: u32, writer: EntriesWriter)
        requires { thread < length self.old }
        ensures { self.new ≡ change_at self.old thread (λ entries. writer.entries) }
    {
        self.lists[thread as usize] = writer.into_entries();
    }

    /// The lists.
    pub fn into_lists(self) -> Vec<PackedEntries>
        ensures { result.items ≡ self }
    {
        let Logs { lists } = self;
        lists
    }
}

fn push_at(lists: &mut Vec<PackedEntries>, at: usize, entry: &Entry) -> Result<(), NoMemory>
    requires { at < length lists.old.items }
    ensures ok { OnOk result (lists.new.items ≡ change_at lists.old.items at (λ entries. entries ++ entry.now ∷ [])) }
    ensures err { OnErr result (lists.new.items ≡ lists.old.items) }
{
    lists[at].push(entry)
}

fn empty_lists(alloc: Global, threads: usize) -> Result<Vec<PackedEntries>, NoMemory>
    ensures { IfOk result (λ lists. lists.items ≡ replicate threads []) }
{
    let mut lists = Vec::new(alloc);
    for _ in 0..threads {
        lists.push(PackedEntries::new(alloc))?;
    }
    Ok(lists)
}
