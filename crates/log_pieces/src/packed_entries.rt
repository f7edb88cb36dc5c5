//! Entries in the bytes by which pieces spell them.

ghost use Rattle.std.specs.Prelude.{◌≡◌, ◌++◌, ◌∷◌, ◌==◌, [], length, OnOk, OnErr};
ghost use Rattle.log_pieces.specs.EntriesIn.{entries_in, ArePacked};

use crate::packed::Packed;
use crate::reader::EntriesReader;
use crate::writer::EntriesWriter;
use rw_objects::Entry;
use std::alloc::Global;
use std::marker::Model;
use wasm_types::NoMemory;

/// Entries, one behind the other, each as a piece spells it. Contracts see their list.
#[derive(Debug, Drop)]
pub struct PackedEntries {
    bytes: Vec<u8>,
    count: usize,
}

impl Model for PackedEntries {
    ghost use Rattle.std.specs.Prelude.{List};
    ghost use Rattle.rw_objects.specs.declared.entry.Entry.{Entry};
    ghost use Rattle.log_pieces.specs.EntriesIn.{entries_in, ArePacked};

    ghost Value = { List Entry };

    ghost view = { λ p. entries_in p.count p.bytes.items };

    ghost invariant = { λ p. ArePacked p.count p.bytes.items };
}

impl PackedEntries {
    /// No entry. It takes no memory.
    pub fn new(alloc: Global) -> PackedEntries
        ensures { result ≡ [] }
    {
        PackedEntries {
            bytes: Vec::new(alloc),
            count: 0,
        }
    }

    /// How many entries there are.
    pub fn len(&self) -> usize
        ensures { result ≡ length self.now }
    {
        self.count
    }

    /// Whether there is no entry.
    pub fn is_empty(&self) -> bool
        ensures { result ≡ (length self.now == 0) }
    {
        self.count == 0
    }

    /// Puts an entry behind the others. Where memory is wanted the entries stay as they were.
    pub fn push(&mut self, entry: &Entry) -> Result<(), NoMemory>
        ensures ok { OnOk result (self.new ≡ self.old ++ entry.now ∷ []) }
        ensures err { OnErr result (self.new ≡ self.old) }
    {
        let len = self.bytes.len();
        match entry.put(&mut self.bytes) {
            Ok(()) => {
                self.count += 1;
                Ok(())
            }
            Err(fault) => {
                self.bytes.truncate(len);
                Err(fault)
            }
        }
    }

    /// The entries that bytes spell.
    pub(crate) fn of(bytes: Vec<u8>, count: usize) -> PackedEntries
        requires { ArePacked count bytes.items }
        ensures { result ≡ entries_in count bytes.items }
    {
        PackedEntries { bytes, count }
    }

    /// A writer that goes on behind the entries. It takes no memory.
    pub fn into_writer(self) -> EntriesWriter
        ensures { result.entries ≡ self }
    {
        let PackedEntries { bytes, count } = self;
        EntriesWriter::new(bytes, count)
    }

    /// A reader of the entries, from the first on.
    pub fn reader(&self) -> EntriesReader<'_>
        ensures { result ≡ self.now }
    {
        EntriesReader::new(&self.bytes, self.count)
    }
}
