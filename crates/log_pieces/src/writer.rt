//! Packed entries, written one behind the other.

ghost use Rattle.std.specs.Prelude.{◌≡◌};
ghost use Rattle.log_pieces.specs.EntriesIn.{entries_in, ArePacked};

use crate::packed::Packed;
use crate::packed_entries::PackedEntries;
use crate::writing::MOST_ENTRY_BYTES;
use rw_objects::{Entry, EntryLog, ObjectSpace, Versioned};
use std::alloc::Global;
use std::marker::Model;
use wasm_types::NoMemory;

/// Writes entries behind those that are there. Contracts see their list, and for how many bytes more there is room.
#[derive(Drop)]
pub struct EntriesWriter {
    bytes: Vec<u8>,
    count: usize,
}

impl Model for EntriesWriter {
    ghost use Rattle.std.specs.Prelude.{◌-◌, length, vec_capacity};
    ghost use Rattle.log_pieces.specs.EntriesIn.{entries_in, ArePacked, WriterAt};

    ghost Value = { WriterAt };

    ghost view = { λ w. record { entries = entries_in w.count w.bytes.items; room = vec_capacity w.bytes - length w.bytes.items } };

    ghost invariant = { λ w. ArePacked w.count w.bytes.items };
}

impl EntriesWriter {
    /// A writer of the entries that bytes spell.
    pub(crate) fn new(bytes: Vec<u8>, count: usize) -> EntriesWriter
        requires { ArePacked count bytes.items }
        ensures { result.entries ≡ entries_in count bytes.items }
    {
        EntriesWriter { bytes, count }
    }

    /// The entries.
    pub fn into_entries(self) -> PackedEntries
        ensures { result ≡ self.entries }
    {
        let EntriesWriter { bytes, count } = self;
        PackedEntries::of(bytes, count)
    }
}

impl EntryLog for EntriesWriter {
    ghost use Rattle.std.specs.Prelude.{◌≤◌, ◌++◌, ◌∷◌, [], Some};
    ghost use Rattle.log_pieces.specs.declared.writing.TheConstants.{MOST_ENTRY_BYTES};

    type Seen = PackedEntries;

    ghost seen = { λ w. w.entries };

    ghost add = { λ entries entry. Some (entries ++ entry ∷ []) };

    ghost has_room = { λ w. MOST_ENTRY_BYTES ≤ w.room };

    #[inline(always)]
    fn room(&mut self) -> Result<(), NoMemory> {
        self.bytes.reserve(MOST_ENTRY_BYTES)?;
        Ok(())
    }

    #[inline(always)]
    fn takes<S: ObjectSpace>(&mut self, memory: &Versioned<S>, op: &S::Op) -> bool {
        true
    }

    #[inline(always)]
    fn push(&mut self, entry: &Entry) {
        let Ok(()) = entry.put(&mut self.bytes) else {
            unreachable!()
        };
        self.count += 1;
    }
}
