//! A log that takes just so many entries more.

use log_pieces::{EntriesWriter, PackedEntries};
use rw_objects::{Entry, EntryLog, ObjectSpace, Versioned};
use wasm_types::NoMemory;

/// The entries of a thread, behind which as many may stand as are left: a thread that is run with it makes so many
/// accesses at most.
#[derive(Drop)]
pub(crate) struct FewEntries {
    pub(crate) writer: EntriesWriter,
    pub(crate) left: u32,
}

impl EntryLog for FewEntries {
    ghost use Rattle.std.specs.Prelude.{◌≤◌};
    ghost use Rattle.log_pieces.specs.declared.writing.TheConstants.{MOST_ENTRY_BYTES};
    ghost use Rattle.recorder.specs.Few.{put_few};

    type Seen = (PackedEntries, u32);

    ghost seen = { λ few. (few.writer.entries, few.left) };

    ghost add = { put_few };

    ghost has_room = { λ few. MOST_ENTRY_BYTES ≤ few.writer.room };

    #[inline(always)]
    fn room(&mut self) -> Result<(), NoMemory> {
        self.writer.room()
    }

    #[inline(always)]
    fn takes<S: ObjectSpace>(&mut self, memory: &Versioned<S>, op: &S::Op) -> bool {
        self.left > 0
    }

    #[inline(always)]
    fn push(&mut self, entry: &Entry) {
        self.writer.push(entry);
        self.left -= 1;
    }
}
