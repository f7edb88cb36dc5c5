//! Where the entries of a thread go.

ghost use Rattle.std.specs.Prelude.{◌≡◌, Some, OnOk, IsSome, IsTrue, ◌↔◌};
ghost use Rattle.rw_objects.specs.Memory.{memory_of, entry_of};

use crate::entry::Entry;
use crate::space::ObjectSpace;
use crate::versioned::Versioned;
use wasm_types::NoMemory;

/// Takes the entries of one thread, one behind the other. It may say no to an entry: then the access is not made that
/// would log it.
pub trait EntryLog {
    ghost use Rattle.std.specs.Prelude.{Option};
    ghost use Rattle.rw_objects.specs.declared.entry.Entry.{Entry};

    /// What contracts see of the log.
    type Seen;

    ghost seen: { Self → Self.Seen };

    /// What is seen behind one entry more, or None where the log does not take it.
    ghost add: { Self.Seen → Entry → Option Self.Seen };

    /// Holds where the next entry takes no memory.
    ghost has_room: { Self → Type 0 };

    /// Takes the memory that the next entry may want, so that after Ok the next `push` takes none.
    fn room(&mut self) -> Result<(), NoMemory>
        ensures seen { seen self.new ≡ seen self.old }
        ensures ok { OnOk result (has_room self.new) };

    /// Whether it takes the entry that the event of an operation would log. It takes no memory.
    fn takes<S: ObjectSpace>(&mut self, memory: &Versioned<S>, op: &S::Op) -> bool
        ensures takes { IsTrue result ↔ IsSome (add (seen self.old) (entry_of S.meaning (memory_of memory.now) op.now)) }
        ensures seen { seen self.new ≡ seen self.old }
        ensures room { has_room self.old → has_room self.new };

    /// Puts an entry that it takes behind the others. It takes no memory.
    fn push(&mut self, entry: &Entry)
        requires room { has_room self.old }
        requires taken { IsSome (add (seen self.old) entry.now) }
        ensures { add (seen self.old) entry.now ≡ Some (seen self.new) };
}

/// Keeps no entry.
#[derive(Clone, Copy, Debug)]
pub struct NoLog;

impl EntryLog for NoLog {
    ghost use Rattle.std.specs.Prelude.{Some};

    type Seen = ();

    ghost seen = { λ log. tt };

    ghost add = { λ seen entry. Some seen };

    ghost has_room = { λ log. Unit {0} };

    #[inline(always)]
    fn room(&mut self) -> Result<(), NoMemory> {
        Ok(())
    }

    #[inline(always)]
    fn takes<S: ObjectSpace>(&mut self, memory: &Versioned<S>, op: &S::Op) -> bool {
        true
    }

    #[inline(always)]
    fn push(&mut self, entry: &Entry) {}
}
