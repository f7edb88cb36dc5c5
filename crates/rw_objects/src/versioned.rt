//! A space with its versions.

ghost use Rattle.std.specs.Prelude.{◌≡◌, length, true, IfOk, IsTrue, ◌↔◌};
ghost use Rattle.rw_objects.specs.Space.{Fits, is_ready, reply_of};
ghost use Rattle.rw_objects.specs.Counts.{no_counts, CanCountAll};

use crate::copied_space::CopiedSpace;
use crate::entry::Entry;
use crate::space::ObjectSpace;
use crate::versions::Versions;
use std::alloc::Global;
use wasm_types::NoMemory;

/// A space with the versions and the read totals of its objects.
#[derive(Drop)]
pub struct Versioned<S: ObjectSpace> {
    pub space: S,
    pub versions: Versions,
    ghost sized: { length versions ≡ S.meaning.objects (S.fixed space) },
}

impl<S: ObjectSpace + Drop> Versioned<S> {
    ghost use Rattle.rw_objects.specs.Memory.{memory_with, memory_of};

    /// A space no object of which was touched: all versions and read totals are 0.
    pub fn new(alloc: Global, space: S) -> Result<Versioned<S>, NoMemory>
        ensures { IfOk result (λ versioned. memory_of versioned ≡ memory_with (S.fixed space) (S.values space) no_counts) }
    {
        let versions = Versions::new(alloc, space.objects())?;
        Ok(Versioned { space, versions })
    }
}

impl<S: CopiedSpace> Versioned<S> {
    ghost use Rattle.rw_objects.specs.Memory.{memory_of};

    /// The same space and versions once more.
    pub fn copied(&self, alloc: Global) -> Result<Versioned<S>, NoMemory>
        ensures { IfOk result (λ copy. memory_of copy ≡ memory_of self.now) }
    {
        let versions = self.versions.copied(alloc)?;
        let space = self.space.copied(alloc)?;
        Ok(Versioned { space, versions })
    }
}

impl<S: ObjectSpace> Versioned<S> {
    ghost use Rattle.rw_objects.specs.Memory.{memory_of, memory_after, entry_of};

    /// Whether the event of an operation would log this entry. It takes no memory.
    #[inline(always)]
    pub fn logs(&self, op: &S::Op, entry: &Entry) -> bool
        ensures { IsTrue result ↔ (entry_of S.meaning (memory_of self.now) op.now ≡ entry.now) }
    {
        S::logs(&self.versions, op, entry)
    }

    /// One event: makes a ready operation, counts its touches, and answers its reply and its entry. It takes no memory.
    #[inline(always)]
    pub fn act(&mut self, op: &S::Op) -> (S::Reply, Entry)
        requires fits { Fits S.meaning (S.fixed self.old.space) op.now }
        requires ready { is_ready S.meaning (S.fixed self.old.space) (S.values self.old.space) op.now ≡ true }
        requires room { CanCountAll (S.meaning.touches op.now) self.old.versions }
        ensures reply { result.0 ≡ reply_of S.meaning (S.fixed self.old.space) (S.values self.old.space) op.now }
        ensures entry { result.1 ≡ entry_of S.meaning (memory_of self.old) op.now }
        ensures memory { memory_of self.new ≡ memory_after S.meaning (memory_of self.old) op.now }
    {
        self.space.act(&mut self.versions, op)
    }
}
