//! How often objects were written and read.

ghost use Rattle.std.specs.Prelude.{◌≡◌, ◌<◌, ◌≤◌, ◌+◌, ◌^◌, ◌==◌, ℕ, OnOk};
ghost use Rattle.rw_objects.specs.Counts.{no_count, count_after};
ghost use Rattle.replica.specs.Counted.{mode_of, count_with, count_behind, meets, is_open};
ghost use Rattle.replica.specs.Kept.{count_in, counts_in, AreFew};

use rw_objects::{Entry, Found};
use std::alloc::{AllocError, Global};
use std::collections::BTreeMap;

/// How often an object was written, and how often it was read since.
#[derive(Clone, Copy, Debug)]
pub(crate) struct WideCount {
    version: u128,
    reads: u128,
}

impl WideCount {
    /// What a touch leaves.
    fn after(self, found: Found) -> WideCount
        requires version { self.version < 2 ^ 100 }
        requires reads { self.reads < 2 ^ 100 }
        ensures { count_in result ≡ count_after (mode_of found) (count_in self) }
    {
        match found {
            Found::Read { .. } => WideCount {
                version: self.version,
                reads: self.reads + 1,
            },
            Found::Write { .. } => WideCount {
                version: self.version + 1,
                reads: 0,
            },
        }
    }

    /// Whether a touch found its object so.
    fn meets(self, found: Found) -> bool
        ensures { result ≡ meets found (count_in self) }
    {
        match found {
            Found::Read { version, .. } => self.version == u128::from(version),
            Found::Write { version, reads, .. } => {
                self.version == u128::from(version) && self.reads == u128::from(reads)
            }
        }
    }
}

/// How often each object was written, and how often it was read since.
#[derive(Drop)]
pub(crate) struct ObjectCounts {
    objects: BTreeMap<u32, WideCount>,
}

impl ObjectCounts {
    /// No object was written or read.
    pub(crate) fn new(alloc: Global) -> ObjectCounts
        ensures none { (object : ℕ) → counts_in result object ≡ no_count }
        ensures few { AreFew result 0 }
    {
        ObjectCounts {
            objects: BTreeMap::new(alloc),
        }
    }

    /// The count of an object.
    fn count(&self, object: u32) -> WideCount
        ensures { count_in result ≡ counts_in self.now object }
    {
        match self.objects.get(&object) {
            Some(count) => *count,
            None => WideCount {
                version: 0,
                reads: 0,
            },
        }
    }

    /// Whether each touch of an entry found its object so.
    #[tactic(auto, using(crate::proofs::CountLaws::open_next))]
    pub(crate) fn lets_pass(&self, entry: &Entry) -> bool
        ensures { result ≡ is_open entry.now.found (counts_in self.now) }
    {
        for found in entry.found.as_slice() {
            if !self.count(found.object()).meets(*found) {
                return false;
            }
        }
        true
    }

    /// Counts a touch.
    fn add(&mut self, found: Found) -> Result<(), AllocError>
        requires { AreFew self.old (2 ^ 80) }
        ensures counts { OnOk result ((object : ℕ) → counts_in self.new object ≡ count_with object found (counts_in self.old object)) }
        ensures few { OnOk result ((n : ℕ) → AreFew self.old n → AreFew self.new (n + 1)) }
    {
        let object = found.object();
        let count = self.count(object);
        self.objects.insert(object, count.after(found))?;
        Ok(())
    }

    /// Counts the touches of an entry.
    #[tactic(auto, using(crate::proofs::CountLaws::behind_next, crate::proofs::CountLaws::few_below))]
    pub(crate) fn add_entry(&mut self, entry: &Entry) -> Result<(), AllocError>
        requires { AreFew self.old (2 ^ 70) }
        ensures counts { OnOk result ((object : ℕ) → counts_in self.new object ≡ count_behind object entry.now.found (counts_in self.old object)) }
        ensures few { OnOk result ((n : ℕ) → AreFew self.old n → AreFew self.new (n + 3)) }
    {
        for found in entry.found.as_slice() {
            self.add(*found)?;
        }
        Ok(())
    }
}
