//! The versions and read totals of a space's objects.

ghost use Rattle.std.specs.Prelude.{◌≡◌, ◌<◌, [], ◌∷◌, length, slice_set, IfOk, IsTrue, ◌↔◌, replicate};
ghost use Rattle.rw_objects.specs.Counts.{no_count, count_at, count_after, found_by, CanCount, CanCountAll, all_found, counts_after};
ghost use Rattle.rw_objects.specs.Space.{RisesFrom, AllBelow};

use crate::count::Count;
use crate::few::Few;
use crate::touch::{Found, Mode, Touch};
use crate::touches::Touches;
use std::alloc::Global;
use std::marker::Model;
use wasm_types::NoMemory;

/// The version and the read total of each object. Contracts see the list, by object.
#[derive(Drop)]
pub struct Versions {
    counts: Vec<Count>,
}

impl Model for Versions {
    ghost use Rattle.std.specs.Prelude.{List};
    ghost use Rattle.rw_objects.specs.declared.count.Count.{Count};

    ghost Value = { List Count };

    ghost view = { λ v. v.counts.items };
}

impl Versions {
    /// Those of so many objects, all zero.
    pub fn new(alloc: Global, objects: u32) -> Result<Versions, NoMemory>
        ensures { IfOk result (λ versions. versions ≡ replicate objects no_count) }
    {
        let none = Count {
            version: 0,
            reads: 0,
        };
        let counts = vec![in alloc; none; objects as usize]?;
        Ok(Versions { counts })
    }

    /// The same counts once more.
    pub fn copied(&self, alloc: Global) -> Result<Versions, NoMemory>
        ensures { IfOk result (λ copy. copy ≡ self.now) }
    {
        let counts = self.counts.as_slice().to_vec(alloc)?;
        Ok(Versions { counts })
    }

    /// The allocator of the counts.
    pub fn allocator(&self) -> Global {
        *self.counts.allocator()
    }

    /// The count of an object; zero past the last one.
    pub fn at(&self, object: u32) -> Count
        ensures { result ≡ count_at self.now object }
    {
        match self.counts.get(object as usize) {
            Some(count) => *count,
            None => Count {
                version: 0,
                reads: 0,
            },
        }
    }

    /// What a touch would find.
    #[inline(always)]
    fn find(&self, touch: Touch) -> Found
        ensures { result ≡ found_by touch (count_at self.now touch.object) }
    {
        let Count { version, reads } = self.at(touch.object);
        match touch.mode {
            Mode::Read => Found::Read {
                object: touch.object,
                version,
            },
            Mode::Write => Found::Write {
                object: touch.object,
                version,
                reads,
            },
        }
    }

    /// Whether touches would find this.
    pub fn finds(&self, touches: &[Touch], found: &[Found]) -> bool
        ensures { IsTrue result ↔ (all_found touches.now (count_at self.now) ≡ found.now) }
    {
        match touches {
            [] => found.is_empty(),
            [touch, touches @ ..] => match found {
                [] => false,
                [first, found @ ..] => self.find(*touch) == *first && self.finds(touches, found),
            },
        }
    }

    /// Counts one touch, and answers what it found. A read adds one to the read total; a write sets it to 0 and adds
    /// one to the version.
    #[inline]
    pub fn touch(&mut self, touch: Touch) -> Found
        requires within { touch.object < length self.old }
        requires room { CanCount (count_at self.old touch.object) }
        ensures found { result ≡ found_by touch (count_at self.old touch.object) }
        ensures counts { self.new ≡ slice_set self.old touch.object (count_after touch.mode (count_at self.old touch.object)) }
    {
        let at = touch.object as usize;
        let Count { version, reads } = self.counts[at];
        match touch.mode {
            Mode::Read => {
                self.counts[at] = Count {
                    version,
                    reads: reads + 1,
                };
                Found::Read {
                    object: touch.object,
                    version,
                }
            }
            Mode::Write => {
                self.counts[at] = Count {
                    version: version + 1,
                    reads: 0,
                };
                Found::Write {
                    object: touch.object,
                    version,
                    reads,
                }
            }
        }
    }

    /// Counts the one touch of an operation, and answers what it found. It takes no memory.
    #[inline]
    pub fn touch_one(&mut self, touch: Touch) -> Few<Found>
        requires below { AllBelow (length self.old) (touch ∷ []) }
        requires room { CanCountAll (touch ∷ []) self.old }
        ensures found { result ≡ all_found (touch ∷ []) (count_at self.old) }
        ensures counts { count_at self.new ≡ counts_after (touch ∷ []) (count_at self.old) }
        ensures len { length self.new ≡ length self.old }
    {
        let found = self.touch(touch);
        Few::one(self.allocator(), found)
    }

    /// Counts the touches of an operation, and answers what they found. It takes no memory.
    pub fn touch_all(&mut self, touches: &Touches) -> Few<Found>
        requires rising { RisesFrom 0 touches.now }
        requires below { AllBelow (length self.old) touches.now }
        requires room { CanCountAll touches.now self.old }
        ensures found { result ≡ all_found touches.now (count_at self.old) }
        ensures counts { count_at self.new ≡ counts_after touches.now (count_at self.old) }
        ensures len { length self.new ≡ length self.old }
    {
        if let [touch] = touches.as_slice() {
            return self.touch_one(*touch);
        }
        let mut found = Few::new(self.allocator());
        for touch in touches.as_slice() {
            found.push(self.touch(*touch));
        }
        found
    }
}
