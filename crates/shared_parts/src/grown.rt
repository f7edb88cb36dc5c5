//! The tokens beneath the public ones. A clause sees the name of the list or the number that a token is of.
//! None has a byte: lists and numbers stand in proofs alone. So the functions here have nothing to do at run time, and
//! an argument that clauses alone speak of is named by a `let _`.

ghost use Rattle.std.specs.Prelude.{◌≡◌, ℕ, ◌+◌, List, [], ◌∷◌, ◌++◌};
ghost use base.Stored.{coded_list};
ghost use base.Fml.{ftrue};
ghost use denote.Sharing.{said};
ghost use mathlib.Core.List.{IsPrefix};
ghost use Rattle.shared_parts.specs.Owned.{whole_owns, whole_shares, past_owns, half_owns, half_shares};

use std::marker::{Model, PhantomData};
use std::snapshot::Snapshot;

/// The whole list, and the right to put an item behind the last one, which no other has.
pub struct Whole<C> {
    marker: PhantomData<C>,
    pub ghost name: { ℕ },
    pub ghost items: { List C } by { coded_list C.code },
}

impl<C> Model for Whole<C> {
    ghost also_owns = { λ w. whole_owns C.row.coded.code w.name w.items };

    ghost also_shares = { λ w _ κ. whole_shares C.row.coded.code w.name w.items κ };
}

/// The list has once been this.
pub struct Past<C> {
    marker: PhantomData<C>,
    pub ghost name: { ℕ },
    pub ghost items: { List C } by { coded_list C.code },
}

impl<C> Model for Past<C> {
    ghost also_owns = { λ p. past_owns C.row.coded.code p.name p.items };

    ghost also_shares = { λ p _ κ. said (past_owns C.row.coded.code p.name p.items) κ };
}

/// One half of the right to change a number.
pub struct Half {
    marker: PhantomData<()>,
    pub ghost name: { ℕ },
    pub ghost number: { ℕ },
}

impl Model for Half {
    ghost also_owns = { λ h. half_owns h.name h.number };

    ghost also_shares = { λ h _ κ. half_shares h.name h.number κ };
}

/// A list of one owner.
pub struct Noted<C> {
    marker: PhantomData<C>,
    pub ghost items: { List C } by { coded_list C.code },
}

impl<C> Model for Noted<C> {
    ghost also_owns = { λ _. ftrue };
}

impl<C> Whole<C> {
    /// A new list with no item.
    pub fn new() -> Whole<C>
        ensures { result.items ≡ [] }
    {
        Whole {
            marker: PhantomData,
        }
    }

    /// Puts an item behind the others.
    pub fn push(&mut self, item: &Snapshot<C>)
        ensures name { self.new.name ≡ self.old.name }
        ensures items { self.new.items ≡ self.old.items ++ item.now.value ∷ [] }
    {
        let _ = item;
    }

    /// Knowledge of all items so far.
    pub fn reached(&self) -> Past<C>
        ensures name { result.name ≡ self.now.name }
        ensures items { result.items ≡ self.now.items }
    {
        Past {
            marker: PhantomData,
        }
    }

    /// What another knows is a beginning of the items.
    pub fn meet(&self, past: &Past<C>)
        requires { past.now.name ≡ self.now.name }
        ensures { IsPrefix past.now.items self.now.items }
    {
        let _ = past;
    }
}

impl<C> Past<C> {
    /// A copy.
    pub fn again(&self) -> Past<C>
        ensures name { result.name ≡ self.now.name }
        ensures items { result.items ≡ self.now.items }
    {
        Past {
            marker: PhantomData,
        }
    }
}

impl Half {
    /// The two halves of a new number, which is 0.
    pub fn pair() -> (Half, Half)
        ensures name { result.0.name ≡ result.1.name }
        ensures first { result.0.number ≡ 0 }
        ensures second { result.1.number ≡ 0 }
    {
        (
            Half {
                marker: PhantomData,
            },
            Half {
                marker: PhantomData,
            },
        )
    }

    /// Both halves know the same number.
    pub fn meet(&self, other: &Half)
        requires { self.now.name ≡ other.now.name }
        ensures { self.now.number ≡ other.now.number }
    {
        let _ = other;
    }

    /// Makes the number greater, with both halves at hand.
    pub fn add(&mut self, other: &mut Half, amount: u64)
        requires { self.old.name ≡ other.old.name }
        ensures first_name { self.new.name ≡ self.old.name }
        ensures second_name { other.new.name ≡ other.old.name }
        ensures first { self.new.number ≡ self.old.number + amount }
        ensures second { other.new.number ≡ other.old.number + amount }
    {
        let _ = other;
        let _ = amount;
    }
}

impl<C> Noted<C> {
    /// No items.
    pub fn new() -> Noted<C>
        ensures { result.items ≡ [] }
    {
        Noted {
            marker: PhantomData,
        }
    }

    /// Puts an item behind the others.
    pub fn push(&mut self, item: &Snapshot<C>)
        ensures { self.new.items ≡ self.old.items ++ item.now.value ∷ [] }
    {
        let _ = item;
    }
}

impl<C> Drop for Whole<C> {
    fn drop(self) {
        let Self { marker: _ } = self;
    }
}

impl<C> Drop for Past<C> {
    fn drop(self) {
        let Self { marker: _ } = self;
    }
}

impl Drop for Half {
    fn drop(self) {
        let Self { marker: _ } = self;
    }
}

impl<C> Drop for Noted<C> {
    fn drop(self) {
        let Self { marker: _ } = self;
    }
}

unsafe impl<C> Send for Whole<C> {}

unsafe impl<C> Sync for Whole<C> {}

unsafe impl<C> Send for Past<C> {}

unsafe impl<C> Sync for Past<C> {}

unsafe impl Send for Half {}

unsafe impl Sync for Half {}

unsafe impl<C> Send for Noted<C> {}

unsafe impl<C> Sync for Noted<C> {}
