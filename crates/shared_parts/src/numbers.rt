//! A number in two halves.

ghost use Rattle.std.specs.Prelude.{◌≡◌, ◌+◌};

use crate::grown::Half;
use std::marker::{Brand, Model, PhantomData};

/// Names one number. Each call of a program picks it.
pub trait Counting {
    ghost use Rattle.std.specs.Prelude.{ℕ};

    ghost number: { ℕ };
}

impl Counting for Brand {
    ghost number = { 0 };
}

/// The first half of a number. Both halves know the number, and only with both at hand does it change.
#[derive(Drop)]
pub struct FirstHalf<N: Counting> {
    half: Half,
    of: PhantomData<N>,
}

impl<N: Counting> Model for FirstHalf<N> {
    ghost use Rattle.std.specs.Prelude.{◌≡◌, ℕ};

    ghost Value = { ℕ };

    ghost view = { λ h. h.half.number };

    ghost invariant = { λ h. h.half.name ≡ N.number };
}

/// The second half of a number.
#[derive(Drop)]
pub struct SecondHalf<N: Counting> {
    half: Half,
    of: PhantomData<N>,
}

impl<N: Counting> Model for SecondHalf<N> {
    ghost use Rattle.std.specs.Prelude.{◌≡◌, ℕ};

    ghost Value = { ℕ };

    ghost view = { λ h. h.half.number };

    ghost invariant = { λ h. h.half.name ≡ N.number };
}

/// The number 0 in two halves, which has no name yet. Contracts see what its name has to be.
#[derive(Drop)]
pub struct UnnamedNumber {
    first: Half,
    second: Half,
}

impl Model for UnnamedNumber {
    ghost use Rattle.std.specs.Prelude.{◌≡◌, ℕ};

    ghost Value = { ℕ };

    ghost view = { λ u. u.first.name };

    ghost invariant = { λ u. (u.second.name ≡ u.first.name) × (u.first.number ≡ 0) × (u.second.number ≡ 0) };
}

impl UnnamedNumber {
    /// A new number, which is 0.
    pub fn new() -> UnnamedNumber {
        let (first, second) = Half::pair();
        UnnamedNumber { first, second }
    }

    /// Its halves under its name.
    pub fn named<N: Counting>(self) -> (FirstHalf<N>, SecondHalf<N>)
        requires { self ≡ N.number }
        ensures first { result.0 ≡ 0 }
        ensures second { result.1 ≡ 0 }
    {
        let UnnamedNumber { first, second } = self;
        (
            FirstHalf {
                half: first,
                of: PhantomData,
            },
            SecondHalf {
                half: second,
                of: PhantomData,
            },
        )
    }
}

impl<N: Counting> FirstHalf<N> {
    /// Both halves know the same number.
    pub fn meet(&self, other: &SecondHalf<N>)
        ensures met { self.now ≡ other.now }
    {
        self.half.meet(&other.half);
    }

    /// Makes the number greater.
    pub fn add(&mut self, other: &mut SecondHalf<N>, amount: u64)
        ensures first { self.new ≡ self.old + amount }
        ensures second { other.new ≡ other.old + amount }
    {
        self.half.add(&mut other.half, amount);
    }
}
