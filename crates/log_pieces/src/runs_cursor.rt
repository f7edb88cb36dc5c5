//! Claims read place by place.

ghost use Rattle.std.specs.Prelude.{◌≡◌, ℕ, ◌<◌, ◌≤◌};
ghost use Rattle.std.specs.Ordering.{nat_cmp};
ghost use Rattle.log_pieces.specs.Keyed.{value_at};
ghost use Rattle.log_pieces.specs.PackedClaim.{Rising, read_pairs};

use crate::Packed;
use crate::flat::Flat;
use crate::packed_claims::{PackedClaim, pass_pair};
use crate::runs::{PAGE, Runs};
use std::marker::Model;

/// What is left to read of a page: so many pairs, at places from `low` on.
#[derive(Clone, Copy)]
pub(crate) struct Ahead<'a> {
    pub(crate) low: u8,
    pub(crate) left: u32,
    pub(crate) rest: &'a [u8],
}

/// What is claimed of a place, and what is left to read behind it.
fn read_at<T: Packed>(ahead: Ahead<'_>, at: u8) -> (Option<PackedClaim<'_, T>>, Ahead<'_>)
    requires from { ahead.low ≤ at }
    requires at { at < 128 }
    requires rising { Rising ahead.low (read_pairs T.read ahead.left ahead.rest.now) 128 }
    ensures found { result.0 ≡ value_at nat_cmp (read_pairs T.read ahead.entry.left ahead.entry.rest.now) at }
    ensures low { ahead.entry.low ≤ result.1.low }
    ensures rising { Rising result.1.low (read_pairs T.read result.1.left result.1.rest.now) 128 }
    ensures ahead { (q : ℕ) → result.1.low ≤ q → value_at nat_cmp (read_pairs T.read result.1.left result.1.rest.now) q ≡ value_at nat_cmp (read_pairs T.read ahead.entry.left ahead.entry.rest.now) q }
{
    let mut now = ahead;
    loop {
        if now.left == 0 {
            return (None, now);
        }
        match pass_pair::<T>(now.rest) {
            None => return (None, now),
            Some((pair, behind)) => {
                if pair.0 > at {
                    return (None, now);
                }
                now = Ahead {
                    low: pair.0 + 1,
                    left: now.left - 1,
                    rest: behind,
                };
                if pair.0 == at {
                    return (Some(pair.1), now);
                }
            }
        }
    }
}

/// Reads what is claimed of places. Those that rise are read one behind the other, without a search. Contracts see
/// the list of the claimed places with their items.
#[derive(Drop)]
pub struct RunsCursor<'a, T: Packed> {
    runs: &'a Runs<T>,
    number: u32,
    ahead: Ahead<'a>,
}

impl<'a, T: Packed> Model for RunsCursor<'a, T> {
    ghost use Rattle.std.specs.Prelude.{ℕ, List};
    ghost use Rattle.log_pieces.specs.declared.flat.Flat.{Flat};
    ghost use Rattle.log_pieces.specs.PackedClaim.{read_pairs};
    ghost use Rattle.log_pieces.specs.Runs.{IsAhead};

    ghost Value = { List (ℕ × Flat T) };

    ghost view = { λ c. c.runs.now };

    ghost invariant = { λ c. IsAhead c.runs.now c.number c.ahead.low (read_pairs T.read c.ahead.left c.ahead.rest.now) };
}

impl<'a, T: Packed> RunsCursor<'a, T> {
    ghost use Rattle.std.specs.Prelude.{◌≡◌};
    ghost use Rattle.std.specs.Ordering.{nat_cmp};
    ghost use Rattle.log_pieces.specs.Keyed.{value_at};
    ghost use Rattle.log_pieces.specs.PackedClaim.{read_pairs};
    ghost use Rattle.log_pieces.specs.Runs.{IsAhead};

    /// A reader of these places.
    pub(crate) fn new(runs: &'a Runs<T>) -> RunsCursor<'a, T>
        ensures { result ≡ runs.now }
    {
        RunsCursor {
            runs,
            number: 0,
            ahead: runs.page_ahead(0),
        }
    }

    /// What is left to read of that page, from a place of it on.
    fn ahead_of(&self, number: u32, at: u8) -> Ahead<'a>
        ensures ahead { IsAhead self.now number result.low (read_pairs T.read result.left result.rest.now) }
        ensures low { result.low ≤ at }
    {
        if number == self.number && self.ahead.low <= at {
            return self.ahead;
        }
        self.runs.page_ahead(number)
    }

    /// Reads what is claimed of a place, in the place of what was read before, so that no item is moved.
    pub fn read(&mut self, place: u32, claim: &mut Option<Flat<T>>)
        ensures found { claim.new ≡ value_at nat_cmp self.old place }
        ensures same { self.new ≡ self.old }
    {
        let number = place / PAGE;
        let at = (place % PAGE) as u8;
        let ahead = self.ahead_of(number, at);
        let (found, ahead) = read_at::<T>(ahead, at);
        self.number = number;
        self.ahead = ahead;
        let alloc = self.runs.allocator();
        match found {
            None => *claim = None,
            Some(found) => match claim {
                None => *claim = Some(found.claim(alloc)),
                Some(before) => found.put(alloc, before),
            },
        }
    }
}
