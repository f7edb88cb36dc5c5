//! The claimed places with their items, one after the other.

ghost use Rattle.std.specs.Prelude.{◌≡◌, ℕ, List};

use crate::Packed;
use crate::flat::Flat;
use crate::page::{Page, take_pair};
use crate::runs::PAGE;
use std::alloc::Global;
use std::collections::btree_map::Iter;
use std::marker::{Model, PhantomData};

/// The claimed places with their items, by rising place. Contracts see the list of those that are left.
#[derive(Drop)]
pub struct RunsIter<'a, T: Packed> {
    alloc: Global,
    pages: Iter<'a, u32, Page>,
    number: u32,
    left: u32,
    rest: &'a [u8],
    items: PhantomData<T>,
}

impl<'a, T: Packed> Model for RunsIter<'a, T> {
    ghost use Rattle.std.specs.Prelude.{ℕ, List};
    ghost use Rattle.log_pieces.specs.declared.flat.Flat.{Flat};
    ghost use Rattle.log_pieces.specs.Runs.{left_of, LeftLow};

    ghost Value = { List (ℕ × Flat T) };

    ghost view = { λ i. left_of T.read i.number i.left i.rest.now i.pages };

    ghost invariant = { λ i. LeftLow i.number i.pages };
}

impl<'a, T: Packed> RunsIter<'a, T> {
    ghost use Rattle.std.specs.Prelude.{◌≡◌};
    ghost use Rattle.log_pieces.specs.Runs.{claims, AreLow};

    /// Those of these pages.
    pub(crate) fn new(alloc: Global, pages: Iter<'a, u32, Page>) -> RunsIter<'a, T>
        requires { AreLow pages }
        ensures { result ≡ claims T.read pages.entry }
    {
        RunsIter {
            alloc,
            pages,
            number: 0,
            left: 0,
            rest: &[],
            items: PhantomData,
        }
    }
}

impl<'a, T: Packed> Iterator for RunsIter<'a, T> {
    type Item = (u32, Flat<T>);

    ghost use Rattle.std.specs.Iterator.{YieldsFirstBy, item_count};

    ghost next_gives = { YieldsFirstBy (λ x. x) (λ s. s) };

    ghost remaining = { item_count (λ s. s) };

    fn next(&mut self) -> Option<(u32, Flat<T>)> {
        loop {
            if self.left > 0 {
                self.left -= 1;
                match take_pair::<T>(self.alloc, self.rest) {
                    Some((pair, behind)) => {
                        self.rest = behind;
                        return Some((PAGE * self.number + u32::from(pair.0), pair.1));
                    }
                    None => self.left = 0,
                }
            } else {
                let (number, page) = self.pages.next()?;
                self.number = *number;
                self.left = page.count;
                self.rest = &page.bytes;
            }
        }
    }
}
