//! Claims as the bytes by which they are kept.

ghost use Rattle.std.specs.Prelude.{◌≡◌, ◌<◌, IfSome};
ghost use Rattle.log_pieces.specs.PackedClaim.{taken, read_pair};

use crate::Packed;
use crate::flat::Flat;
use crate::page::Page;
use crate::runs::PAGE;
use std::alloc::Global;
use std::collections::btree_map::Iter;
use std::marker::{Model, PhantomData};

/// What is claimed of a place: bytes that an item stands at the front of, or a clash. Contracts see the claim.
#[derive(Drop)]
pub struct PackedClaim<'a, T: Packed> {
    bytes: Option<&'a [u8]>,
    items: PhantomData<T>,
}

impl<'a, T: Packed> Model for PackedClaim<'a, T> {
    ghost use Rattle.log_pieces.specs.declared.flat.Flat.{Flat};
    ghost use Rattle.log_pieces.specs.PackedClaims.{claim_in, IsClaim};

    ghost Value = { Flat T };

    ghost view = { λ c. claim_in T.read c.bytes };

    ghost invariant = { λ c. IsClaim T.read c.bytes };
}

impl<'a, T: Packed> PackedClaim<'a, T> {
    ghost use Rattle.std.specs.Prelude.{◌≡◌};
    ghost use Rattle.log_pieces.specs.PackedClaims.{IsKeptIn};

    /// The bytes that the item stands at the front of, or nothing for a clash.
    pub fn bytes(&self) -> Option<&'a [u8]>
        ensures { IsKeptIn T.read self.now result }
    {
        self.bytes
    }

    /// The claim.
    pub fn claim(&self, alloc: Global) -> Flat<T>
        ensures { result ≡ self.now }
    {
        match self.bytes {
            Some(bytes) => match T::take(alloc, bytes) {
                Some((item, _)) => Flat::Known(item),
                None => Flat::Clash,
            },
            None => Flat::Clash,
        }
    }

    /// Puts the claim in the place of another, so that no item is moved where both are known.
    pub(crate) fn put(&self, alloc: Global, claim: &mut Flat<T>)
        ensures { claim.new ≡ self.now }
    {
        if let Some(bytes) = self.bytes {
            if let Flat::Known(item) = claim {
                if item.take_in_place(alloc, bytes) {
                    return;
                }
            }
        }
        *claim = self.claim(alloc);
    }
}

/// Takes a place and what is claimed there from the front of bytes.
pub(crate) fn pass_pair<T: Packed>(bytes: &[u8]) -> Option<((u8, PackedClaim<'_, T>), &[u8])>
    ensures taken { taken result ≡ read_pair T.read bytes.now }
    ensures low { IfSome result (λ r. r.0.0 < 128) }
{
    match bytes {
        [] => None,
        [mark, rest @ ..] => {
            if *mark >= 128 {
                let clash = PackedClaim {
                    bytes: None,
                    items: PhantomData,
                };
                return Some(((*mark - 128, clash), rest));
            }
            match T::skip(rest) {
                Some(behind) => {
                    let item = PackedClaim {
                        bytes: Some(rest),
                        items: PhantomData,
                    };
                    Some(((*mark, item), behind))
                }
                None => None,
            }
        }
    }
}

/// The claimed places with what is claimed of them, by rising place. Contracts see the list of those that are left.
#[derive(Drop)]
pub struct PackedClaims<'a, T: Packed> {
    pages: Iter<'a, u32, Page>,
    number: u32,
    left: u32,
    rest: &'a [u8],
    items: PhantomData<T>,
}

impl<'a, T: Packed> Model for PackedClaims<'a, T> {
    ghost use Rattle.std.specs.Prelude.{ℕ, List};
    ghost use Rattle.log_pieces.specs.declared.flat.Flat.{Flat};
    ghost use Rattle.log_pieces.specs.Runs.{left_of, LeftLow};

    ghost Value = { List (ℕ × Flat T) };

    ghost view = { λ i. left_of T.read i.number i.left i.rest.now i.pages };

    ghost invariant = { λ i. LeftLow i.number i.pages };
}

impl<'a, T: Packed> PackedClaims<'a, T> {
    ghost use Rattle.std.specs.Prelude.{◌≡◌};
    ghost use Rattle.log_pieces.specs.Runs.{claims, AreLow};

    /// Those of these pages.
    pub(crate) fn new(pages: Iter<'a, u32, Page>) -> PackedClaims<'a, T>
        requires { AreLow pages }
        ensures { result ≡ claims T.read pages.entry }
    {
        PackedClaims {
            pages,
            number: 0,
            left: 0,
            rest: &[],
            items: PhantomData,
        }
    }
}

impl<'a, T: Packed> Iterator for PackedClaims<'a, T> {
    type Item = (u32, PackedClaim<'a, T>);

    ghost use Rattle.std.specs.Iterator.{YieldsFirstBy, item_count};

    ghost next_gives = { YieldsFirstBy (λ x. x) (λ s. s) };

    ghost remaining = { item_count (λ s. s) };

    fn next(&mut self) -> Option<(u32, PackedClaim<'a, T>)> {
        loop {
            if self.left > 0 {
                self.left -= 1;
                match pass_pair::<T>(self.rest) {
                    Some((pair, behind)) => {
                        self.rest = behind;
                        return Some((PAGE * self.number + u32::from(pair.0), pair.1));
                    }
                    None => self.left = 0,
                }
            } else {
                let (number, page) = self.pages.next()?;
                self.number = *number;
                self.left = page.count;
                self.rest = &page.bytes;
            }
        }
    }
}
