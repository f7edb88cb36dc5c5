//! What is claimed of places, in few bytes.

ghost use Rattle.std.specs.Prelude.{◌≡◌, ℕ, ◌+◌, ◌*◌, ◌<◌, ◌≤◌, ◌^◌, List, [], ◌∷◌, ◌++◌, length, take, Some, None, IfOk, OnOk, OnErr};
ghost use Rattle.std.specs.Ordering.{nat_cmp};
ghost use Rattle.log_pieces.specs.Keyed.{value_at};
ghost use Rattle.log_pieces.specs.PackedClaim.{read_pairs};
ghost use Rattle.log_pieces.specs.Pages.{AreJoined, ClaimsJoined, IsPage, pairs_of};
ghost use Rattle.log_pieces.specs.Runs.{claims, runs, ArePages, IsAhead};

use crate::Packed;
use crate::flat::Flat;
use crate::packed_claims::PackedClaims;
use crate::page::{Page, empty_page, join_claim, join_page, page_of, spot};
use crate::runs_cursor::{Ahead, RunsCursor};
use crate::runs_iter::RunsIter;
use std::alloc::Global;
use std::collections::BTreeMap;
use std::marker::{Model, PhantomData};
use wasm_types::NoMemory;

/// How many places a page has.
pub(crate) const PAGE: u32 = 128;

/// A number past all places.
const NOWHERE: u64 = 5_000_000_000;

/// Joins items of one page to what is claimed of their places.
fn join_stretch<T: Packed>(
    pages: &mut BTreeMap<u32, Page>,
    alloc: Global,
    room: &mut Vec<u8>,
    number: u32,
    at: u8,
    items: &[T],
) -> Result<(), NoMemory>
    requires number { number < 2 ^ 25 }
    requires at { at + length items.now ≤ 128 }
    requires pages { ArePages T.spelled T.read T.Fits pages.old.entries }
    ensures pages { ArePages T.spelled T.read T.Fits pages.new.entries }
    ensures joined { OnOk result (ClaimsJoined T.eq (claims T.read pages.old.entries) (128 * number + at) items.now (claims T.read pages.new.entries)) }
    ensures left { OnErr result ((j : ℕ) × ClaimsJoined T.eq (claims T.read pages.old.entries) (128 * number + at) (take j items.now) (claims T.read pages.new.entries)) }
{
    match pages.get_mut(&number) {
        Some(page) => {
            let joined = join_page::<T>(page, alloc, room, at, items);
            // A fact for the prover: the numbers of the pages rise.
            let _count = pages.len();
            joined
        }
        None => {
            let page = page_of::<T>(alloc, room, at, items)?;
            pages.insert(number, page)?;
            Ok(())
        }
    }
}

/// Joins one claim to what is claimed of a place. After `NoMemory` the same is claimed as before.
fn join_place<T: Packed>(
    pages: &mut BTreeMap<u32, Page>,
    alloc: Global,
    place: u32,
    claim: &Flat<T>,
) -> Result<(), NoMemory>
    requires pages { ArePages T.spelled T.read T.Fits pages.old.entries }
    ensures pages { ArePages T.spelled T.read T.Fits pages.new.entries }
    ensures joined { OnOk result (AreJoined T.eq (claims T.read pages.old.entries) ((place, claim.now) ∷ []) (claims T.read pages.new.entries)) }
    ensures left { OnErr result (AreJoined T.eq (claims T.read pages.old.entries) [] (claims T.read pages.new.entries)) }
{
    let number = place / PAGE;
    let at = (place % PAGE) as u8;
    match pages.get_mut(&number) {
        Some(page) => {
            let joined = join_claim::<T>(page, alloc, at, claim);
            // A fact for the prover: the numbers of the pages rise.
            let _count = pages.len();
            joined
        }
        None => {
            let mut page = empty_page::<T>(alloc);
            join_claim::<T>(&mut page, alloc, at, claim)?;
            pages.insert(number, page)?;
            Ok(())
        }
    }
}

/// Joins items to what is claimed of consecutive places, page by page.
fn join_all<T: Packed>(
    pages: &mut BTreeMap<u32, Page>,
    alloc: Global,
    first: u32,
    items: &[T],
) -> Result<(), NoMemory>
    requires places { first + length items.now < 2 ^ 32 }
    requires pages { ArePages T.spelled T.read T.Fits pages.old.entries }
    ensures pages { ArePages T.spelled T.read T.Fits pages.new.entries }
    ensures joined { OnOk result (ClaimsJoined T.eq (claims T.read pages.old.entries) first items.now (claims T.read pages.new.entries)) }
    ensures left { OnErr result ((j : ℕ) × ClaimsJoined T.eq (claims T.read pages.old.entries) first (take j items.now) (claims T.read pages.new.entries)) }
{
    let mut room = Vec::new(alloc);
    let mut place = first;
    let mut rest = items;
    while !rest.is_empty() {
        let at = place % PAGE;
        let (now, later) = rest.split_at(rest.len().min((PAGE - at) as usize));
        join_stretch::<T>(pages, alloc, &mut room, place / PAGE, at as u8, now)?;
        place += now.len() as u32;
        rest = later;
    }
    Ok(())
}

/// Items that any number of sides may claim, by their places. They are kept as bytes, some 128 places together.
/// Contracts see the list of the claimed places with their items, by rising place.
#[derive(Drop)]
pub struct Runs<T: Packed> {
    alloc: Global,
    pages: BTreeMap<u32, Page>,
    items: PhantomData<T>,
}

impl<T: Packed> Model for Runs<T> {
    ghost use Rattle.std.specs.Prelude.{ℕ, List};
    ghost use Rattle.log_pieces.specs.declared.flat.Flat.{Flat};
    ghost use Rattle.log_pieces.specs.Runs.{claims, ArePages};

    ghost Value = { List (ℕ × Flat T) };

    ghost view = { λ r. claims T.read r.pages.entries };

    ghost invariant = { λ r. ArePages T.spelled T.read T.Fits r.pages.entries };
}

impl<T: Packed> Runs<T> {
    ghost use Rattle.std.specs.Prelude.{◌≡◌, ◌↔◌, IsTrue, [], None};
    ghost use Rattle.std.specs.Ordering.{nat_cmp};
    ghost use Rattle.std.specs.List.Sorted.{IsStrictlySortedBy};
    ghost use Rattle.std.specs.Map.{keys_of};
    ghost use Rattle.log_pieces.specs.Keyed.{value_at};

    /// No place is claimed. It takes no memory.
    pub fn new(alloc: Global) -> Self
        ensures { result ≡ [] }
    {
        Runs {
            alloc,
            pages: BTreeMap::new(alloc),
            items: PhantomData,
        }
    }

    /// The places stand in rising order.
    pub fn is_ordered(&self)
        ensures { IsStrictlySortedBy nat_cmp (keys_of self.now) }
    {
        // A fact for the prover, to which this function gives its name.
        let _count = self.pages.len();
    }

    /// What is claimed of a place.
    pub fn get(&self, place: u32) -> Option<Flat<T>>
        ensures { result ≡ value_at nat_cmp self.now place }
    {
        match self.pages.get(&(place / PAGE)) {
            Some(page) => get_in::<T>(self.alloc, page, (place % PAGE) as u8),
            None => None,
        }
    }

    /// The claimed places with their items, by rising place.
    pub fn iter(&self) -> RunsIter<'_, T>
        ensures rest { result ≡ self.now }
        ensures ordered { IsStrictlySortedBy nat_cmp (keys_of self.now) }
    {
        RunsIter::new(self.alloc, self.pages.iter())
    }

    /// The same, with what is claimed as the bytes by which it is kept.
    pub fn packed(&self) -> PackedClaims<'_, T>
        ensures rest { result ≡ self.now }
        ensures ordered { IsStrictlySortedBy nat_cmp (keys_of self.now) }
    {
        PackedClaims::new(self.pages.iter())
    }

    /// Whether no place is claimed.
    pub fn is_empty(&self) -> bool
        ensures { IsTrue result ↔ (self.now ≡ []) }
    {
        self.iter().next().is_none()
    }

    /// Joins items of consecutive places from a first one on. After `NoMemory` the first of them are joined.
    pub fn join_items(&mut self, alloc: Global, first: u32, items: &[T]) -> Result<(), NoMemory>
        requires { first + length items.now < 2 ^ 32 }
        ensures joined { OnOk result (ClaimsJoined T.eq self.old first items.now self.new) }
        ensures left { OnErr result ((j : ℕ) × ClaimsJoined T.eq self.old first (take j items.now) self.new) }
    {
        join_all::<T>(&mut self.pages, alloc, first, items)
    }

    /// Joins one claim to what is claimed of a place. After `NoMemory` the same is claimed as before.
    pub fn join_claim(&mut self, alloc: Global, place: u32, claim: &Flat<T>) -> Result<(), NoMemory>
        ensures joined { OnOk result (AreJoined T.eq self.old ((place, claim.now) ∷ []) self.new) }
        ensures left { OnErr result (AreJoined T.eq self.old [] self.new) }
    {
        join_place::<T>(&mut self.pages, alloc, place, claim)
    }

    /// Joins what the other claims, by rising place. After `NoMemory` the first of its claims are joined, and joining
    /// again completes it.
    pub fn join_runs(&mut self, alloc: Global, other: &Runs<T>) -> Result<(), NoMemory>
        ensures joined { OnOk result (AreJoined T.eq self.old other.now self.new) }
        ensures left { OnErr result ((j : ℕ) × AreJoined T.eq self.old (take j other.now) self.new) }
    {
        for (place, claim) in other.iter() {
            self.join_claim(alloc, place, &claim)?;
        }
        Ok(())
    }

    /// How many runs of neighbouring places are claimed.
    pub fn runs(&self) -> u32
        ensures { result ≡ runs self.now }
    {
        let mut count = 0;
        let mut next = NOWHERE;
        for (place, _) in self.iter() {
            if u64::from(place) != next {
                count += 1;
            }
            next = behind(place);
        }
        count
    }

    /// A reader of these places, which reads places that rise without searching.
    pub fn cursor(&self) -> RunsCursor<'_, T>
        ensures { result ≡ self.now }
    {
        RunsCursor::new(self)
    }

    /// The allocator of what is read.
    pub(crate) fn allocator(&self) -> Global {
        self.alloc
    }

    /// What is claimed of a page's places, from the first on.
    pub(crate) fn page_ahead(&self, number: u32) -> Ahead<'_>
        ensures ahead { IsAhead self.now number result.low (read_pairs T.read result.left result.rest.now) }
        ensures low { result.low ≡ 0 }
    {
        match self.pages.get(&number) {
            Some(page) => Ahead {
                low: 0,
                left: page.count,
                rest: &page.bytes,
            },
            None => Ahead {
                low: 0,
                left: 0,
                rest: &[],
            },
        }
    }
}

/// The place behind one.
fn behind(place: u32) -> u64
    ensures value { result ≡ place + 1 }
    ensures bound { result ≤ 4294967296 }
{
    u64::from(place) + 1
}

/// What a page has at one of its places.
fn get_in<T: Packed>(alloc: Global, page: &Page, at: u8) -> Option<Flat<T>>
    requires at { at < 128 }
    requires page { IsPage T.spelled T.read T.Fits page.now }
    ensures { result ≡ value_at nat_cmp (pairs_of T.read page.now) at }
{
    let (_, found, _) = spot::<T>(alloc, &page.bytes, page.count, at);
    found
}
