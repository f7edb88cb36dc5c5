//! A page: what is claimed of 128 places, in few bytes.

ghost use Rattle.std.specs.Prelude.{◌≡◌, ℕ, ◌+◌, ◌<◌, ◌≤◌, length, take, List, [], ◌∷◌, ◌++◌, Some, None, Ok, true, IfOk, IfSome, OnOk, OnErr, if◌then◌else◌};
ghost use Rattle.std.specs.List.{flat_map};
ghost use Rattle.std.specs.Str.{bytes_eq};
ghost use Rattle.log_pieces.specs.Flat.{flat_joined};
ghost use Rattle.log_pieces.specs.Pages.{pairs_of, IsPage, AreJoined, ClaimsJoined};
ghost use Rattle.log_pieces.specs.declared.flat.Flat.{Flat};
ghost use Rattle.log_pieces.specs.PackedClaim.{taken, read_pair, read_pairs, place_and_rest, item_of, claim_bytes, pair_bytes, FitPairs, placed, Spelled, IsSpot};

use crate::Packed;
use crate::flat::Flat;
use crate::packed_claims::pass_pair;
use std::alloc::Global;
use wasm_types::NoMemory;

/// Takes a place and what is claimed there from the front of bytes.
pub(crate) fn take_pair<T: Packed>(alloc: Global, bytes: &[u8]) -> Option<((u8, Flat<T>), &[u8])>
    ensures taken { taken result ≡ read_pair T.read bytes.now }
    ensures low { IfSome result (λ r. r.0.0 < 128) }
{
    match bytes {
        [] => None,
        [mark, rest @ ..] => {
            if *mark >= 128 {
                return Some(((*mark - 128, Flat::Clash), rest));
            }
            match T::take(alloc, rest) {
                Some((item, behind)) => Some(((*mark, Flat::Known(item)), behind)),
                None => None,
            }
        }
    }
}

/// What is claimed of the places of a page: so many pairs, one behind the other.
#[derive(Debug, Drop)]
pub struct Page {
    pub(crate) bytes: Vec<u8>,
    pub(crate) count: u32,
}

/// The place at the front of bytes, and the bytes behind what is claimed there.
pub(crate) fn skip_pair<T: Packed>(bytes: &[u8]) -> Option<(u8, &[u8])>
    ensures { taken result ≡ place_and_rest (read_pair T.read bytes.now) }
{
    match pass_pair::<T>(bytes) {
        Some((pair, behind)) => Some((pair.0, behind)),
        None => None,
    }
}

/// What is claimed at the front of bytes, between the bytes from there on and those behind it.
pub(crate) fn found_here<T: Packed>(alloc: Global, bytes: &[u8]) -> (&[u8], Option<Flat<T>>, &[u8])
    ensures from { result.0.now ≡ bytes.now }
    ensures found { result.1 ≡ item_of (read_pair T.read bytes.now) }
    ensures behind { (pair : ℕ × Flat T) (behind : List ℕ) → read_pair T.read bytes.now ≡ Some (pair, behind) → result.2.now ≡ behind }
{
    match take_pair::<T>(alloc, bytes) {
        Some((pair, behind)) => (bytes, Some(pair.1), behind),
        None => (bytes, None, bytes),
    }
}

/// The bytes from a place on, what is claimed there, and the bytes behind it.
pub(crate) fn spot<T: Packed>(
    alloc: Global,
    bytes: &[u8],
    count: u32,
    at: u8,
) -> (&[u8], Option<Flat<T>>, &[u8])
    requires at { at < 128 }
    requires page { Spelled T.spelled T.Fits count bytes.now (read_pairs T.read count bytes.now) }
    ensures { IsSpot T.spelled T.Fits (read_pairs T.read count bytes.now) bytes.now at result.0.now result.1 result.2.now }
{
    let mut rest = bytes;
    for _ in 0..count {
        match skip_pair::<T>(rest) {
            None => return (rest, None, rest),
            Some((place, behind)) => {
                if place > at {
                    return (rest, None, rest);
                }
                if place == at {
                    return found_here(alloc, rest);
                }
                rest = behind;
            }
        }
    }
    (rest, None, rest)
}

/// Bytes with an item between those before its place and those behind it.
fn with_item<T: Packed>(
    alloc: Global,
    front: &[u8],
    at: u8,
    item: &T,
    behind: &[u8],
) -> Result<Vec<u8>, NoMemory>
    ensures bytes { IfOk result (λ bytes. bytes.items ≡ front.now ++ claim_bytes T.spelled at (Flat.Known item.now) ++ behind.now) }
    ensures fits { OnOk result (T.Fits item.now) }
{
    let mut bytes = Vec::with_capacity(
        alloc,
        front.len().saturating_add(behind.len()).saturating_add(66),
    )?;
    bytes.extend_from_slice(front)?;
    bytes.push(at)?;
    item.put(&mut bytes)?;
    bytes.extend_from_slice(behind)?;
    Ok(bytes)
}

/// Bytes with a clash between those before its place and those behind it.
fn with_clash<T: Packed>(
    alloc: Global,
    front: &[u8],
    at: u8,
    behind: &[u8],
) -> Result<Vec<u8>, NoMemory>
    requires { at < 128 }
    ensures { IfOk result (λ bytes. bytes.items ≡ front.now ++ claim_bytes T.spelled at Flat.Clash ++ behind.now) }
{
    let mut bytes = Vec::with_capacity(
        alloc,
        front.len().saturating_add(behind.len()).saturating_add(1),
    )?;
    bytes.extend_from_slice(front)?;
    bytes.push(at + 128)?;
    bytes.extend_from_slice(behind)?;
    Ok(bytes)
}

/// Joins an item to what is claimed of a place. After `NoMemory` nothing is changed.
pub(crate) fn join_one<T: Packed>(
    page: &mut Page,
    alloc: Global,
    at: u8,
    item: &T,
) -> Result<(), NoMemory>
    requires at { at < 128 }
    requires page { IsPage T.spelled T.read T.Fits page.old }
    ensures page { IsPage T.spelled T.read T.Fits page.new }
    ensures joined { OnOk result (ClaimsJoined T.eq (pairs_of T.read page.old) at (item.now ∷ []) (pairs_of T.read page.new)) }
    ensures left { OnErr result (page.new ≡ page.old) }
{
    let (from, found, behind) = spot::<T>(alloc, &page.bytes, page.count, at);
    let (front, _) = page.bytes.split_at(page.bytes.len() - from.len());
    match found {
        None => {
            let bytes = with_item::<T>(alloc, front, at, item, behind)?;
            page.bytes = bytes;
            page.count += 1;
        }
        Some(mine) => {
            if is_item(&mine, item) {
                return Ok(());
            }
            let bytes = with_clash::<T>(alloc, front, at, behind)?;
            page.bytes = bytes;
        }
    }
    Ok(())
}

/// Whether an item alone is claimed.
fn is_item<T: Packed>(claimed: &Flat<T>, item: &T) -> bool
    ensures { flat_joined T.eq claimed.now (Flat.Known item.now) ≡ (if result then claimed.now else Flat.Clash) }
{
    match claimed {
        Flat::Known(mine) => mine == item,
        Flat::Clash => false,
    }
}

/// Puts items of consecutive places behind other bytes.
fn put_items<T: Packed>(bytes: &mut Vec<u8>, at: u8, items: &[T]) -> Result<(), NoMemory>
    requires { at + length items.now ≤ 128 }
    ensures put { OnOk result (bytes.new.items ≡ bytes.old.items ++ flat_map (pair_bytes T.spelled) (placed at items.now)) }
    ensures fits { OnOk result (FitPairs T.Fits (placed at items.now)) }
{
    let mut place = at;
    for item in items {
        bytes.push(place)?;
        item.put(bytes)?;
        place += 1;
    }
    Ok(())
}

/// The page of items at consecutive places. Its bytes are put together in `room`, so that they take no more than they
/// need.
pub(crate) fn page_of<T: Packed>(
    alloc: Global,
    room: &mut Vec<u8>,
    at: u8,
    items: &[T],
) -> Result<Page, NoMemory>
    requires { at + length items.now ≤ 128 }
    ensures page { IfOk result (IsPage T.spelled T.read T.Fits) }
    ensures pairs { IfOk result (λ page. pairs_of T.read page ≡ placed at items.now) }
{
    room.clear();
    put_items::<T>(room, at, items)?;
    Ok(Page {
        bytes: Vec::from_slice(alloc, room)?,
        count: items.len() as u32,
    })
}

/// Joins items to what is claimed of consecutive places. After `NoMemory` the first of them are joined.
pub(crate) fn join_items<T: Packed>(
    page: &mut Page,
    alloc: Global,
    at: u8,
    items: &[T],
) -> Result<(), NoMemory>
    requires at { at + length items.now ≤ 128 }
    requires page { IsPage T.spelled T.read T.Fits page.old }
    ensures page { IsPage T.spelled T.read T.Fits page.new }
    ensures joined { OnOk result (ClaimsJoined T.eq (pairs_of T.read page.old) at items.now (pairs_of T.read page.new)) }
    ensures left { OnErr result ((j : ℕ) × ClaimsJoined T.eq (pairs_of T.read page.old) at (take j items.now) (pairs_of T.read page.new)) }
{
    let mut place = at;
    for item in items {
        join_one::<T>(page, alloc, place, item)?;
        place += 1;
    }
    Ok(())
}

fn are_same(mine: &[u8], others: &[u8]) -> bool
    ensures { result ≡ bytes_eq mine.now others.now }
{
    mine == others
}

/// Whether a page has items at consecutive places, and nothing else. The items' bytes are put together in `room`.
fn has_items<T: Packed>(
    page: &Page,
    room: &mut Vec<u8>,
    at: u8,
    items: &[T],
) -> Result<bool, NoMemory>
    requires { at + length items.now ≤ 128 }
    ensures { result ≡ Ok true → pairs_of T.read page.now ≡ placed at items.now }
{
    if page.count as usize != items.len() {
        return Ok(false);
    }
    room.clear();
    put_items::<T>(room, at, items)?;
    Ok(are_same(page.bytes.as_slice(), room.as_slice()))
}

/// Joins items as `join_items` does, at once where the page has just these: they often come again.
pub(crate) fn join_page<T: Packed>(
    page: &mut Page,
    alloc: Global,
    room: &mut Vec<u8>,
    at: u8,
    items: &[T],
) -> Result<(), NoMemory>
    requires at { at + length items.now ≤ 128 }
    requires page { IsPage T.spelled T.read T.Fits page.old }
    ensures page { IsPage T.spelled T.read T.Fits page.new }
    ensures joined { OnOk result (ClaimsJoined T.eq (pairs_of T.read page.old) at items.now (pairs_of T.read page.new)) }
    ensures left { OnErr result ((j : ℕ) × ClaimsJoined T.eq (pairs_of T.read page.old) at (take j items.now) (pairs_of T.read page.new)) }
{
    if has_items::<T>(page, room, at, items)? {
        return Ok(());
    }
    join_items::<T>(page, alloc, at, items)
}

/// Joins a clash to what is claimed of a place. After `NoMemory` nothing is changed.
pub(crate) fn join_clash<T: Packed>(page: &mut Page, alloc: Global, at: u8) -> Result<(), NoMemory>
    requires at { at < 128 }
    requires page { IsPage T.spelled T.read T.Fits page.old }
    ensures page { IsPage T.spelled T.read T.Fits page.new }
    ensures joined { OnOk result (AreJoined T.eq (pairs_of T.read page.old) ((at, Flat.Clash) ∷ []) (pairs_of T.read page.new)) }
    ensures left { OnErr result (page.new ≡ page.old) }
{
    let (from, found, behind) = spot::<T>(alloc, &page.bytes, page.count, at);
    let (front, _) = page.bytes.split_at(page.bytes.len() - from.len());
    let bytes = with_clash::<T>(alloc, front, at, behind)?;
    match found {
        None => {
            page.bytes = bytes;
            page.count += 1;
        }
        Some(_mine) => page.bytes = bytes,
    }
    Ok(())
}

/// Joins one claim to what is claimed of a place. After `NoMemory` nothing is changed.
pub(crate) fn join_claim<T: Packed>(
    page: &mut Page,
    alloc: Global,
    at: u8,
    claim: &Flat<T>,
) -> Result<(), NoMemory>
    requires at { at < 128 }
    requires page { IsPage T.spelled T.read T.Fits page.old }
    ensures page { IsPage T.spelled T.read T.Fits page.new }
    ensures joined { OnOk result (AreJoined T.eq (pairs_of T.read page.old) ((at, claim.now) ∷ []) (pairs_of T.read page.new)) }
    ensures left { OnErr result (page.new ≡ page.old) }
{
    match claim {
        Flat::Known(item) => join_one::<T>(page, alloc, at, item),
        Flat::Clash => join_clash::<T>(page, alloc, at),
    }
}

/// A page of which no place is claimed. It takes no memory.
pub(crate) fn empty_page<T: Packed>(alloc: Global) -> Page
    ensures page { IsPage T.spelled T.read T.Fits result }
    ensures pairs { pairs_of T.read result ≡ [] }
{
    Page {
        bytes: Vec::new(alloc),
        count: 0,
    }
}
