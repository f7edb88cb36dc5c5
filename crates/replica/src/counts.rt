//! What logs are short of and what they have too much, counted in one pass over their items.

ghost use Rattle.std.specs.Prelude.{◌≡◌, ◌+◌, ◌^◌, ◌<◌, ◌≤◌, nat_lt, nat_le, cond, count_by};
ghost use Rattle.replica.specs.Counts.{thread_missing, thread_strays, thread_clashes, absent_below, end_clashes};
ghost use Rattle.replica.specs.Flats.{is_clash};

use crate::thread_log::{ThreadLog, place_of};
use log_pieces::{End, Flat, PackedClaim};
use rw_objects::Entry;

/// What is missing, stray or claimed differently, of a thread or of all.
#[derive(Clone, Copy)]
pub(crate) struct ThreadCounts {
    pub(crate) missing: u64,
    pub(crate) strays: u64,
    pub(crate) clashes: u64,
}

/// How many items stand before a place, how many do not, and how many were claimed differently.
#[derive(Clone, Copy)]
struct ItemCounts {
    below: u64,
    from: u64,
    clashes: u64,
}

/// One where something is so, and else none. It needs no branch.
fn one_if(is_so: bool) -> u64
    ensures one { result ≡ cond is_so 1 0 }
    ensures most { result ≤ 1 }
{
    u64::from(is_so)
}

/// How many clashes an end is.
fn end_clashes(end: &Option<Flat<End>>) -> u64
    ensures value { result ≡ end_clashes end.now }
    ensures most { result ≤ 1 }
{
    match end {
        Some(Flat::Clash) => 1,
        Some(Flat::Known(_)) => 0,
        None => 0,
    }
}

/// Whether a place was claimed differently.
fn is_clashing(claim: &PackedClaim<'_, Entry>) -> bool
    ensures { result ≡ is_clash claim.now }
{
    claim.bytes().is_none()
}

/// How many items stand below that place, how many at it or past it, and how many were claimed differently.
fn item_counts(log: &ThreadLog, end: u32) -> ItemCounts
    ensures below { result.below ≡ count_by (λ e. nat_lt e.0 end) log.now.entries }
    ensures rest { result.below + absent_below log.now.entries end ≡ end }
    ensures from { result.from ≡ count_by (λ e. nat_le end e.0) log.now.entries }
    ensures clashes { result.clashes ≡ count_by (λ e. is_clash e.1) log.now.entries }
    ensures few_from { result.from ≤ 2 ^ 40 }
    ensures few_clashes { result.clashes ≤ 2 ^ 40 }
{
    let mut below = 0;
    let mut from = 0;
    let mut clashes = 0;
    for (place, item) in log.entries.packed() {
        let place = place_of(place);
        below += one_if(place < u64::from(end));
        from += one_if(u64::from(end) <= place);
        clashes += one_if(is_clashing(&item));
    }
    ItemCounts {
        below,
        from,
        clashes,
    }
}

/// What the claims of a thread come to: the places below the known end's places that have no item, the items that stand
/// at or past them, and the items that were claimed differently, the end among them. It goes through the items once.
pub(crate) fn thread_counts(log: &ThreadLog) -> ThreadCounts
    ensures missing { result.missing ≡ thread_missing log.now }
    ensures strays { result.strays ≡ thread_strays log.now }
    ensures clashes { result.clashes ≡ thread_clashes log.now }
    ensures few_missing { result.missing < 2 ^ 32 }
    ensures few_strays { result.strays ≤ 2 ^ 40 }
    ensures few_clashes { result.clashes ≤ 2 ^ 40 + 1 }
{
    match log.known_end() {
        Some(end) => {
            let items = item_counts(log, end.places);
            ThreadCounts {
                missing: u64::from(end.places) - items.below,
                strays: items.from,
                clashes: items.clashes + end_clashes(&log.end),
            }
        }
        None => {
            let items = item_counts(log, 0);
            ThreadCounts {
                missing: 0,
                strays: 0,
                clashes: items.clashes + end_clashes(&log.end),
            }
        }
    }
}
