//! Joins of claims, of pairs and of maps.

ghost use Rattle.std.specs.Prelude.{◌≡◌, ◌⊎◌, ℕ, Some};
ghost use Rattle.log_pieces.specs.Agreed.{IsAgreed};

use crate::checks::{check, compare};
use log_pieces::{Both, Claims, Flat, Join, Keyed, agreed_joined};
use std::alloc::Global;
use std::test::Fail;
use wasm_types::{NoMemory, Same};

fn joined<T: Join>(alloc: Global, left: &T, right: &T) -> Result<T, NoMemory> {
    let mut both = left.copy(alloc)?;
    both.join_from(alloc, right)?;
    Ok(both)
}

struct Seven;

struct Eight;

impl Claims<u32> for Seven {
    ghost use Rattle.std.specs.Prelude.{◌≡◌};

    ghost claimed = { λ x. x ≡ 7 };
}

impl Claims<u32> for Eight {
    ghost use Rattle.std.specs.Prelude.{◌≡◌};

    ghost claimed = { λ x. x ≡ 8 };
}

/// That a claim of 7 and one of 8 come to a clash, by the law at these two sets.
fn seven_and_eight_clash()
    ensures { IsAgreed (λ (x : ℕ). (x ≡ 7) ⊎ (x ≡ 8)) (Some Flat.Clash) }
{
    agreed_joined::<u32, Seven, Eight>()
}

#[test]
fn equal_items_stay_and_different_ones_clash(rt: HostRuntime) -> Result<(), Fail> {
    let alloc = rt.alloc();
    seven_and_eight_clash();
    let seven = Flat::Known(7u32);
    for (other, want) in [
        (Flat::Known(7), Flat::Known(7)),
        (Flat::Known(8), Flat::Clash),
        (Flat::Clash, Flat::Clash),
    ] {
        assert_eq!(rt; joined(alloc, &seven, &other)?, want);
        assert_eq!(rt; joined(alloc, &other, &seven)?, want);
    }
    Ok(())
}

#[test]
fn both_parts_are_joined(rt: HostRuntime) -> Result<(), Fail> {
    let left = Both {
        first: Flat::Known(1u32),
        second: Flat::Known(2u64),
    };
    let right = Both {
        first: Flat::Known(1),
        second: Flat::Known(3),
    };
    let want = Both {
        first: Flat::Known(1),
        second: Flat::Clash,
    };
    assert_eq!(rt; joined(rt.alloc(), &left, &right)?, want);
    Ok(())
}

/// Numbers by numbers.
type Numbers = Keyed<u32, Flat<u64>>;

/// A map with these keys, each known to be ten times its number.
fn tens(alloc: Global, keys: &[u32]) -> Result<Numbers, NoMemory> {
    let mut map = Keyed::new(alloc);
    for key in keys {
        map.join_one(alloc, *key, Flat::Known(*key as u64 * 10))?;
    }
    Ok(map)
}

/// The same with another value at 3.
fn tens_and_third(alloc: Global, keys: &[u32], third: Flat<u64>) -> Result<Numbers, NoMemory> {
    let mut map = tens(alloc, keys)?;
    map.join_one(alloc, 3, third)?;
    Ok(map)
}

/// The join of two maps, both of which have the key 3.
fn joined_numbers(alloc: Global) -> Result<Numbers, NoMemory> {
    let left = tens_and_third(alloc, &[9, 1, 5], Flat::Known(31))?;
    let right = tens(alloc, &[3, 5, 7])?;
    joined(alloc, &left, &right)
}

/// Whether the keys come in their order, from 1 on.
fn are_rising(map: &Numbers) -> bool {
    let mut last = 0;
    for (key, _) in map.iter() {
        if *key <= last {
            return false;
        }
        last = *key;
    }
    true
}

/// How many keys a map has, whether 7 is known to be 70, whether nothing stands at 8, and whether the keys come in
/// their order.
fn seen(map: &Numbers) -> (usize, bool, bool, bool) {
    (
        map.len(),
        map.get(&7) == Some(&Flat::Known(70)),
        map.get(&8).is_none(),
        are_rising(map),
    )
}

#[test]
fn maps_are_joined_key_by_key(rt: HostRuntime) -> Result<(), Fail> {
    let want = tens_and_third(rt.alloc(), &[1, 5, 7, 9], Flat::Clash)?;
    let both = joined_numbers(rt.alloc())?;
    compare(&rt, &both, &want, "joined");
    compare(&rt, &seen(&both), &(5, true, true, true), "seen");
    check(&rt, Numbers::new(rt.alloc()).is_empty(), "no key");
    Ok(())
}

/// Maps of numbers by numbers.
type Nested = Keyed<u32, Numbers>;

/// Joins two numbers at each key below 30.
fn join_thirty(alloc: Global, map: &mut Nested) -> Result<(), NoMemory> {
    for key in 0u32..30 {
        map.join_one(alloc, key, tens(alloc, &[1, 2])?)?;
    }
    Ok(())
}

/// Joins eleven other numbers at the key 20.
fn join_eleven(alloc: Global, map: &mut Nested) -> Result<(), NoMemory> {
    for inner in 10..21 {
        map.join_one(alloc, 20, tens(alloc, &[inner])?)?;
    }
    Ok(())
}

/// A map with two numbers at each key below 30.
fn thirty(alloc: Global) -> Result<Nested, NoMemory> {
    let mut map = Keyed::new(alloc);
    join_thirty(alloc, &mut map)?;
    Ok(map)
}

/// A map with eleven other numbers at the key 20.
fn eleven(alloc: Global) -> Result<Nested, NoMemory> {
    let mut map = Keyed::new(alloc);
    join_eleven(alloc, &mut map)?;
    Ok(map)
}

/// A map with both.
fn thirty_and_eleven(alloc: Global) -> Result<Nested, NoMemory> {
    let mut map = thirty(alloc)?;
    join_eleven(alloc, &mut map)?;
    Ok(map)
}

/// The first key but 20 that is not among the first ones, or has not both numbers.
fn key_not_joined(map: &Nested) -> Option<u32> {
    for (key, value) in map.iter() {
        if *key != 20 && (*key as usize >= map.len() || value.len() != 2) {
            return Some(*key);
        }
    }
    None
}

/// Joins a map, and again where memory was wanting: then answers a key that was not joined as far as it stands there.
fn join_again(alloc: Global, left: &mut Nested, right: &Nested) -> Result<Option<u32>, NoMemory> {
    if left.join_from(alloc, right).is_ok() {
        return Ok(None);
    }
    let key = key_not_joined(left);
    left.join_from(alloc, right)?;
    Ok(key)
}

/// Joins thirty keys so.
fn join_thirty_again(alloc: Global, left: &mut Nested) -> Result<Option<u32>, NoMemory> {
    let right = thirty(alloc)?;
    join_again(alloc, left, &right)
}

/// Under `rt try --test --fail-alloc N` the Nth growth is refused: those of this `join_from` are the last ones. Without
/// it none is.
#[test]
fn joining_again_completes_what_want_of_memory_left(rt: HostRuntime) -> Result<(), Fail> {
    let want = thirty_and_eleven(rt.alloc())?;
    let mut left = eleven(rt.alloc())?;
    let key = join_thirty_again(rt.alloc(), &mut left)?;
    compare(&rt, &key, &None, "a key that is not joined");
    compare(&rt, &left, &want, "joined again");
    Ok(())
}
