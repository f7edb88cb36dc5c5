//! A map whose values are joined key by key.

ghost use Rattle.std.specs.Prelude.{◌≡◌, List};
ghost use Rattle.log_pieces.specs.Keyed.{value_at, keyed_joined, option_joined};

use crate::join::Join;
use std::alloc::Global;
use std::collections::BTreeMap;
use std::collections::btree_map::{Entry, Iter};
use std::marker::Model;
use wasm_types::{NoMemory, Same};

/// Keys with a value each. Contracts see the list of its entries, in the order of the keys.
#[derive(Debug, Drop)]
pub struct Keyed<K: Ord, V> {
    map: BTreeMap<K, V>,
}

impl<K: Ord, V> Model for Keyed<K, V> {
    ghost use Rattle.std.specs.Prelude.{List};

    ghost Value = { List (K × V) };

    ghost view = { λ k. k.map.entries };
}

impl<K: Ord + Same, V: Join> Keyed<K, V> {
    ghost use Rattle.std.specs.Prelude.{◌≡◌, ◌↔◌, [], ◌∷◌, length, IsTrue, OnOk, OnErr, Some, All};
    ghost use Rattle.std.specs.Option.{option_copied};
    ghost use Rattle.std.specs.List.Sorted.{IsStrictlySortedBy};
    ghost use Rattle.std.specs.Map.{keys_of};
    ghost use Rattle.log_pieces.specs.Keyed.{value_at, keyed_same, keyed_joined, keyed_partly};

    /// A map without keys. It takes no memory.
    pub fn new(alloc: Global) -> Self
        ensures { result ≡ [] }
    {
        Keyed {
            map: BTreeMap::new(alloc),
        }
    }

    /// How many keys there are.
    pub fn len(&self) -> usize
        ensures len { result ≡ length self.now }
        ensures ordered { IsStrictlySortedBy K.cmp (keys_of self.now) }
    {
        self.map.len()
    }

    /// Whether there is no key.
    pub fn is_empty(&self) -> bool
        ensures { IsTrue result ↔ (self.now ≡ []) }
    {
        self.map.is_empty()
    }

    /// The value at a key, if there is one.
    pub fn get(&self, key: &K) -> Option<&V>
        ensures { option_copied result ≡ value_at K.cmp self.now key.now }
    {
        self.map.get(key)
    }

    /// The keys with their values, in the order of the keys.
    pub fn iter(&self) -> Iter<'_, K, V>
        ensures rest { result ≡ self.now }
        ensures ordered { IsStrictlySortedBy K.cmp (keys_of self.now) }
        ensures found { All (λ e. value_at K.cmp self.now e.0 ≡ Some e.1) self.now }
    {
        self.map.iter()
    }

    /// Joins one value to what stands at its key: the join with the map that has this key alone. A key that is
    /// absent takes the value itself, without a copy.
    pub fn join_one(&mut self, alloc: Global, key: K, value: V) -> Result<(), NoMemory>
        ensures joined { OnOk result (keyed_same K.cmp V.same self.new
            (keyed_joined K.cmp V.joined self.old ((key, value) ∷ []))) }
        ensures left { OnErr result (keyed_partly K.cmp V.same V.joined V.partly
            self.old ((key, value) ∷ []) self.new) }
    {
        let mine = match self.map.entry(key)? {
            Entry::Occupied(entry) => entry.into_mut(),
            Entry::Vacant(entry) => {
                entry.insert(value);
                return Ok(());
            }
        };
        mine.join_from(alloc, &value)
    }
}

impl<K: Ord + Same, V: Join> PartialEq for Keyed<K, V> {
    ghost use Rattle.std.specs.Prelude.{◌&&◌};
    ghost use Rattle.std.specs.Cmp.Lexicographic.{pointwise, lists_per};
    ghost use Rattle.std.specs.Cmp.{on_per, and_per};

    ghost eq = { pointwise (λ p q. K.eq p.0 q.0 && V.eq p.1 q.1) };

    ghost laws = { lists_per (and_per (on_per (λ p. p.0) K.PartialEq.laws) (on_per (λ p. p.1) V.PartialEq.laws)) };

    fn eq(&self, other: &Keyed<K, V>) -> bool {
        self.map == other.map
    }
}

impl<K: Ord + Same, V: Join> Eq for Keyed<K, V> {
    ghost use Rattle.std.specs.Cmp.Lexicographic.{lists_equiv};
    ghost use Rattle.std.specs.Cmp.{on_equiv, and_equiv};

    ghost laws = { lists_equiv (and_equiv (on_equiv (λ p. p.0) K.Eq.laws) (on_equiv (λ p. p.1) V.Eq.laws)) };
}

impl<K: Ord + Same, V: Join> Same for Keyed<K, V> {
    fn copy(&self, alloc: Global) -> Result<Keyed<K, V>, NoMemory> {
        let mut map = BTreeMap::new(alloc);
        for (key, value) in self.iter() {
            map.insert(key.copy(alloc)?, value.copy(alloc)?)?;
        }
        Ok(Keyed { map })
    }

    ghost use Rattle.log_pieces.specs.ClaimDecides.{keyed_decides};

    ghost decides = { keyed_decides K.eq V.eq K.decides V.Same.decides };
}

impl<K: Ord + Same, V: Join> Join for Keyed<K, V> {
    ghost use Rattle.log_pieces.specs.Keyed.{keyed_same, keyed_joined, keyed_partly};
    ghost use Rattle.log_pieces.specs.KeyedLaws.{keyed_laws};
    ghost use Rattle.log_pieces.specs.ClaimDecides.{cmp_exact};

    ghost same = { keyed_same K.cmp V.same };

    ghost joined = { keyed_joined K.cmp V.joined };

    ghost partly = { keyed_partly K.cmp V.same V.joined V.partly };

    /// Joins the other map's entries in the order of their keys.
    fn join_from(&mut self, alloc: Global, other: &Keyed<K, V>) -> Result<(), NoMemory> {
        for (key, value) in other.iter() {
            self.join_one(alloc, key.copy(alloc)?, value.copy(alloc)?)?;
        }
        Ok(())
    }

    ghost laws = { keyed_laws V.Join.laws K.cmp (cmp_exact K.eq K.cmp K.decides K.matches_eq) };
}

/// The join of two maps has at each key the join of what both have there: what one has alone is kept.
pub fn joined_by_key<K: Ord + Same, V: Join>()
    ensures { (a b : List (K × V)) (key : K) → value_at K.cmp (keyed_joined K.cmp V.joined a b) key
        ≡ option_joined V.joined (value_at K.cmp a key) (value_at K.cmp b key) }
{}
