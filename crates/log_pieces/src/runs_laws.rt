//! Laws of joining claims place by place.

ghost use Rattle.std.specs.Prelude.{◌≡◌, ℕ, List, take};
ghost use Rattle.std.specs.Ordering.{nat_cmp};
ghost use Rattle.log_pieces.specs.declared.flat.Flat.{Flat};
ghost use Rattle.log_pieces.specs.Flat.{flat_joined};
ghost use Rattle.log_pieces.specs.Join.{IsJoin};
ghost use Rattle.log_pieces.specs.Keyed.{keyed_same, keyed_joined, keyed_partly};
ghost use Rattle.log_pieces.specs.Pages.{AreJoined};

use crate::Packed;

/// What `Runs` claim of places is joined as the maps of `Keyed` are: in any order, any grouping, any number of times.
pub fn claims_join_as_maps<T: Packed>()
    ensures laws { IsJoin (keyed_same nat_cmp (λ (x y : Flat T). x ≡ y)) (keyed_joined nat_cmp (flat_joined T.eq)) (keyed_partly nat_cmp (λ (x y : Flat T). x ≡ y) (flat_joined T.eq) (λ (x y z : Flat T). ⊥)) }
    ensures same { (old more new : List (ℕ × Flat T)) → AreJoined T.eq old more new → keyed_same nat_cmp (λ (x y : Flat T). x ≡ y) new (keyed_joined nat_cmp (flat_joined T.eq) old more) }
{}

/// Claims to which the first of others were joined, and then all of them, are joined with all of them: joining again
/// completes what want of memory left.
pub fn joining_claims_again_completes<T: Packed>()
    ensures { (old more part new : List (ℕ × Flat T)) (j : ℕ) → AreJoined T.eq old (take j more) part → AreJoined T.eq part more new → AreJoined T.eq old more new }
{}
