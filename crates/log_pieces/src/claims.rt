//! What a set of claims about one item comes to, and the laws of it.

ghost use Rattle.std.specs.Prelude.{◌≡◌, ◌⊎◌, Option};
ghost use Rattle.log_pieces.specs.declared.flat.Flat.{Flat};
ghost use Rattle.log_pieces.specs.Agreed.{IsAgreed};
ghost use Rattle.log_pieces.specs.Flat.{flat_joined};
ghost use Rattle.log_pieces.specs.Keyed.{option_joined};

use wasm_types::Same;

/// A set of claims about one item. No value stands for it: the laws below hold of every such set.
pub trait Claims<T> {
    /// That an item is claimed.
    ghost claimed: { T → Type 0 };
}

/// A set of claims comes to one thing.
pub fn agreed_once<T, C: Claims<T>>()
    ensures { (a b : Option (Flat T)) → IsAgreed C.claimed a → IsAgreed C.claimed b → a ≡ b }
{}

/// What a set of claims comes to depends on the set alone: not on an order of the claims, nor on repeats.
pub fn agreed_alike<T, C: Claims<T>, D: Claims<T>>()
    ensures { ((x : T) → C.claimed x → D.claimed x) → ((x : T) → D.claimed x → C.claimed x)
        → (a : Option (Flat T)) → IsAgreed C.claimed a → IsAgreed D.claimed a }
{}

/// The join of what two sets of claims come to is what both together come to.
pub fn agreed_joined<T: Same, C: Claims<T>, D: Claims<T>>()
    ensures { (a b : Option (Flat T)) → IsAgreed C.claimed a → IsAgreed D.claimed b
        → IsAgreed (λ x. C.claimed x ⊎ D.claimed x) (option_joined (flat_joined T.eq) a b) }
{}
