//! Claims of places as values that can be joined.

ghost use Rattle.std.specs.Prelude.{◌≡◌};
ghost use Rattle.log_pieces.specs.SameClaims.{flat_eq};

use crate::Packed;
use crate::flat::Flat;
use crate::join::Join;
use crate::runs::Runs;
use std::alloc::Global;
use wasm_types::{NoMemory, Same};

/// Whether two claims are the same.
fn is_same_claim<T: Packed>(mine: &Flat<T>, theirs: &Flat<T>) -> bool
    ensures { result ≡ flat_eq T.eq mine.now theirs.now }
{
    match (mine, theirs) {
        (Flat::Known(mine), Flat::Known(theirs)) => mine == theirs,
        (Flat::Clash, Flat::Clash) => true,
        _ => false,
    }
}

impl<T: Packed> PartialEq for Runs<T> {
    ghost use Rattle.log_pieces.specs.SameClaims.{claims_eq};
    ghost use Rattle.log_pieces.specs.ClaimLaws.{claims_per};

    ghost eq = { claims_eq T.eq };

    ghost laws = { claims_per T.eq T.decides };

    /// Compares the claims place by place.
    fn eq(&self, other: &Runs<T>) -> bool {
        let mut theirs = other.iter();
        for (place, claim) in self.iter() {
            match theirs.next() {
                Some((at, other)) if at == place && is_same_claim(&claim, &other) => {}
                _ => return false,
            }
        }
        theirs.next().is_none()
    }
}

impl<T: Packed> Eq for Runs<T> {
    ghost use Rattle.log_pieces.specs.ClaimLaws.{claims_equiv};

    ghost laws = { claims_equiv T.eq T.decides };
}

impl<T: Packed> Same for Runs<T> {
    ghost use Rattle.log_pieces.specs.ClaimLaws.{claims_decide};

    fn copy(&self, alloc: Global) -> Result<Runs<T>, NoMemory> {
        let mut copied = Runs::new(alloc);
        copied.join_runs(alloc, self)?;
        // Facts for the prover: both stand by rising place.
        self.is_ordered();
        copied.is_ordered();
        Ok(copied)
    }

    ghost decides = { claims_decide T.eq T.decides };
}

impl<T: Packed> Join for Runs<T> {
    ghost use Rattle.std.specs.Prelude.{◌≡◌};
    ghost use Rattle.std.specs.Ordering.{nat_cmp};
    ghost use Rattle.log_pieces.specs.Flat.{flat_joined};
    ghost use Rattle.log_pieces.specs.Keyed.{keyed_same, keyed_joined};
    ghost use Rattle.log_pieces.specs.Runs.{claims_partly};
    ghost use Rattle.log_pieces.specs.ClaimLaws.{runs_laws};

    ghost same = { keyed_same nat_cmp (λ a b. a ≡ b) };

    ghost joined = { keyed_joined nat_cmp (flat_joined T.eq) };

    ghost partly = { claims_partly T.eq };

    /// Joins what the other claims, by rising place.
    fn join_from(&mut self, alloc: Global, other: &Runs<T>) -> Result<(), NoMemory> {
        self.join_runs(alloc, other)
    }

    ghost laws = { runs_laws T.eq T.decides };
}
