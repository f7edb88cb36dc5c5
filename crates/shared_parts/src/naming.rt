//! What names one shared space.

use crate::chain::Naming;
use crate::numbers::Counting;
use rw_objects::ObjectSpace;
use std::marker::PhantomData;
use std::sync::ledger::Ledger;

/// Names the opening space, the ledger and the numbers of one shared space `S`, with values `V` and fixed numbers `F`.
/// Each call of a program picks it. That the parameters have no bounds is what lets it be picked.
pub trait Opening<S, V, F>: Naming {
    ghost use Rattle.shared_parts.specs.Named.{Named};

    ghost named: { Named V F };
}

/// The ledger of the calls, with a part for each seat and one beside the journal.
pub struct CallLedger<S: ObjectSpace, J: Opening<S, S::Value, S::Fixed>> {
    of: PhantomData<(S, J)>,
}

impl<S: ObjectSpace, J: Opening<S, S::Value, S::Fixed>> Ledger for CallLedger<S, J> {
    ghost use Rattle.std.specs.Prelude.{◌+◌};

    ghost name = { J.named.ledger };

    ghost parts = { J.named.threads + 1 };
}

/// The number of writes of the part with this number.
pub struct Lane<S: ObjectSpace, J: Opening<S, S::Value, S::Fixed>, const I: u64> {
    of: PhantomData<(S, J)>,
}

impl<S: ObjectSpace, J: Opening<S, S::Value, S::Fixed>, const I: u64> Counting for Lane<S, J, I> {
    ghost use Rattle.std.specs.Prelude.{slice_index_or};

    ghost number = { slice_index_or J.named.lanes I 0 };
}
