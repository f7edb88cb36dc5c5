//! What names cells in parts.

use crate::cells::Cells;
use shared_parts::Opening;
use std::marker::Brand;

impl Opening<Cells, u64, ()> for Brand {
    ghost use Rattle.std.specs.Prelude.{[]};
    ghost use Rattle.rw_objects.specs.Counts.{no_counts};
    ghost use Rattle.rw_objects.specs.Memory.{memory_with};

    ghost named = { record { memory = memory_with tt (λ o. 0) no_counts; ledger = 0; lanes = []; threads = 0 } };
}
