//! Types a module, and keeps what its run needs: exports, targets of blocks, groups of instructions.
//!
//! `validate`: the module is well typed and within the limits (`same`, `typed`, `within`), or it is not, and where is
//! the first place of the fault (`refuses`); the check and the typing rules agree (`checked_is_typed`,
//! `typed_is_checked`). `Targets::new` and `TargetFinder::find`: the targets, None just where blocks do not nest.
#![tactic(auto)]

mod exports;
mod fault;
mod function;
mod instruction;
mod labels;
mod laws;
mod limits;
mod locals;
mod module_cause;
mod name_hasher;
mod profile;
mod rules;
mod stacks;
mod step_cause;
mod table;
mod targets;
mod valid;

pub use fault::{ValidCause, ValidFault};
pub use laws::{
    an_if_without_else_leaves_nothing, checked_is_typed, checked_nests, reaches_else, reaches_end,
    typed_is_checked,
};
pub use module_cause::ModuleCause;
pub use step_cause::{Named, Needs, Operand, Row, StepCause};
pub use targets::{Target, TargetFinder, Targets};
pub use valid::{Valid, validate};
