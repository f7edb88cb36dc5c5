//! The step of a thread, as a definition, and on untyped words.
//!
//! The words of a thread are one stack, and its labels one, for all of its functions.
//! A function for each kind of instruction: it makes the definition's step of each typed thread for which the words
//! stand (`ok`, `steps`), or all stays (`err`, `kept`). Those named `_apart` have words and place outside of the
//! thread, and say when they make no move (`full`, `outermost`, `taken`, `reason`, `alone`).
//!
//! Laws of the definition: `threads_go_on`, `threads_are_safe`: no thread of a valid module ever lacks a step, whatever
//! the memory replies, and one that is done leaves its function's results. `threads_are_machines`: a thread is a lawful
//! machine over the shared memory.
#![tactic(auto)]

mod accesses;
mod accesses_apart;
mod blocks;
mod blocks_apart;
mod branches;
mod branches_apart;
mod calls;
mod calls_apart;
mod copying;
mod functions;
mod indirect;
mod instance;
mod laws;
mod leaving;
mod locals;
mod machine_laws;
mod numerics;
mod operands;
mod replies;
mod simple;
mod stacks;

pub use accesses::access_of;
pub use accesses_apart::{answer_apart, memory_access_apart};
pub use blocks::{block, end, end_first_arm};
pub use blocks_apart::{choose_apart, close_apart, end_arm_apart, open_apart};
pub use branches::{branch, branch_if, branch_table};
pub use branches_apart::{branch_apart, branch_if_apart};
pub use calls::{call, declared_locals, put_zeros};
pub use calls_apart::{call_apart, finish_apart, return_apart};
pub use functions::{
    FunctionTables, body_of_function, code_of_function, groups_of_function, instruction_at,
    tables_of_function, type_of_function,
};
pub use indirect::call_indirect;
pub use instance::Instance;
pub use laws::{
    operands_are_few, steps_are_safe, threads_are_safe, threads_go_on, well_typed_is_never_stuck,
};
pub use leaving::return_now;
pub use locals::{global_get, global_set, local_get, local_set, local_tee};
pub use machine_laws::threads_are_machines;
pub use numerics::numeric;
pub use operands::{value, word};
pub use replies::{answer, wake};
pub use simple::{constant, discard, fence, nop, select, unreachable};
pub use stacks::{Label, Level, Stacks, Stage};
