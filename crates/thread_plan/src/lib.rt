//! Plans: the text that says which exported functions run as threads, with which arguments, and hints at what may fail.
//!
//! `Plan::read`: just the plan of the text for that module (`ok`, `suits`), or its first fault (`err`).
//!
//! `hints` tells what may go wrong with the threads of a plan that its module does not forbid: just the lines of
//! globals with which two threads begin and that functions set, as the stack pointer of C, and of a shared memory that
//! no instruction uses atomically (`hints_text`). They refuse nothing.
#![tactic(auto)]

mod argument;
mod atomics;
mod fault;
mod global_use;
mod laws;
mod lines;
mod marks;
mod plan;
mod planned_thread;
mod starts;
mod thread_line;

pub use fault::{ArgumentFault, PlanCause, PlanFault};
pub use laws::{lines_are_spelled, read_plans_suit};
pub use lines::hints;
pub use plan::Plan;
pub use planned_thread::PlannedThread;
