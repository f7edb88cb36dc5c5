//! Objects with versions and read totals, what an access logs of them, and traits of spaces and machines.
//!
//! `Versioned::act` makes an event by the definition (`reply`, `entry`, `memory`) and takes no memory; `logs` says
//! whether it would log an entry. `Machine::run` makes steps of a thread over its memory, each access with its entry in
//! a log that may say no to it before anything changes (`EntryLog::takes`).
#![tactic(auto)]

mod copied_space;
mod count;
mod entry;
mod entry_log;
mod few;
mod machine;
mod next;
mod space;
mod touch;
mod touches;
mod versioned;
mod versions;

pub use copied_space::CopiedSpace;
pub use count::Count;
pub use entry::{Entry, Kind};
pub use entry_log::{EntryLog, NoLog};
pub use few::Few;
pub use machine::{Machine, Made};
pub use next::Next;
pub use space::ObjectSpace;
pub use touch::{Found, Mode, Touch};
pub use touches::Touches;
pub use versioned::Versioned;
pub use versions::Versions;
