//! A thread of a plan that runs: the thread machine.
//!
//! `ThreadState` borrows its module and is itself the machine. Contracts see its typed state, its steps and its room;
//! that its untyped words stand for one typed state is an invariant (`fields_have_one_meaning`). `next`, `local` and
//! `take` are the definition's. Words are moved with no test for a missing operand, label or function: validation made
//! these needless. Heights of open blocks count from the bottom of the words, modulo 2^32, so an open block takes 8
//! bytes; a function has fewer operands than instructions (`operands_are_few`), so a branch finds its height.
//!
//! `local_steps` makes many local steps (`goes`, `few`, `all`, `err`, `room`), `run` many steps over the memory with
//! the thread's log (`goes`, `few`, `limit`, `all`, `more`, `comes`), by the table that a function has of
//! `instruction_groups`: an entry for each place, the longest group that begins there, one instruction by itself, or
//! none. Nothing is renumbered, and a branch into a group finds that place's own entry. An entry is one flat enum,
//! matched once for each step. The loop of `run` (`make_steps`) makes what programs do most: groups, blocks, branches,
//! calls, returns and accesses of the usual kinds. All else changes nothing there and is left to the plain step: what
//! wants memory, a group that leaves no room or for which too few steps are left, a trap, an access that the log
//! refuses, a branch to the function's own label, the return of the thread's own function, a call too deep. So limits,
//! traps and breaks are those of plain steps, and only speed depends on entries.
//!
//! Words and place are locals of that loop, so no function that is not compiled into it may take the words; hot
//! functions are compiled into their callers, `run_locally` and `run_alone` into none. Room for an entry is had before
//! the access, so that no object changes where memory is wanted. That a run behind `room` makes one step at least is
//! said of local steps alone: a log may want memory, too. `code_place` says where a thread stands in its functions, and
//! `locals` and `operands` which values these hold.
#![tactic(auto)]

mod block_moves;
mod call_moves;
mod entries;
mod group_run;
mod groups;
mod instance;
mod laws;
mod moves;
mod opening;
mod over_memory;
mod running;
mod standing;
mod state;
mod step;
mod trying;
mod values;

pub use instance::{instance_for, memory_limits};
pub use laws::fields_have_one_meaning;
pub use standing::CodePlace;
pub use state::{ThreadSeen, ThreadState};
