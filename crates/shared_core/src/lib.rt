//! A space in eight parts under read-write locks, one journal of all calls, and one seat for each thread.
//!
//! Of a memory four parts have a quarter of the blocks each, four a quarter of the queues, and the first of these the
//! length besides. The journal has the order of all calls: at run time a byte a call, in proofs the calls with their
//! replies. A call (`Shared::access`, `access_at`) takes the locks of the parts that it touches, in rising order,
//! decides by what they hold, takes the journal's lock, and is entered there and in its seat. Room for the journal's
//! byte is had first, then the entry is packed; nothing after that takes memory.
//!
//! Whenever the journal's lock is got, the journal is one legal history, which leads to the parts that are kept. How
//! often a part was written is a number of which the part has one half and the journal the other, and a `&` of each
//! shows that both know the same: so readers need no lock within the lock. These ties have no bytes and no steps;
//! atomic words that proofs alone read would make an access dearer. One ledger has a part for each seat: the shares'
//! sum is the journal's length, so seats and journal can't disagree.
//! `done`, `entry`: a call that is entered stands behind the seat's other calls, by `access_at` with the entry that was
//! asked for. `shut`, `not_ready`: why it is not, true of the space to which some legal history leads; the seat stays
//! (`kept`). `close`: a legal history of which each seat has its part.
//!
//! A seat can go on until it rests or leaves, also where its thread has not begun. Each has a condition variable,
//! notified only where it rests until just so many calls (`rest`, `rest_before`), or where no seat can go on. A seat
//! before a shut gate notes under the journal's lock for which touch it waits, and the call that opens that gate tells
//! it at a place that its worker alone looks at (`Openings`): tries before the gate would take the locks' memory from
//! the one whose turn it is. No promise rests on what goes by no lock.
//! A thread that meets a lock tries it up to 24 times, after pauses that double up to 64 of the processor's, before it
//! sleeps. Tries without pauses take the lock's memory from its holder; with longer pauses threads mix less, and show
//! fewer faults. The journal lies in lines of memory apart from its lock.
#![tactic(auto)]

mod close;
mod gates;
mod hold;
mod journal;
mod looking;
mod missing;
mod opened;
mod openings;
mod parts;
mod resting;
mod shared;
mod waking;

pub use close::History;
pub use hold::{Hold, Unkept};
pub use opened::Opened;
pub use shared::Shared;
pub use shared_parts::{Opening, Seat, Striped, Tried};
