//! The eight parts of a shared space, the journal of all its calls, and a seat for each thread.
//!
//! `Striped`: a call sees and changes the parts that it touches. `Keeps::meet`: the parts kept are those of the space
//! to which the journal leads (`here`). `Latest`, `Reached`, `FirstHalf` and `SecondHalf` are there in proofs alone:
//! what was known of the journal is a beginning of it (`begins`), and both halves know one number (`met`).
//!
//! `Held::enter`: a call that is done stands last in the journal and in its seat's own list (`done`, `journal`, `own`),
//! and the journal stays a legal history (`legal`); else nothing changes (`kept`). `Seat::decide` and `decide_one`:
//! what a call decides by the parts that it touches.
#![tactic(auto)]

mod call;
mod chain;
mod deciding;
mod eight;
mod grown;
mod held;
mod keeps;
mod kept;
mod lane;
mod naming;
mod numbers;
mod one;
mod seat;
mod stripe;
mod striped;
mod tried;

pub use call::Call;
pub use chain::{Latest, Naming, Pile, Reached, Unnamed};
pub use deciding::decide_one;
pub use eight::Eight;
pub use held::Held;
pub use keeps::Keeps;
pub use kept::{KeptPart, KeptParts, Written};
pub use lane::{change_lane, has_lane};
pub use naming::{CallLedger, Lane, Opening};
pub use numbers::{Counting, FirstHalf, SecondHalf, UnnamedNumber};
pub use one::{OneOf, OnePart};
pub use seat::Seat;
pub use stripe::{Stripe, lane_writes};
pub use striped::Striped;
pub use tried::Tried;
