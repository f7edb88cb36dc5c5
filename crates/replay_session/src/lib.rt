//! A replay that goes forward and back, as a debugger wants it.
//!
//! A `Session` is a replay with the way that it has gone: a list of legs, which are turns of one thread, or turns of
//! threads 0, 1, .. in rounds, with the steps that were made. `turn`, `thread_steps`, `thread_events`, `thread_until`,
//! `run_on` and `run_until` go forward, and the way goes on by what they made: steps of one thread up to so many, up to
//! so many events, or until a test of the debugger's own holds of the world behind one (`Test`); or rounds up to a
//! break, or to a break or a test (`pauses`). `back` goes the way again without its last steps, from the last world that
//! was kept on it, or from the opening world; `run_on` and `back` itself keep some (`Keeps`), each with the way that
//! leads to it (`Kept`). `reverse_until` goes back so to behind the last step of the way, before the one that led to the
//! world, behind which a break or a test holds (`goes`). `go_to` opens the world again and goes on from there to a
//! break; where none stops it, all is as it was (`stops`). At each time the way leads from the opening world to the
//! world (`led`), and `schedule` answers picks by which a run of the threads, without a log, comes there (`comes`).
//! Laws: a way leads from a world to one other (`ways_lead_once`), it has as many steps as all threads make on it
//! (`ways_count_steps`), and where it leads somewhere, so do its first steps (`first_steps_lead`). Where a test holds
//! nowhere, rounds up to it pause just where they stop at breaks (`pauses_as_stops`). Each version of an object was
//! written by one event of a replay at most (`versions_have_one_writer`).
#![tactic(auto)]

mod events;
mod going;
mod gone;
mod keeps;
mod kept;
mod laws;
mod legs;
mod paused;
mod pausing;
mod picks;
mod putting;
mod reverse;
mod rounds;
mod run_parts;
mod session;
mod sums;
mod test;
mod threads;
mod until;

pub use gone::{Ceased, Gone};
pub use laws::{
    first_steps_lead, pauses_as_stops, versions_have_one_writer, ways_count_steps, ways_lead_once,
};
pub use legs::Leg;
pub use paused::{Met, Paused, paused_of};
pub use session::Session;
pub use test::Test;
