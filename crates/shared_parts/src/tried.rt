//! What becomes of a try.

use rw_objects::Entry;

/// What became of a try.
#[derive(Drop)]
pub enum Tried<R> {
    /// It was entered, with this reply and this entry.
    Done(R, Entry),
    /// The entry that was handed in is not the one that it would give.
    Shut,
    /// It can not be made now.
    NotReady,
}
