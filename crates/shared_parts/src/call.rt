//! One call.

use rw_objects::Entry;

/// One call: by which thread, what it asked, what it was answered, and what it found.
#[derive(Drop)]
pub struct Call<O, R> {
    pub thread: u32,
    pub op: O,
    pub reply: R,
    pub entry: Entry,
}
