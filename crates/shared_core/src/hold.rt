//! What keeps a try.

/// What keeps a try of a call, for tests: it is told before the locks are asked for, while the locks of the touched
/// parts are held where the call was entered, and after all locks were given back. `place` is how many calls the thread
/// had.
pub trait Hold {
    /// Before the locks are asked for.
    fn before(&self, thread: u32, place: u64);

    /// The call was entered, the journal's lock was given back, and the locks of the touched parts are held.
    fn inside(&self, thread: u32, place: u64);

    /// After all locks were given back.
    fn after(&self, thread: u32, place: u64);
}

/// Keeps nothing.
#[derive(Clone, Copy, Debug, Drop)]
pub struct Unkept;

impl Hold for Unkept {
    fn before(&self, _thread: u32, _place: u64) {}

    fn inside(&self, _thread: u32, _place: u64) {}

    fn after(&self, _thread: u32, _place: u64) {}
}
