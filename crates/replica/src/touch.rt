//! The touches of objects by the known entries of a log.

ghost use Rattle.std.specs.Prelude.{◌≡◌, ◌≤◌, ◌^◌, ◌==◌, not};
ghost use Rattle.std.specs.List.{list_any};
ghost use Rattle.replica.specs.Touched.{event_of, version_of};
ghost use Rattle.replica.specs.Versions.{is_write, is_read};

use crate::EventAt;
use crate::threads::ThreadNumber;

/// A touch of an object by a known entry.
#[derive(Clone, Copy, Debug, PartialEq, Eq)]
pub(crate) struct ObjectTouch {
    pub(crate) object: u32,
    /// The version that it found.
    pub(crate) found: u64,
    pub(crate) is_write: bool,
    pub(crate) thread: ThreadNumber,
    pub(crate) place: u32,
}

impl ObjectTouch {
    /// Where its event stands.
    pub(crate) fn at(&self) -> EventAt
        ensures { result ≡ event_of self.now }
    {
        EventAt {
            thread: self.thread.number(),
            place: self.place,
        }
    }

    /// The version that it read or made.
    pub(crate) fn version(&self) -> u128
        ensures version { result ≡ version_of self.now }
        ensures fits { version_of self.now ≤ 2 ^ 64 }
    {
        if self.is_write {
            u128::from(self.found) + 1
        } else {
            u128::from(self.found)
        }
    }
}

/// Whether one of these touches is a write.
pub(crate) fn has_write(touches: &[ObjectTouch]) -> bool
    ensures { result ≡ list_any is_write touches.now }
{
    touches.iter().any(|touch| touch.is_write)
}

/// Whether one of these touches is a read.
pub(crate) fn has_read(touches: &[ObjectTouch]) -> bool
    ensures { result ≡ list_any is_read touches.now }
{
    touches.iter().any(|touch| !touch.is_write)
}

/// Whether one of these touches is by another thread.
pub(crate) fn has_other(touches: &[ObjectTouch], thread: ThreadNumber) -> bool
    ensures { result ≡ list_any (λ t. not (t.thread == thread)) touches.now }
{
    touches.iter().any(|touch| touch.thread != thread)
}
