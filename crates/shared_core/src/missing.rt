//! How many calls have to be entered, at the least, before a gate opens.

ghost use Rattle.std.specs.Prelude.{◌≡◌};
ghost use Rattle.rw_objects.specs.Counts.{count_at};
ghost use Rattle.shared_core.specs.Missing.{missing_touch, missing_calls, opens_at};

use rw_objects::{Count, Entry, Found, Versions};

/// How many calls are missing until a touch finds what it found, at the least: none where the object has passed that.
fn missing_touch(found: &Found, here: Count) -> Option<u64>
    ensures { result ≡ missing_touch found.now here }
{
    match *found {
        Found::Read { object: _, version } => version.checked_sub(here.version),
        Found::Write {
            object: _,
            version,
            reads,
        } => {
            if version == here.version {
                reads.checked_sub(here.reads)
            } else {
                version.checked_sub(here.version)
            }
        }
    }
}

/// How many calls are missing until all objects of an entry are as it met them, at the least: none where one of them
/// has passed that.
fn missing_calls(versions: &Versions, expected: &Entry) -> Option<u64>
    ensures { result ≡ missing_calls expected.now.found (count_at versions.now) }
{
    let mut most = 0;
    for found in expected.found.as_slice() {
        match missing_touch(found, versions.at(found.object())) {
            Some(calls) => most = most.max(calls),
            None => return None,
        }
    }
    Some(most)
}

/// With how many calls a call can be entered whose entry is to be this one, where `length` were entered, and it could
/// not be when `seen` were: none where it never can.
pub(crate) fn opens_at(versions: &Versions, length: u64, expected: &Entry, seen: u64) -> Option<u64>
    ensures { result ≡ opens_at length seen (missing_calls expected.now.found (count_at versions.now)) }
{
    match missing_calls(versions, expected) {
        None => None,
        Some(0) if length <= seen => None,
        Some(calls) => Some(length.saturating_add(calls)),
    }
}
