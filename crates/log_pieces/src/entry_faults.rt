//! What is wrong in entries that are none.

use crate::fault::{EntryFault, LineFault};
use crate::packed::{take_entry, take_touch};
use rw_objects::Found;
use std::alloc::Global;

/// The first of so many entries at the front of bytes that is none, or that breaks the rule of a piece's entries; None
/// where all are right.
pub(crate) fn first_bad_entry(
    alloc: Global,
    count: u16,
    greatest: u32,
    bytes: &[u8],
) -> Option<LineFault> {
    let mut rest = bytes;
    for place in 0..count {
        let entry = u32::from(place) + 1;
        match take_entry(alloc, rest) {
            Some((read, behind)) => {
                if let Some(fault) = broken_rule(greatest, read.found.as_slice()) {
                    return Some(LineFault::Entry { entry, fault });
                }
                rest = behind;
            }
            None => {
                let fault = unread_entry(rest);
                return Some(LineFault::Entry { entry, fault });
            }
        }
    }
    None
}

/// The rule that the touches of an entry break.
fn broken_rule(greatest: u32, found: &[Found]) -> Option<EntryFault> {
    if found.is_empty() {
        return Some(EntryFault::BadCount { touches: 0 });
    }
    let mut least: u64 = 0;
    for touch in found {
        let object = touch.object();
        if u64::from(object) < least {
            return Some(EntryFault::NotRising { object });
        }
        if object > greatest {
            return Some(EntryFault::BadObject { object, greatest });
        }
        least = u64::from(object) + 1;
    }
    None
}

/// Why no entry is read at the front of bytes.
fn unread_entry(bytes: &[u8]) -> EntryFault {
    match bytes {
        [kind, ..] if *kind > 2 => EntryFault::BadKind { kind: *kind },
        [_, touches, ..] if *touches > 3 => EntryFault::BadCount { touches: *touches },
        [_, touches, rest @ ..] => unread_touch(*touches, rest),
        _ => EntryFault::EndsEarly,
    }
}

/// Why not so many touches are read at the front of bytes.
fn unread_touch(count: u8, bytes: &[u8]) -> EntryFault {
    let mut rest = bytes;
    for _ in 0..count {
        match take_touch(rest) {
            Some((_, behind)) => rest = behind,
            None => {
                return match rest {
                    [_, _, _, _, mode, ..] if *mode > 1 => EntryFault::BadMode { mode: *mode },
                    _ => EntryFault::EndsEarly,
                };
            }
        }
    }
    EntryFault::EndsEarly
}
