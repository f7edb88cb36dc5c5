//! Before which gates seats wait, and which of them a call opens.

ghost use Rattle.std.specs.Prelude.{◌≡◌, ◌≤◌, ◌++◌, IfOk, Some, None, length, map, drop, min, replicate, slice_set};
ghost use Rattle.std.specs.List.{list_any};
ghost use Rattle.wasm_types.specs.declared.sizes.TheConstants.{MOST_THREADS};
ghost use Rattle.rw_objects.specs.Counts.{count_at};
ghost use Rattle.shared_core.specs.Gates.{is_met, opens, is_opened, first_shut};

use rw_objects::{Count, Found, Mode, Touch, Versions};
use std::alloc::Global;
use wasm_types::{MOST_THREADS, NoMemory};

/// Whether each seat is one of these, by its number, for as many seats as there are threads at the most.
pub(crate) type Seats = [bool; MOST_THREADS];

/// What each seat waits for before its next call, by its number: a touch that would not have found what it is to find.
#[derive(Debug, Drop)]
pub(crate) struct Gates {
    pub(crate) awaited: Vec<Option<Found>>,
    ghost few: { length awaited.items ≤ MOST_THREADS },
}

/// Whether a touch would find what it is to find, of an object that counts this.
fn is_met(found: &Found, here: Count) -> bool
    ensures { result ≡ is_met found.now here }
{
    match *found {
        Found::Read { object: _, version } => version == here.version,
        Found::Write {
            object: _,
            version,
            reads,
        } => version == here.version && reads == here.reads,
    }
}

/// The first touch that would not find what it is to find.
pub(crate) fn first_shut(wanted: &[Found], versions: &Versions) -> Option<Found>
    ensures { result ≡ first_shut wanted.now (count_at versions.now) }
{
    for found in wanted {
        if !is_met(found, versions.at(found.object())) {
            return Some(*found);
        }
    }
    None
}

/// Whether a touch can be what lets another one find what it is to find.
fn opens(touch: &Touch, found: &Found) -> bool
    ensures { result ≡ opens found.now touch.now }
{
    match *found {
        Found::Read { object, version: _ } => match touch.mode {
            Mode::Read => false,
            Mode::Write => object == touch.object,
        },
        Found::Write {
            object,
            version: _,
            reads: _,
        } => object == touch.object,
    }
}

/// Whether one of these touches can be what lets another one find what it is to find.
fn some_opens(touches: &[Touch], found: &Found) -> bool
    ensures { result ≡ list_any (opens found.now) touches.now }
{
    for touch in touches {
        if opens(touch, found) {
            return true;
        }
    }
    false
}

/// Whether a call with these touches, behind which objects count this, opened the gate before which a seat waits.
fn is_opened(awaited: &Option<Found>, touches: &[Touch], versions: &Versions) -> bool
    ensures { result ≡ is_opened touches.now (count_at versions.now) awaited.now }
{
    match awaited {
        None => false,
        Some(found) => some_opens(touches, found) && is_met(found, versions.at(found.object())),
    }
}

impl Gates {
    /// So many seats, none of which waits: as many as there are threads at the most. Of a seat with a greater number
    /// nothing is noted.
    pub(crate) fn new(alloc: Global, seats: u8) -> Result<Gates, NoMemory>
        ensures { IfOk result (λ g. g.awaited.items ≡ replicate (min seats MOST_THREADS) None) }
    {
        let awaited = vec![in alloc; None; (seats as usize).min(MOST_THREADS)]?;
        Ok(Gates { awaited })
    }

    /// A seat waits for a touch.
    pub(crate) fn wait_for(&mut self, seat: u32, found: Found)
        ensures { self.new.awaited.items ≡ slice_set self.old.awaited.items seat (Some found) }
    {
        if let Some(place) = self.awaited.get_mut(seat as usize) {
            *place = Some(found);
        }
    }

    /// Whether a call with these touches, behind which objects count this, opened gates, and of each seat whether its
    /// gate is one of them.
    pub(crate) fn opened_by(
        &self,
        touches: &[Touch],
        versions: &Versions,
        opened: &mut Seats,
    ) -> bool
        ensures some { result ≡ list_any (is_opened touches.now (count_at versions.now)) self.now.awaited.items }
        ensures seats { opened.new ≡ map (is_opened touches.now (count_at versions.now)) self.now.awaited.items ++ drop (length self.now.awaited.items) opened.old }
    {
        let mut some = false;
        for (seat, awaited) in self.awaited.iter().enumerate() {
            let is_open = is_opened(awaited, touches, versions);
            opened[seat] = is_open;
            some |= is_open;
        }
        some
    }
}
