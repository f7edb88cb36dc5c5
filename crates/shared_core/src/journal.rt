//! What stands under the journal's lock.

ghost use Rattle.std.specs.Prelude.{◌≡◌, ◌&&◌, ◌++◌, nat_lt, not, length, map, drop, option_map};
ghost use Rattle.std.specs.List.{list_any};
ghost use Rattle.shared_parts.specs.Calls.{memory_after_calls};
ghost use Rattle.shared_core.specs.Gates.{is_opened, awaited_before, waiting};
ghost use Rattle.shared_core.specs.Resting.{none_goes};

use crate::gates::{Gates, Seats, first_shut};
use crate::resting::Resting;
use rw_objects::{Entry, Touches};
use shared_parts::{Held, Opening, Striped};

/// The journal with the versions of all objects, which seats can go on, and before which gates seats wait.
#[derive(Drop)]
pub(crate) struct Journal<S: Striped, J: Opening<S, S::Value, S::Fixed>> {
    pub(crate) held: Held<S, J>,
    pub(crate) resting: Resting,
    pub(crate) gates: Gates,
}

impl<S: Striped, J: Opening<S, S::Value, S::Fixed>> Journal<S, J> {
    /// How many calls were entered.
    pub(crate) fn length(&self) -> u64
        ensures { result ≡ length self.now.held }
    {
        self.held.length() as u64
    }

    /// Whether the call that was just entered with these touches opened gates, and of each seat whether its gate is one
    /// of them.
    pub(crate) fn opens(&self, touches: &Touches, opened: &mut Seats) -> bool
        ensures some { result ≡ list_any (is_opened touches.now (memory_after_calls S.meaning J.named.memory self.now.held).counts) self.now.gates.awaited.items }
        ensures seats { opened.new ≡ map (is_opened touches.now (memory_after_calls S.meaning J.named.memory self.now.held).counts) self.now.gates.awaited.items ++ drop (length self.now.gates.awaited.items) opened.old }
    {
        self.gates
            .opened_by(touches.as_slice(), self.held.counts(), opened)
    }

    /// Notes what a seat waits for before its next call, which is to have this entry, if one is known. Answers how many
    /// calls were entered, where the gate of that call is shut.
    pub(crate) fn wait_before(&mut self, seat: u32, next: Option<&Entry>) -> Option<u64>
        ensures answer { result ≡ option_map (λ f. length self.old.held) (awaited_before (memory_after_calls S.meaning J.named.memory self.old.held).counts next.entry) }
        ensures noted { self.new.gates.awaited.items ≡ waiting self.old.gates.awaited.items seat (awaited_before (memory_after_calls S.meaning J.named.memory self.old.held).counts next.entry) }
        ensures held { self.new.held ≡ self.old.held }
        ensures resting { self.new.resting ≡ self.old.resting }
    {
        let Some(entry) = next else {
            return None;
        };
        let Some(shut) = first_shut(entry.found.as_slice(), self.held.counts()) else {
            return None;
        };
        self.gates.wait_for(seat, shut);
        Some(self.length())
    }

    /// Whether no seat can go on: each rests until more calls were entered, or has left.
    pub(crate) fn none_goes(&self) -> bool
        ensures { result ≡ none_goes (length self.now.held) self.now.resting.seats.items }
    {
        self.resting.none_goes(self.length())
    }

    /// Whether a seat that rests until so many calls goes on resting: fewer were entered, and some seat can go on.
    pub(crate) fn is_still(&self, until: u64) -> bool
        ensures { result ≡ (nat_lt (length self.now.held) until && not (none_goes (length self.now.held) self.now.resting.seats.items)) }
    {
        self.length() < until && !self.none_goes()
    }
}
