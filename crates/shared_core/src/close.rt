//! The end of a shared space.

ghost use Rattle.std.specs.Prelude.{◌≡◌, ◌≤◌, ◌+◌, ℕ, List, [], ◌++◌, IfOk, OnOk, length, map};
ghost use mathlib.Core.List.{IsPrefix};
ghost use Rattle.rw_objects.specs.Counts.{count_at};
ghost use Rattle.rw_objects.specs.Memory.{memory_of};
ghost use Rattle.shared_parts.specs.Cut.{AllSound};
ghost use Rattle.shared_core.specs.Ends.{AreLedTo};
ghost use Rattle.shared_parts.specs.declared.call.Call.{Call};
ghost use Rattle.shared_parts.specs.Calls.{IsLegalHistory, memory_after_calls, part_of, entries_in, threads_in, IsWithin, AreWithin, calls_of, IsNumbered, AreParts};

use crate::journal::Journal;
use crate::parts::{LockedParts, gather};
use crate::shared::Shared;
use log_pieces::PackedEntries;
use rw_objects::{ObjectSpace, Versioned, Versions};
use shared_parts::{Call, CallLedger, Eight, Held, Latest, Opening, Seat, Striped};
use std::alloc::Global;
use std::boxed::Box;
use std::sync::ledger::Share;
use wasm_types::NoMemory;

/// All calls in their order, as the thread of each and each thread's entries, and the space to which they lead.
#[derive(Drop)]
pub struct History<S: ObjectSpace> {
    /// The thread of each call.
    pub order: Vec<u8>,
    /// The entries of each thread's calls, by thread.
    pub entries: Vec<PackedEntries>,
    /// The space with its versions.
    pub memory: Versioned<S>,
}

/// Takes a seat in. Its calls are among those of its thread.
fn hand_in<S: Striped, J: Opening<S, S::Value, S::Fixed>>(
    seat: Seat<S, J>,
    latest: &Latest<Call<S::Op, S::Reply>, J>,
    all: &mut Share<CallLedger<S, J>>,
) -> PackedEntries
    ensures within { IsWithin seat.calls (part_of seat.thread latest.now) }
    ensures parts { all.new.parts ≡ all.old.parts + 1 }
    ensures amount { all.new.amount ≡ all.old.amount + length seat.calls }
    ensures entries { result ≡ entries_in seat.calls }
{
    let Seat {
        thread: _,
        entries,
        calls: _,
        share,
        reached,
        seen: _,
        shut_at: _,
    } = seat;
    latest.meet(&reached);
    all.merge(share);
    entries
}

/// Takes all seats in. The calls of each are among those of its thread.
fn hand_in_all<S: Striped, J: Opening<S, S::Value, S::Fixed>>(
    alloc: Global,
    seats: Vec<Seat<S, J>>,
    latest: &Latest<Call<S::Op, S::Reply>, J>,
    all: &mut Share<CallLedger<S, J>>,
) -> Result<Vec<PackedEntries>, NoMemory>
    ensures within { OnOk result (AreWithin latest.now seats.items) }
    ensures parts { OnOk result (all.new.parts ≡ all.old.parts + length seats.items) }
    ensures amount { OnOk result (all.new.amount ≡ all.old.amount + calls_of seats.items) }
    ensures entries { IfOk result (λ e. e.items ≡ map (λ s. entries_in s.calls) seats.items) }
{
    let mut entries = Vec::new(alloc);
    for seat in seats {
        entries.push(hand_in(seat, latest, all))?;
    }
    Ok(entries)
}

/// What is left of a shared space once all seats were taken in.
#[derive(Drop)]
struct Ended<S: Striped> {
    order: Vec<u8>,
    entries: Vec<PackedEntries>,
    versions: Versions,
    parts: Eight<Box<S::Part>>,
}

/// Takes in all seats, and the parts out of their locks. The journal is a legal history in which each seat's calls are
/// those of its thread, and it leads to the parts.
fn take_in<S: Striped, J: Opening<S, S::Value, S::Fixed>>(
    held: Held<S, J>,
    alloc: Global,
    parts: LockedParts<S, J>,
    seats: Vec<Seat<S, J>>,
) -> Result<Ended<S>, NoMemory>
    requires all { length seats.items ≡ J.named.threads }
    requires numbered { IsNumbered 0 seats.items }
    ensures legal { IsLegalHistory S.meaning J.named.memory held }
    ensures sound { AllSound S.cut J.named.memory.fixed (memory_after_calls S.meaning J.named.memory held).values }
    ensures whole { IfOk result (λ e. AreLedTo S.lane S.part_fixed S.held S.meaning J.named.memory held e.parts) }
    ensures versions { IfOk result (λ e. count_at e.versions ≡ (memory_after_calls S.meaning J.named.memory held).counts) }
    ensures sized { IfOk result (λ e. length e.versions ≡ S.meaning.objects J.named.memory.fixed) }
    ensures order { IfOk result (λ e. e.order.items ≡ threads_in held) }
    ensures parts { IfOk result (λ e. AreParts held seats.items) }
    ensures no_others { IfOk result (λ e. (t : ℕ) → length seats.items ≤ t → part_of t held ≡ []) }
    ensures entries { IfOk result (λ e. e.entries.items ≡ map (λ s. entries_in s.calls) seats.items) }
{
    let Held {
        versions,
        order,
        latest,
        written,
        mut book,
        rest: mut all,
    } = held;
    let parts = gather(parts, written, &latest);
    let entries = hand_in_all(alloc, seats, &latest, &mut all)?;
    book.audit(&mut all);
    Ok(Ended {
        order,
        entries,
        versions,
        parts,
    })
}

/// Ends it. Handed all seats, it answers a legal history in which each seat's calls are those of its thread.
pub(crate) fn end<S: Striped + Drop, J: Opening<S, S::Value, S::Fixed>>(
    held: Held<S, J>,
    alloc: Global,
    parts: LockedParts<S, J>,
    seats: Vec<Seat<S, J>>,
) -> Result<History<S>, NoMemory>
    requires all { length seats.items ≡ J.named.threads }
    requires numbered { IsNumbered 0 seats.items }
    ensures legal { IsLegalHistory S.meaning J.named.memory held }
    ensures memory { IfOk result (λ h. memory_of h.memory ≡ memory_after_calls S.meaning J.named.memory held) }
    ensures order { IfOk result (λ h. h.order.items ≡ threads_in held) }
    ensures parts { IfOk result (λ h. AreParts held seats.items) }
    ensures no_others { IfOk result (λ h. (t : ℕ) → length seats.items ≤ t → part_of t held ≡ []) }
    ensures entries { IfOk result (λ h. h.entries.items ≡ map (λ s. entries_in s.calls) seats.items) }
{
    let Ended {
        order,
        entries,
        versions,
        parts,
    } = take_in(held, alloc, parts, seats)?;
    let space = S::unite(alloc, parts)?;
    Ok(History {
        order,
        entries,
        memory: Versioned { space, versions },
    })
}

impl<S: Striped + Drop, J: Opening<S, S::Value, S::Fixed>> Shared<S, J> {
    /// Ends it, once no thread uses it.
    pub fn close(self, alloc: Global, seats: Vec<Seat<S, J>>) -> Result<History<S>, NoMemory>
        requires all { length seats.items ≡ J.named.threads }
        requires numbered { IsNumbered 0 seats.items }
        ensures { IfOk result (λ h. (calls : List (Call S.Op S.Reply)) × IsLegalHistory S.meaning J.named.memory calls × (memory_of h.memory ≡ memory_after_calls S.meaning J.named.memory calls) × (h.order.items ≡ threads_in calls) × AreParts calls seats.items × ((t : ℕ) → length seats.items ≤ t → part_of t calls ≡ []) × (h.entries.items ≡ map (λ s. entries_in s.calls) seats.items)) }
    {
        let Shared {
            parts,
            journal,
            changed: _,
            openings: _,
        } = self;
        let Journal {
            held,
            resting: _,
            gates: _,
        } = journal.into_inner().into_inner();
        end(held, alloc, parts, seats)
    }
}
