//! What lies under the journal's lock.

ghost use Rattle.std.specs.Prelude.{◌≡◌, ◌≢◌, ℕ, ◌+◌, ◌<◌, ◌≤◌, List, [], ◌∷◌, ◌++◌, IfOk, Bool, true, false, MatchOption, IsSomeAnd, length};
ghost use Rattle.rw_objects.specs.Space.{Fits, AllBelow, is_ready, reply_of};
ghost use Rattle.rw_objects.specs.Counts.{all_found, count_at, is_touched};
ghost use Rattle.rw_objects.specs.Memory.{entry_of, memory_after};
ghost use Rattle.shared_parts.specs.Cut.{decision_at};
ghost use Rattle.shared_parts.specs.Calls.{call, IsLegalHistory, IsWithin, memory_after_calls, part_of};
ghost use Rattle.shared_parts.specs.Tries.{IfDone, IfShut, IfNotReady, IsDone};

use crate::seat::Seat;
use crate::tried::Tried;
use crate::{Call, CallLedger, Keeps, Latest, Opening, Striped, Written};
use rw_objects::{Entry, Few, Found, Mode, ObjectSpace, Touches, Versions};
use std::alloc::Global;
use std::marker::Model;
use std::snapshot::Snapshot;
use std::sync::ledger::{Book, Share};
use wasm_types::NoMemory;

/// The versions of all objects and the journal. At run time the journal is the thread of each call, a byte each: what
/// was asked and answered is known to proofs alone. Contracts see the list of its calls.
#[derive(Drop)]
pub struct Held<S: Striped, J: Opening<S, S::Value, S::Fixed>> {
    pub versions: Versions,
    pub order: Vec<u8>,
    pub latest: Latest<Call<S::Op, S::Reply>, J>,
    pub written: Written<S, J>,
    pub book: Book<CallLedger<S, J>>,
    pub rest: Share<CallLedger<S, J>>,
}

impl<S: Striped, J: Opening<S, S::Value, S::Fixed>> Model for Held<S, J> {
    ghost use Rattle.std.specs.Prelude.{◌≡◌, ◌≤◌, length, ℕ, List};
    ghost use Rattle.rw_objects.specs.Counts.{count_at};
    ghost use Rattle.shared_parts.specs.declared.call.Call.{Call};
    ghost use Rattle.shared_parts.specs.Cut.{AllSound};
    ghost use Rattle.shared_parts.specs.Calls.{IsLegalHistory, memory_after_calls, threads_in};
    ghost use Rattle.shared_parts.specs.Writes.{writes};
    ghost use Rattle.shared_parts.specs.Eights.{totals_by};

    ghost Value = { List (Call S.Op S.Reply) };

    ghost view = { λ h. h.latest };

    ghost invariant = { λ h. record {
      legal : IsLegalHistory S.meaning J.named.memory h.latest;
      sound : AllSound S.cut J.named.memory.fixed (memory_after_calls S.meaning J.named.memory h.latest).values;
      counts : count_at h.versions ≡ (memory_after_calls S.meaning J.named.memory h.latest).counts;
      sized : length h.versions ≡ S.meaning.objects J.named.memory.fixed;
      few_versions : (o : ℕ) → (count_at h.versions o).version ≤ length h.order.items;
      few_reads : (o : ℕ) → (count_at h.versions o).reads ≤ length h.order.items;
      order : h.order.items ≡ threads_in h.latest;
      written : h.written ≡ totals_by (λ i. writes S.meaning.touches i h.latest);
      total : h.book.total ≡ length h.latest;
      rest : h.rest.parts ≡ 1;
      none : h.rest.amount ≡ 0;
    } };
}

/// What touches would find.
fn find(alloc: Global, versions: &Versions, touches: &Touches) -> Few<Found>
    ensures { result ≡ all_found touches.now (count_at versions.now) }
{
    let mut found = Few::new(alloc);
    for touch in touches.as_slice() {
        let count = versions.at(touch.object);
        found.push(match touch.mode {
            Mode::Read => Found::Read {
                object: touch.object,
                version: count.version,
            },
            Mode::Write => Found::Write {
                object: touch.object,
                version: count.version,
                reads: count.reads,
            },
        });
    }
    found
}

/// Whether two entries are one.
fn is_same(one: &Entry, other: &Entry) -> bool
    ensures same { result ≡ true → one.now ≡ other.now }
    ensures other { result ≡ false → one.now ≢ other.now }
{
    *one == *other
}

impl<S: Striped, J: Opening<S, S::Value, S::Fixed>> Held<S, J> {
    /// How long the journal is, and that it is legal.
    pub fn length(&self) -> usize
        ensures length { result ≡ length self.now }
        ensures legal { IsLegalHistory S.meaning J.named.memory self.now }
    {
        self.order.len()
    }

    /// The versions and read totals of all objects, to which the journal leads.
    pub fn counts(&self) -> &Versions
        ensures { count_at result.now ≡ (memory_after_calls S.meaning J.named.memory self.now).counts }
    {
        &self.versions
    }

    /// Tries one call, over the parts that it touches, with what it decides by what they hold. `Shut` is tested first.
    pub fn enter<K: Keeps<S, J>>(
        &mut self,
        alloc: Global,
        seat: &mut Seat<S, J>,
        op: &S::Op,
        expected: Option<&Entry>,
        touches: &Touches,
        kept: &mut K,
        decision: &S::Decision,
    ) -> Result<Tried<S::Reply>, NoMemory>
        requires fits { Fits S.meaning J.named.memory.fixed op.now }
        requires touches { touches.now ≡ S.meaning.touches op.now }
        requires covers { K.covers kept.old touches.now }
        requires decided { (values : ℕ → S.Value) → K.here kept.old values → decision.now ≡ decision_at S.meaning S.cut J.named.memory.fixed values op.now }
        ensures legal { IsLegalHistory S.meaning J.named.memory self.old }
        ensures holds { IsWithin seat.old.calls (part_of seat.old.thread self.old) }
        ensures done { IfOk result (λ t. IfDone t (λ r e. (is_ready S.meaning J.named.memory.fixed (memory_after_calls S.meaning J.named.memory self.old).values op.now ≡ true) × (r ≡ reply_of S.meaning J.named.memory.fixed (memory_after_calls S.meaning J.named.memory self.old).values op.now) × (e ≡ entry_of S.meaning (memory_after_calls S.meaning J.named.memory self.old) op.now) × (memory_after_calls S.meaning J.named.memory self.new ≡ memory_after S.meaning (memory_after_calls S.meaning J.named.memory self.old) op.now))) }
        ensures journal { IfOk result (λ t. IfDone t (λ r e. self.new ≡ self.old ++ call seat.old.thread op.now r e ∷ [])) }
        ensures own { IfOk result (λ t. IfDone t (λ r e. seat.new.calls ≡ seat.old.calls ++ call seat.old.thread op.now r e ∷ [])) }
        ensures open { IfOk result (λ t. IfDone t (λ r e. MatchOption expected.entry (Unit {0}) (λ x. x.now ≡ e))) }
        ensures shut { IfOk result (λ t. IfShut t (IsSomeAnd expected.entry (λ x. x.now ≢ entry_of S.meaning (memory_after_calls S.meaning J.named.memory self.old) op.now))) }
        ensures not_ready { IfOk result (λ t. IfNotReady t ((is_ready S.meaning J.named.memory.fixed (memory_after_calls S.meaning J.named.memory self.old).values op.now ≡ false) × MatchOption expected.entry (Unit {0}) (λ x. x.now ≡ entry_of S.meaning (memory_after_calls S.meaning J.named.memory self.old) op.now))) }
        ensures kept { (IsDone result ≡ false) → (self.new ≡ self.old) × (seat.new ≡ seat.old) }
        ensures thread { seat.new.thread ≡ seat.old.thread }
    {
        seat.stands_in(&self.latest);
        kept.meet(&self.written, &self.latest);
        let entry = Entry {
            kind: S::kind(op),
            found: find(alloc, &self.versions, touches),
        };
        if let Some(wanted) = expected {
            if !is_same(wanted, &entry) {
                return Ok(Tried::Shut);
            }
        }
        if !S::is_ready(decision) {
            return Ok(Tried::NotReady);
        }
        self.order.reserve(1)?;
        seat.entries.push(&entry)?;
        let reply = S::reply(decision);
        let made = Call {
            thread: u32::from(seat.thread),
            op: *op,
            reply,
            entry,
        };
        let before = self.latest.reached();
        self.latest.meet(&seat.reached);
        self.latest.push(Snapshot::of(&made));
        seat.calls.push(Snapshot::of(&made));
        seat.reached = self.latest.reached();
        self.book.add(&mut seat.share, 1);
        self.order.push_reserved(seat.thread);
        let Call {
            thread: _,
            op: _,
            reply,
            entry,
        } = made;
        self.versions.touch_all(touches);
        kept.advance(
            &mut self.written,
            &before,
            &self.latest,
            touches,
            op,
            decision,
        );
        Ok(Tried::Done(reply, entry))
    }
}
