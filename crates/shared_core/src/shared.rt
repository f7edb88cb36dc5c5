//! A shared space: its parts under read-write locks, and the journal under a lock of its own.

ghost use Rattle.std.specs.Prelude.{◌≡◌, ℕ, ◌∷◌, ◌++◌, [], IfOk, false};
ghost use Rattle.rw_objects.specs.Space.{Fits};
ghost use Rattle.shared_parts.specs.Cut.{decision_at};
ghost use Rattle.shared_parts.specs.Calls.{call};
ghost use Rattle.shared_parts.specs.Tries.{IfDone, IfShut, IfNotReady, IsDone};
ghost use Rattle.shared_core.specs.Tries.{IsTry, WasNotReady, WasNotReadyAt, WasAnother};

use crate::hold::Hold;
use crate::journal::Journal;
use crate::looking::lock;
use crate::missing::opens_at;
use crate::openings::Openings;
use crate::parts::LockedParts;
use crate::resting::Wakes;
use crate::waking::Conditions;
use crossbeam_utils::CachePadded;
use rw_objects::{Entry, ObjectSpace, Touches};
use shared_parts::{Keeps, Opening, Seat, Striped, Tried, decide_one};
use std::alloc::Global;
use std::sync::{Mutex, Wait};
use wasm_types::{MOST_THREADS, NoMemory};

/// A space shared by threads, each of which has a seat: its parts, the journal of all calls, and what wakes those that
/// rest.
#[derive(Drop)]
pub struct Shared<S: Striped, J: Opening<S, S::Value, S::Fixed>> {
    pub(crate) parts: LockedParts<S, J>,
    /// In memory apart from its lock, which threads that look at the lock take from the one that has it.
    pub(crate) journal: Mutex<CachePadded<Journal<S, J>>>,
    pub(crate) changed: Conditions,
    /// Whose gates were opened.
    pub(crate) openings: Openings,
}

impl<S: Striped, J: Opening<S, S::Value, S::Fixed>> Shared<S, J> {
    /// Tries a call once, over the parts that it touches, which are kept until it is made, with what it decides by what
    /// they hold. The journal's lock is given back before the parts. A seat that rests until just so many calls is
    /// woken, and those whose gates the call opened are told. What the seat itself waits for next is noted, under the
    /// same lock.
    fn try_over<K: Keeps<S, J> + Drop, R: Wait, H: Hold>(
        &self,
        rt: &R,
        alloc: Global,
        seat: &mut Seat<S, J>,
        op: &S::Op,
        expected: Option<&Entry>,
        next: Option<&Entry>,
        touches: &Touches,
        kept: K,
        decision: &S::Decision,
        hold: &H,
    ) -> Result<Tried<S::Reply>, NoMemory>
        requires fits { Fits S.meaning J.named.memory.fixed op.now }
        requires touches { touches.now ≡ S.meaning.touches op.now }
        requires covers { K.covers kept touches.now }
        requires decided { (values : ℕ → S.Value) → K.here kept values → decision.now ≡ decision_at S.meaning S.cut J.named.memory.fixed values op.now }
        ensures { IsTry S.meaning J.named.memory op.now expected.entry seat.old seat.new result }
    {
        let (thread, place) = (seat.thread(), seat.entries().len() as u64);
        let mut kept = kept;
        let mut journal = lock(rt, &self.journal);
        let answer = journal
            .held
            .enter(alloc, seat, op, expected, touches, &mut kept, decision);
        let is_entered = matches!(&answer, Ok(Tried::Done(..)));
        let entered = journal.length();
        let wakes = if is_entered {
            journal.resting.entered(entered)
        } else {
            Wakes::Nobody
        };
        let mut opened = [false; MOST_THREADS];
        let opens = is_entered && expected.is_some() && journal.opens(touches, &mut opened);
        let next = if is_entered { next } else { expected };
        seat.note_shut(journal.wait_before(thread, next));
        drop(journal);
        if is_entered {
            hold.inside(thread, place);
        }
        drop(kept);
        if opens {
            self.openings.tell(&opened, entered);
        }
        self.changed.wake(wakes);
        answer
    }

    /// Tries a call once that may touch several objects. Room for eight parts is made here alone, so that a call of one
    /// object makes none.
    #[inline(never)]
    fn try_several<R: Wait, H: Hold>(
        &self,
        rt: &R,
        alloc: Global,
        seat: &mut Seat<S, J>,
        op: &S::Op,
        expected: Option<&Entry>,
        next: Option<&Entry>,
        touches: &Touches,
        hold: &H,
    ) -> Result<Tried<S::Reply>, NoMemory>
        requires fits { Fits S.meaning J.named.memory.fixed op.now }
        requires touches { touches.now ≡ S.meaning.touches op.now }
        ensures { IsTry S.meaning J.named.memory op.now expected.entry seat.old seat.new result }
    {
        let kept = self.parts.keep(rt, touches);
        let decision = match seat.decide(&kept, touches, op) {
            Ok(decision) => decision,
            Err(error) => {
                drop(kept);
                return Err(error);
            }
        };
        self.try_over(
            rt, alloc, seat, op, expected, next, touches, kept, &decision, hold,
        )
    }

    /// Tries a call once. The locks of the touched parts are asked for in rising order, and what it decides by what
    /// they hold is found before the journal's lock is asked for.
    fn try_call<R: Wait, H: Hold>(
        &self,
        rt: &R,
        alloc: Global,
        seat: &mut Seat<S, J>,
        op: S::Op,
        expected: Option<&Entry>,
        next: Option<&Entry>,
        hold: &H,
    ) -> Result<Tried<S::Reply>, NoMemory>
        requires fits { Fits S.meaning J.named.memory.fixed op }
        ensures { IsTry S.meaning J.named.memory op expected.entry seat.old seat.new result }
    {
        let (thread, place) = (seat.thread(), seat.entries().len() as u64);
        hold.before(thread, place);
        let touches = S::touches(alloc, &op);
        let answer = match touches.as_slice() {
            [touch] => {
                let kept = self.parts.keep_one(rt, *touch);
                let decision = decide_one(&kept, *touch, &op);
                self.try_over(
                    rt, alloc, seat, &op, expected, next, &touches, kept, &decision, hold,
                )
            }
            _ => self.try_several(rt, alloc, seat, &op, expected, next, &touches, hold),
        };
        hold.after(thread, place);
        answer
    }

    /// Tries a call: where it is ready it is entered, behind the seat's other calls. It never answers `Shut`, and
    /// `NotReady` only where a legal history that has the seat's calls leads to a space in which it is not ready: the
    /// journal as it was met.
    pub fn access<R: Wait, H: Hold>(
        &self,
        rt: &R,
        alloc: Global,
        seat: &mut Seat<S, J>,
        op: S::Op,
        hold: &H,
    ) -> Result<Tried<S::Reply>, NoMemory>
        requires fits { Fits S.meaning J.named.memory.fixed op }
        ensures done { IfOk result (λ t. IfDone t (λ r e. seat.new.calls ≡ seat.old.calls ++ call seat.old.thread op r e ∷ [])) }
        ensures never_shut { IfOk result (λ t. IfShut t ⊥) }
        ensures not_ready { IfOk result (λ t. IfNotReady t (WasNotReady S.meaning J.named.memory op seat.old)) }
        ensures kept { (IsDone result ≡ false) → seat.new ≡ seat.old }
        ensures thread { seat.new.thread ≡ seat.old.thread }
    {
        self.try_call(rt, alloc, seat, op, None, None, hold)
    }

    /// Tries a call whose entry is to be this one: where it is, and the call is ready, it is entered, behind the seat's
    /// other calls. It answers `Shut` only where its entry would be another one in the space to which a legal history
    /// leads that has the seat's calls, and `NotReady` only where it would have this entry and is not ready in such a
    /// space: the journal as it was met. `next` is the entry of the call behind it, if it is known: where that one's
    /// gate is shut yet, the seat's next try waits for a while until it is opened.
    pub fn access_at<R: Wait, H: Hold>(
        &self,
        rt: &R,
        alloc: Global,
        seat: &mut Seat<S, J>,
        op: S::Op,
        expected: &Entry,
        next: Option<&Entry>,
        hold: &H,
    ) -> Result<Tried<S::Reply>, NoMemory>
        requires fits { Fits S.meaning J.named.memory.fixed op }
        ensures done { IfOk result (λ t. IfDone t (λ r e. seat.new.calls ≡ seat.old.calls ++ call seat.old.thread op r expected.now ∷ [])) }
        ensures entry { IfOk result (λ t. IfDone t (λ r e. e ≡ expected.now)) }
        ensures shut { IfOk result (λ t. IfShut t (WasAnother S.meaning J.named.memory op seat.old expected.now)) }
        ensures not_ready { IfOk result (λ t. IfNotReady t (WasNotReadyAt S.meaning J.named.memory op seat.old expected.now)) }
        ensures kept { (IsDone result ≡ false) → seat.new ≡ seat.old }
        ensures thread { seat.new.thread ≡ seat.old.thread }
    {
        if let Some(shut_at) = seat.shut_at {
            self.openings.look(seat.thread(), shut_at);
        }
        self.try_call(rt, alloc, seat, op, Some(expected), next, hold)
    }

    /// How many calls were entered.
    pub fn length<R: Wait>(&self, rt: &R) -> u64 {
        lock(rt, &self.journal).length()
    }

    /// Waits until so many calls were entered, or no seat can go on. Answers how many were entered: fewer where no seat
    /// can go on. The seat then rests for good, so the others are told the same.
    fn rest_until<R: Wait>(&self, rt: &R, seat: &Seat<S, J>, until: u64) -> u64 {
        let number = seat.thread();
        let mut journal = lock(rt, &self.journal);
        if journal.length() >= until {
            return journal.length();
        }
        journal.resting.rest(number, until);
        if journal.none_goes() {
            let length = journal.length();
            drop(journal);
            self.changed.wake(Wakes::All);
            return length;
        }
        let mut journal = self
            .changed
            .of(number as usize)
            .wait_while(rt, journal, |journal| journal.is_still(until));
        let length = journal.length();
        if length >= until {
            journal.resting.goes_on(number);
        }
        length
    }

    /// Waits until more than `seen` calls were entered, or no seat can go on. Answers how many were entered: `seen`
    /// where no seat can go on, since each rests until there are more, or has left. Once that was answered it stays so,
    /// as long as no seat that was told it enters a call.
    pub fn rest<R: Wait>(&self, rt: &R, seat: &Seat<S, J>, seen: u64) -> u64 {
        self.rest_until(rt, seat, seen.saturating_add(1))
    }

    /// Waits before the gate of a call whose entry is to be this one, and which could not be entered when `seen` calls
    /// were. Answers how many were entered then, at the least, where it is to be tried again: it is not where an object
    /// has passed what the entry met, where nothing is missing and no call was entered since, or where no seat can go
    /// on.
    pub fn rest_before<R: Wait>(
        &self,
        rt: &R,
        seat: &Seat<S, J>,
        expected: &Entry,
        seen: u64,
    ) -> Option<u64> {
        if let Some(shut_at) = seat.shut_at {
            if self.openings.look(seat.thread(), shut_at) {
                return Some(shut_at.saturating_add(1));
            }
        }
        let journal = lock(rt, &self.journal);
        let opens_at = opens_at(journal.held.counts(), journal.length(), expected, seen);
        drop(journal);
        let until = opens_at?;
        let length = self.rest_until(rt, seat, until);
        if length < until { None } else { Some(length) }
    }

    /// The seat enters no more calls, so nobody waits for it: its thread has done its work, or none was made.
    pub fn leave<R: Wait>(&self, rt: &R, seat: &Seat<S, J>) {
        let mut journal = lock(rt, &self.journal);
        journal.resting.leave(seat.thread());
        let is_over = journal.none_goes();
        drop(journal);
        if is_over {
            self.changed.wake(Wakes::All);
        }
    }
}
