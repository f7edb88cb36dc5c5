//! The parts that an operation touches, kept for it.

ghost use Rattle.std.specs.Prelude.{◌≡◌, ◌≢◌, ◌%◌, ◌<◌, ℕ, true, is_some, nat_lt, option_copied, option_map};
ghost use Rattle.rw_objects.specs.Space.{Fits};
ghost use Rattle.rw_objects.specs.Counts.{is_touched};
ghost use Rattle.shared_parts.specs.Parts.{lane_writes};
ghost use Rattle.std.specs.Sync.RwLock.{write_guard_value};
ghost use Rattle.shared_parts.specs.Calls.{memory_after_calls};
ghost use Rattle.shared_parts.specs.Writes.{writes};
ghost use Rattle.shared_parts.specs.Steps.{IsStep};
ghost use Rattle.shared_parts.specs.Eights.{IsKept, IsAt, IsHere, IsOfLane, here_in};

use crate::call::Call;
use crate::chain::{Latest, Reached};
use crate::keeps::Keeps;
use crate::naming::{Lane, Opening};
use crate::numbers::SecondHalf;
use crate::stripe::Stripe;
use crate::striped::Striped;
use rw_objects::{ObjectSpace, Touches};
use std::marker::Model;
use std::sync::{RwLockReadGuard, RwLockWriteGuard};

/// How often each part was written, as the journal knows it.
#[derive(Drop)]
pub struct Written<S: Striped, J: Opening<S, S::Value, S::Fixed>> {
    pub zero: SecondHalf<Lane<S, J, 0>>,
    pub one: SecondHalf<Lane<S, J, 1>>,
    pub two: SecondHalf<Lane<S, J, 2>>,
    pub three: SecondHalf<Lane<S, J, 3>>,
    pub four: SecondHalf<Lane<S, J, 4>>,
    pub five: SecondHalf<Lane<S, J, 5>>,
    pub six: SecondHalf<Lane<S, J, 6>>,
    pub seven: SecondHalf<Lane<S, J, 7>>,
}

impl<S: Striped, J: Opening<S, S::Value, S::Fixed>> Model for Written<S, J> {
    ghost use Rattle.shared_parts.specs.Eights.{Totals};

    ghost Value = { Totals };

    ghost view = { λ w. record { zero = w.zero; one = w.one; two = w.two; three = w.three; four = w.four; five = w.five; six = w.six; seven = w.seven } };
}

/// A part that is kept for reading or for writing, or not at all.
pub struct KeptPart<'a, S: Striped, J: Opening<S, S::Value, S::Fixed>, const I: u64> {
    pub read: Option<RwLockReadGuard<'a, Stripe<S, J, I>>>,
    pub write: Option<RwLockWriteGuard<'a, Stripe<S, J, I>>>,
}

impl<'a, S: Striped, J: Opening<S, S::Value, S::Fixed>, const I: u64> Model
    for KeptPart<'a, S, J, I> {
    ghost use Rattle.std.specs.Prelude.{option_map};
    ghost use Rattle.std.specs.Sync.RwLock.{read_guard_value, write_guard_value};
    ghost use Rattle.shared_parts.specs.Eights.{Kept};

    ghost Value = { Kept S.Part };

    ghost view = { λ k. record { read = option_map read_guard_value k.read; write = option_map write_guard_value k.write } };
}

impl<S: Striped, J: Opening<S, S::Value, S::Fixed>, const I: u64> Drop for KeptPart<'_, S, J, I> {
    fn drop(self) {
        let KeptPart { read, write } = self;
        drop(read);
        drop(write);
    }
}

impl<S: Striped, J: Opening<S, S::Value, S::Fixed>, const I: u64> KeptPart<'_, S, J, I> {
    /// What is here is what the journal leads to, which knows as many writes of it.
    pub(crate) fn meet(
        &self,
        written: &SecondHalf<Lane<S, J, I>>,
        latest: &Latest<Call<S::Op, S::Reply>, J>,
    )
        ensures { written.now ≡ writes S.meaning.touches I latest.now → IsHere S.held I (memory_after_calls S.meaning J.named.memory latest.now).values self.now }
    {
        match (&self.write, &self.read) {
            (Some(guard), _) => guard.meet(written, latest),
            (None, Some(guard)) => guard.meet(written, latest),
            (None, None) => {}
        }
    }

    /// What is kept of the part.
    pub(crate) fn part(&self) -> Option<&S::Part>
        ensures part { option_copied result ≡ here_in self.now }
        ensures lane { IsOfLane S.lane S.part_fixed I J.named.memory.fixed (here_in self.now) }
    {
        match (&self.write, &self.read) {
            (Some(guard), _) => Some(guard.part()),
            (None, Some(guard)) => Some(guard.part()),
            (None, None) => None,
        }
    }

    /// Looks at an object that an operation touches, where it is of this part.
    fn look(&self, object: u32, op: &S::Op, seen: &mut S::Seen)
        requires fits { Fits S.meaning J.named.memory.fixed op.now }
        requires touched { is_touched (S.meaning.touches op.now) object ≡ true }
        requires kept { IsKept I (S.meaning.touches op.now) self.now }
        ensures mine { object % 8 ≡ I → (values : ℕ → S.Value) → IsHere S.held I values self.now → seen.new ≡ S.cut.sight J.named.memory.fixed op.now object (values object) }
        ensures other { object % 8 ≢ I → seen.new ≡ seen.old }
    {
        if u64::from(object % 8) == I {
            match self.part() {
                Some(part) => *seen = S::look(part, object, op),
                None => unreachable!(),
            }
        }
    }
}

/// Makes what a call that the journal has just got makes of a part. `before` knows the calls before it.
pub(crate) fn advance<S: Striped, J: Opening<S, S::Value, S::Fixed>, const I: u64>(
    write: &mut Option<RwLockWriteGuard<'_, Stripe<S, J, I>>>,
    written: &mut SecondHalf<Lane<S, J, I>>,
    before: &Reached<Call<S::Op, S::Reply>, J>,
    latest: &Latest<Call<S::Op, S::Reply>, J>,
    touches: &Touches,
    op: &S::Op,
    decision: &S::Decision,
)
    requires step { IsStep S.meaning S.cut J.named.memory before.now latest.now touches.now op.now decision.now }
    requires total { written.old ≡ writes S.meaning.touches I before.now }
    requires kept { is_some (option_map write_guard_value write.old) ≡ nat_lt 0 (lane_writes I (S.meaning.touches op.now)) }
    requires here { IsAt S.held I (memory_after_calls S.meaning J.named.memory before.now).values (option_map write_guard_value write.old) }
    ensures total { written.new ≡ writes S.meaning.touches I latest.now }
{
    match write {
        Some(guard) => guard.advance(written, before, latest, touches, op, decision),
        None => {}
    }
}

/// The parts that an operation touches, each kept for reading or for writing. Contracts see what each holds.
pub struct KeptParts<'a, S: Striped, J: Opening<S, S::Value, S::Fixed>> {
    pub zero: KeptPart<'a, S, J, 0>,
    pub one: KeptPart<'a, S, J, 1>,
    pub two: KeptPart<'a, S, J, 2>,
    pub three: KeptPart<'a, S, J, 3>,
    pub four: KeptPart<'a, S, J, 4>,
    pub five: KeptPart<'a, S, J, 5>,
    pub six: KeptPart<'a, S, J, 6>,
    pub seven: KeptPart<'a, S, J, 7>,
}

impl<'a, S: Striped, J: Opening<S, S::Value, S::Fixed>> Model for KeptParts<'a, S, J> {
    ghost use Rattle.shared_parts.specs.Eights.{Eights};

    ghost Value = { Eights S.Part };

    ghost view = { λ k. record { zero = k.zero; one = k.one; two = k.two; three = k.three; four = k.four; five = k.five; six = k.six; seven = k.seven } };
}

impl<'a, S: Striped, J: Opening<S, S::Value, S::Fixed>> Drop for KeptParts<'a, S, J> {
    fn drop(self) {
        let KeptParts {
            zero,
            one,
            two,
            three,
            four,
            five,
            six,
            seven,
        } = self;
        drop(zero);
        drop(one);
        drop(two);
        drop(three);
        drop(four);
        drop(five);
        drop(six);
        drop(seven);
    }
}

impl<'a, S: Striped, J: Opening<S, S::Value, S::Fixed>> Keeps<S, J> for KeptParts<'a, S, J> {
    ghost use Rattle.shared_parts.specs.Eights.{AreHere, Covers};

    ghost covers = { λ kept touches. Covers touches kept };

    ghost here = { λ kept values. AreHere S.held values kept };

    fn meet(&self, written: &Written<S, J>, latest: &Latest<Call<S::Op, S::Reply>, J>) {
        self.zero.meet(&written.zero, latest);
        self.one.meet(&written.one, latest);
        self.two.meet(&written.two, latest);
        self.three.meet(&written.three, latest);
        self.four.meet(&written.four, latest);
        self.five.meet(&written.five, latest);
        self.six.meet(&written.six, latest);
        self.seven.meet(&written.seven, latest);
    }

    fn look(&self, object: u32, op: &S::Op) -> S::Seen {
        let mut seen = Default::default();
        self.zero.look(object, op, &mut seen);
        self.one.look(object, op, &mut seen);
        self.two.look(object, op, &mut seen);
        self.three.look(object, op, &mut seen);
        self.four.look(object, op, &mut seen);
        self.five.look(object, op, &mut seen);
        self.six.look(object, op, &mut seen);
        self.seven.look(object, op, &mut seen);
        seen
    }

    fn advance(
        &mut self,
        written: &mut Written<S, J>,
        before: &Reached<Call<S::Op, S::Reply>, J>,
        latest: &Latest<Call<S::Op, S::Reply>, J>,
        touches: &Touches,
        op: &S::Op,
        decision: &S::Decision,
    ) {
        advance(
            &mut self.zero.write,
            &mut written.zero,
            before,
            latest,
            touches,
            op,
            decision,
        );
        advance(
            &mut self.one.write,
            &mut written.one,
            before,
            latest,
            touches,
            op,
            decision,
        );
        advance(
            &mut self.two.write,
            &mut written.two,
            before,
            latest,
            touches,
            op,
            decision,
        );
        advance(
            &mut self.three.write,
            &mut written.three,
            before,
            latest,
            touches,
            op,
            decision,
        );
        advance(
            &mut self.four.write,
            &mut written.four,
            before,
            latest,
            touches,
            op,
            decision,
        );
        advance(
            &mut self.five.write,
            &mut written.five,
            before,
            latest,
            touches,
            op,
            decision,
        );
        advance(
            &mut self.six.write,
            &mut written.six,
            before,
            latest,
            touches,
            op,
            decision,
        );
        advance(
            &mut self.seven.write,
            &mut written.seven,
            before,
            latest,
            touches,
            op,
            decision,
        );
    }
}
