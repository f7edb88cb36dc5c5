//! The parts of a shared space under their locks. What is said of each of the eight parts stands in eight rows, since
//! the number of a part is in its type.

ghost use Rattle.std.specs.Prelude.{◌≡◌, ◌%◌, ◌<◌, ◌∷◌, [], box_value};
ghost use Rattle.shared_parts.specs.Parts.{IsPart, AreParts};
ghost use Rattle.shared_parts.specs.Calls.{memory_after_calls};
ghost use Rattle.shared_parts.specs.Writes.{writes};
ghost use Rattle.shared_parts.specs.Eights.{IsKept, Covers, totals_by};
ghost use Rattle.shared_parts.specs.Ones.{CoversOne};

use crate::looking::{read, write};
use rw_objects::{Mode, ObjectSpace, Touch, Touches};
use shared_parts::{
    Call, Eight, KeptPart, KeptParts, Lane, Latest, OneOf, OnePart, Opening, SecondHalf, Stripe,
    Striped, Written, has_lane, lane_writes,
};
use std::boxed::Box;
use std::sync::{RwLock, Wait};

/// The parts, each under a lock that readers share.
#[derive(Drop)]
pub struct LockedParts<S: Striped, J: Opening<S, S::Value, S::Fixed>> {
    pub zero: RwLock<Stripe<S, J, 0>>,
    pub one: RwLock<Stripe<S, J, 1>>,
    pub two: RwLock<Stripe<S, J, 2>>,
    pub three: RwLock<Stripe<S, J, 3>>,
    pub four: RwLock<Stripe<S, J, 4>>,
    pub five: RwLock<Stripe<S, J, 5>>,
    pub six: RwLock<Stripe<S, J, 6>>,
    pub seven: RwLock<Stripe<S, J, 7>>,
}

/// Waits for a part, where an operation touches it: for reading where it writes no object of it, else for writing.
fn wait_for<'a, S: Striped, J: Opening<S, S::Value, S::Fixed>, R: Wait, const I: u64>(
    rt: &R,
    lock: &'a RwLock<Stripe<S, J, I>>,
    touches: &Touches,
) -> KeptPart<'a, S, J, I>
    requires { I < 8 }
    ensures { IsKept I touches.now result }
{
    if !has_lane(I as u32, touches) {
        return KeptPart {
            read: None,
            write: None,
        };
    }
    if lane_writes(I, touches) == 0 {
        KeptPart {
            read: Some(read(rt, lock)),
            write: None,
        }
    } else {
        KeptPart {
            read: None,
            write: Some(write(rt, lock)),
        }
    }
}

/// Waits for the part of the one object that an operation touches: for reading where it reads the object, else for
/// writing.
fn wait_for_one<'a, S: Striped, J: Opening<S, S::Value, S::Fixed>, R: Wait, const I: u64>(
    rt: &R,
    lock: &'a RwLock<Stripe<S, J, I>>,
    touch: Touch,
) -> KeptPart<'a, S, J, I>
    requires { touch.object % 8 ≡ I }
    ensures { IsKept I (touch ∷ []) result }
{
    match touch.mode {
        Mode::Read => KeptPart {
            read: Some(read(rt, lock)),
            write: None,
        },
        Mode::Write => KeptPart {
            read: None,
            write: Some(write(rt, lock)),
        },
    }
}

impl<S: Striped, J: Opening<S, S::Value, S::Fixed>> LockedParts<S, J> {
    /// Waits for the part of the one object that an operation touches.
    pub(crate) fn keep_one<R: Wait>(&self, rt: &R, touch: Touch) -> OnePart<'_, S, J>
        ensures { CoversOne (touch ∷ []) result }
    {
        let part = match touch.object % 8 {
            0 => OneOf::Zero(wait_for_one(rt, &self.zero, touch)),
            1 => OneOf::One(wait_for_one(rt, &self.one, touch)),
            2 => OneOf::Two(wait_for_one(rt, &self.two, touch)),
            3 => OneOf::Three(wait_for_one(rt, &self.three, touch)),
            4 => OneOf::Four(wait_for_one(rt, &self.four, touch)),
            5 => OneOf::Five(wait_for_one(rt, &self.five, touch)),
            6 => OneOf::Six(wait_for_one(rt, &self.six, touch)),
            _ => OneOf::Seven(wait_for_one(rt, &self.seven, touch)),
        };
        OnePart { part }
    }

    /// Waits for the parts that an operation touches, each once, in rising order.
    pub(crate) fn keep<R: Wait>(&self, rt: &R, touches: &Touches) -> KeptParts<'_, S, J>
        ensures { Covers touches.now result }
    {
        KeptParts {
            zero: wait_for(rt, &self.zero, touches),
            one: wait_for(rt, &self.one, touches),
            two: wait_for(rt, &self.two, touches),
            three: wait_for(rt, &self.three, touches),
            four: wait_for(rt, &self.four, touches),
            five: wait_for(rt, &self.five, touches),
            six: wait_for(rt, &self.six, touches),
            seven: wait_for(rt, &self.seven, touches),
        }
    }
}

/// Takes a part out of its lock. It is what the journal leads to.
fn take<S: Striped, J: Opening<S, S::Value, S::Fixed>, const I: u64>(
    lock: RwLock<Stripe<S, J, I>>,
    written: SecondHalf<Lane<S, J, I>>,
    latest: &Latest<Call<S::Op, S::Reply>, J>,
) -> Box<S::Part>
    requires total { written ≡ writes S.meaning.touches I latest.now }
    ensures part { IsPart S.lane S.part_fixed S.held I J.named.memory.fixed (memory_after_calls S.meaning J.named.memory latest.now).values (box_value result) }
{
    let stripe = lock.into_inner();
    stripe.meet(&written, latest);
    stripe.into_part()
}

/// Takes all parts out of their locks. They are those of the space to which the journal leads.
pub(crate) fn gather<S: Striped, J: Opening<S, S::Value, S::Fixed>>(
    parts: LockedParts<S, J>,
    written: Written<S, J>,
    latest: &Latest<Call<S::Op, S::Reply>, J>,
) -> Eight<Box<S::Part>>
    requires totals { written ≡ totals_by (λ i. writes S.meaning.touches i latest.now) }
    ensures parts { AreParts S.lane S.part_fixed S.held J.named.memory.fixed (memory_after_calls S.meaning J.named.memory latest.now).values result }
{
    Eight {
        zero: take(parts.zero, written.zero, latest),
        one: take(parts.one, written.one, latest),
        two: take(parts.two, written.two, latest),
        three: take(parts.three, written.three, latest),
        four: take(parts.four, written.four, latest),
        five: take(parts.five, written.five, latest),
        six: take(parts.six, written.six, latest),
        seven: take(parts.seven, written.seven, latest),
    }
}
