//! One part of a shared space.

ghost use Rattle.std.specs.Prelude.{◌≡◌, ◌%◌, ◌/◌, ◌<◌, true, box_value};
ghost use Rattle.rw_objects.specs.Space.{Fits};
ghost use Rattle.rw_objects.specs.Counts.{is_touched};
ghost use Rattle.shared_parts.specs.Parts.{IsPart, part_values, lane_writes};
ghost use Rattle.shared_parts.specs.Calls.{memory_after_calls};
ghost use Rattle.shared_parts.specs.Writes.{writes};
ghost use Rattle.shared_parts.specs.Steps.{IsStep};

use crate::call::Call;
use crate::chain::{Latest, Reached};
use crate::lane::change_lane;
use crate::naming::{Lane, Opening};
use crate::numbers::{FirstHalf, SecondHalf};
use crate::striped::Striped;
use rw_objects::{Mode, ObjectSpace, Touches};
use std::boxed::Box;
use std::marker::Model;

/// What one part of the space holds, with what shows that it is what the journal leads to: how often it was written,
/// which the journal knows too, and the calls that led to it.
#[derive(Drop)]
pub struct Stripe<S: Striped, J: Opening<S, S::Value, S::Fixed>, const I: u64> {
    pub part: Box<S::Part>,
    pub times: FirstHalf<Lane<S, J, I>>,
    pub reached: Reached<Call<S::Op, S::Reply>, J>,
}

impl<S: Striped, J: Opening<S, S::Value, S::Fixed>, const I: u64> Model for Stripe<S, J, I> {
    ghost use Rattle.std.specs.Prelude.{◌≡◌, ◌<◌};
    ghost use Rattle.shared_parts.specs.Parts.{IsPart};
    ghost use Rattle.shared_parts.specs.Calls.{memory_after_calls};
    ghost use Rattle.shared_parts.specs.Writes.{writes};

    ghost Value = { S.Part };

    ghost view = { λ s. s.part.value };

    ghost invariant = { λ s. (I < 8) × (s.times ≡ writes S.meaning.touches I s.reached) × IsPart S.lane S.part_fixed S.held I J.named.memory.fixed (memory_after_calls S.meaning J.named.memory s.reached).values s.part.value };
}

impl<S: Striped, J: Opening<S, S::Value, S::Fixed>, const I: u64> Stripe<S, J, I> {
    /// What it holds is what the journal leads to, which knows as many writes of it.
    pub fn meet(
        &self,
        written: &SecondHalf<Lane<S, J, I>>,
        latest: &Latest<Call<S::Op, S::Reply>, J>,
    )
        ensures met { written.now ≡ writes S.meaning.touches I latest.now → S.held self.now ≡ part_values I (memory_after_calls S.meaning J.named.memory latest.now).values }
    {
        latest.meet(&self.reached);
        self.times.meet(written);
    }

    /// What it holds of the space.
    pub fn part(&self) -> &S::Part
        ensures part { result.now ≡ self.now }
        ensures lane { (S.lane self.now ≡ I) × (S.part_fixed self.now ≡ J.named.memory.fixed) }
    {
        &self.part
    }

    /// Makes what a call that the journal has just got makes of this part. `before` knows the calls before it.
    pub fn advance(
        &mut self,
        written: &mut SecondHalf<Lane<S, J, I>>,
        before: &Reached<Call<S::Op, S::Reply>, J>,
        latest: &Latest<Call<S::Op, S::Reply>, J>,
        touches: &Touches,
        op: &S::Op,
        decision: &S::Decision,
    )
        requires step { IsStep S.meaning S.cut J.named.memory before.now latest.now touches.now op.now decision.now }
        requires total { written.old ≡ writes S.meaning.touches I before.now }
        requires here { S.held self.old ≡ part_values I (memory_after_calls S.meaning J.named.memory before.now).values }
        ensures total { written.new ≡ writes S.meaning.touches I latest.now }
    {
        self.times.meet(written);
        change_lane::<S>(&mut self.part, I as u32, touches, op, decision);
        self.times.add(written, lane_writes(I, touches));
        self.reached = latest.reached();
    }

    /// Gives up what it holds.
    pub fn into_part(self) -> Box<S::Part>
        ensures { box_value result ≡ self }
    {
        let Stripe {
            part,
            times: _,
            reached: _,
        } = self;
        part
    }
}

/// How many objects of part `lane` are written.
pub fn lane_writes(lane: u64, touches: &Touches) -> u64
    ensures { result ≡ lane_writes lane touches.now }
{
    let mut count = 0;
    for touch in touches.as_slice() {
        if u64::from(touch.object % 8) == lane {
            match touch.mode {
                Mode::Write => count += 1,
                Mode::Read => {}
            }
        }
    }
    count
}
