//! The one part that an operation of one object touches.

ghost use Rattle.std.specs.Prelude.{◌≡◌, option_copied};
ghost use Rattle.shared_parts.specs.Eights.{IsOfLane, here_in};
ghost use Rattle.shared_parts.specs.Ones.{lane_of, kept_of};

use crate::call::Call;
use crate::chain::{Latest, Reached};
use crate::keeps::Keeps;
use crate::kept::{KeptPart, Written, advance};
use crate::naming::Opening;
use crate::striped::Striped;
use rw_objects::{ObjectSpace, Touches};
use std::marker::Model;

/// One of eight, by the number of the part that it is of.
#[derive(Drop)]
pub enum OneOf<A, B, C, D, E, F, G, H> {
    Zero(A),
    One(B),
    Two(C),
    Three(D),
    Four(E),
    Five(F),
    Six(G),
    Seven(H),
}

/// The part that an operation of one object touches, kept for it. Contracts see what it holds, and which part it is.
pub struct OnePart<'a, S: Striped, J: Opening<S, S::Value, S::Fixed>> {
    pub part: OneOf<
        KeptPart<'a, S, J, 0>,
        KeptPart<'a, S, J, 1>,
        KeptPart<'a, S, J, 2>,
        KeptPart<'a, S, J, 3>,
        KeptPart<'a, S, J, 4>,
        KeptPart<'a, S, J, 5>,
        KeptPart<'a, S, J, 6>,
        KeptPart<'a, S, J, 7>,
    >,
}

impl<'a, S: Striped, J: Opening<S, S::Value, S::Fixed>> Model for OnePart<'a, S, J> {
    ghost use Rattle.shared_parts.specs.Ones.{One};

    ghost Value = { One S.Part };

    ghost view = { λ o. o.part };
}

impl<'a, S: Striped, J: Opening<S, S::Value, S::Fixed>> Drop for OnePart<'a, S, J> {
    fn drop(self) {
        let OnePart { part } = self;
        match part {
            OneOf::Zero(part) => drop(part),
            OneOf::One(part) => drop(part),
            OneOf::Two(part) => drop(part),
            OneOf::Three(part) => drop(part),
            OneOf::Four(part) => drop(part),
            OneOf::Five(part) => drop(part),
            OneOf::Six(part) => drop(part),
            OneOf::Seven(part) => drop(part),
        }
    }
}

impl<S: Striped, J: Opening<S, S::Value, S::Fixed>> OnePart<'_, S, J> {
    /// What is kept of the part.
    fn part(&self) -> Option<&S::Part>
        ensures part { option_copied result ≡ here_in (kept_of self.now) }
        ensures lane { IsOfLane S.lane S.part_fixed (lane_of self.now) J.named.memory.fixed (here_in (kept_of self.now)) }
    {
        match &self.part {
            OneOf::Zero(part) => part.part(),
            OneOf::One(part) => part.part(),
            OneOf::Two(part) => part.part(),
            OneOf::Three(part) => part.part(),
            OneOf::Four(part) => part.part(),
            OneOf::Five(part) => part.part(),
            OneOf::Six(part) => part.part(),
            OneOf::Seven(part) => part.part(),
        }
    }
}

impl<'a, S: Striped, J: Opening<S, S::Value, S::Fixed>> Keeps<S, J> for OnePart<'a, S, J> {
    ghost use Rattle.shared_parts.specs.Ones.{CoversOne, IsHereOne};

    ghost covers = { λ one touches. CoversOne touches one };

    ghost here = { λ one values. IsHereOne S.held values one };

    fn meet(&self, written: &Written<S, J>, latest: &Latest<Call<S::Op, S::Reply>, J>) {
        match &self.part {
            OneOf::Zero(part) => part.meet(&written.zero, latest),
            OneOf::One(part) => part.meet(&written.one, latest),
            OneOf::Two(part) => part.meet(&written.two, latest),
            OneOf::Three(part) => part.meet(&written.three, latest),
            OneOf::Four(part) => part.meet(&written.four, latest),
            OneOf::Five(part) => part.meet(&written.five, latest),
            OneOf::Six(part) => part.meet(&written.six, latest),
            OneOf::Seven(part) => part.meet(&written.seven, latest),
        }
    }

    fn look(&self, object: u32, op: &S::Op) -> S::Seen {
        match self.part() {
            Some(part) => S::look(part, object, op),
            None => unreachable!(),
        }
    }

    fn advance(
        &mut self,
        written: &mut Written<S, J>,
        before: &Reached<Call<S::Op, S::Reply>, J>,
        latest: &Latest<Call<S::Op, S::Reply>, J>,
        touches: &Touches,
        op: &S::Op,
        decision: &S::Decision,
    ) {
        let part = &mut self.part;
        match part {
            OneOf::Zero(part) => advance(
                &mut part.write,
                &mut written.zero,
                before,
                latest,
                touches,
                op,
                decision,
            ),
            OneOf::One(part) => advance(
                &mut part.write,
                &mut written.one,
                before,
                latest,
                touches,
                op,
                decision,
            ),
            OneOf::Two(part) => advance(
                &mut part.write,
                &mut written.two,
                before,
                latest,
                touches,
                op,
                decision,
            ),
            OneOf::Three(part) => advance(
                &mut part.write,
                &mut written.three,
                before,
                latest,
                touches,
                op,
                decision,
            ),
            OneOf::Four(part) => advance(
                &mut part.write,
                &mut written.four,
                before,
                latest,
                touches,
                op,
                decision,
            ),
            OneOf::Five(part) => advance(
                &mut part.write,
                &mut written.five,
                before,
                latest,
                touches,
                op,
                decision,
            ),
            OneOf::Six(part) => advance(
                &mut part.write,
                &mut written.six,
                before,
                latest,
                touches,
                op,
                decision,
            ),
            OneOf::Seven(part) => advance(
                &mut part.write,
                &mut written.seven,
                before,
                latest,
                touches,
                op,
                decision,
            ),
        }
    }
}
