//! Replays that are kept on a way, so that a way back need not begin at the opening world.

ghost use Rattle.std.specs.Prelude.{◌≡◌, ◌+◌, ◌<◌, ◌≤◌, ◌^◌, ◌++◌, IfOk, IfSome, []};
ghost use Rattle.event_core.specs.World.{WorldAt, world_of};
ghost use Rattle.replay_session.specs.Kept.{StandsBehind, IsRest};
ghost use Rattle.replay_session.specs.declared.legs.Leg.TheVariants as leg;
ghost use Rattle.replay_session.specs.Legs.{steps_of_leg, leg_with};
ghost use Rattle.replay_session.specs.Ways.{WayLeads};

use crate::going::{go_part, go_way};
use crate::legs::Leg;
use replay_gate::{OpenWorld, ReadLog, Replay};
use rw_objects::{CopiedSpace, Machine, ObjectSpace};
use std::alloc::Global;
use wasm_types::NoMemory;

/// Fewer steps than these are made faster than a world is copied.
const SOME_STEPS: u64 = 16;

/// A replay that stands on a way: behind these legs, and so many steps of the leg that comes next; of whole rounds,
/// where that is of rounds.
#[derive(Drop)]
pub(crate) struct Kept<M: Machine<S>, S: ObjectSpace, L: ReadLog, O: OpenWorld<M, S>> {
    pub(crate) replay: Replay<M, S, L, O>,
    legs: Vec<Leg>,
    part: Leg,
    ghost stands: { ∥ StandsBehind S.meaning M.code (L.log replay.log) legs.items part (O.opened replay.opens) (world_of replay.world) ∥₁ },
}

/// What of a way comes behind its first legs, if these are they.
fn legs_behind<'a>(way: &'a [Leg], legs: &[Leg]) -> Option<&'a [Leg]>
    ensures { IfSome result (λ more. way.now ≡ legs.now ++ more.now) }
{
    way.strip_prefix(legs)
}

/// What is left of a way behind its first legs and so many steps of the leg that comes next, if it begins so.
fn rest_of(
    alloc: Global,
    legs: &[Leg],
    part: Leg,
    way: &[Leg],
) -> Result<Option<Vec<Leg>>, NoMemory>
    ensures { IfOk result (λ o. IfSome o (λ rest. IsRest legs.now part way.now rest.items)) }
{
    let Some([next, more @ ..]) = legs_behind(way, legs) else {
        return Ok(None);
    };
    let steps = part.steps();
    if next.with(steps) != part || next.steps() < steps {
        return Ok(None);
    }
    let mut rest = Vec::new(alloc);
    rest.push(next.with(next.steps() - steps))?;
    rest.extend_from_slice(more)?;
    Ok(Some(rest))
}

impl<M: Machine<S>, S: ObjectSpace, L: ReadLog, O: OpenWorld<M, S>> Kept<M, S, L, O> {
    /// A replay before its first turn, on a way that begins with a leg.
    pub(crate) fn at_first(
        alloc: Global,
        replay: Replay<M, S, L, O>,
        first: Leg,
    ) -> Kept<M, S, L, O>
        requires { world_of replay.world ≡ O.opened replay.opens }
        ensures { result.replay ≡ replay }
    {
        Kept {
            replay,
            legs: Vec::new(alloc),
            part: first.with(0),
        }
    }

    /// What is left of a way, if it stands on it.
    pub(crate) fn rest(&self, alloc: Global, way: &[Leg]) -> Result<Option<Vec<Leg>>, NoMemory>
        ensures { IfOk result (λ o. IfSome o (λ rest. IsRest self.now.legs.items self.now.part way.now rest.items)) }
    {
        rest_of(alloc, self.legs.as_slice(), self.part, way)
    }
}

impl<M: Machine<S>, S: ObjectSpace, L: ReadLog, O: OpenWorld<M, S>> Kept<M, S, L, O> {
    /// Whether it stands on a way, some steps before its end.
    pub(crate) fn is_before(&self, alloc: Global, way: &[Leg]) -> Result<bool, NoMemory> {
        Ok(match self.rest(alloc, way)? {
            None => false,
            Some(rest) => match rest.as_slice() {
                [left] => left.steps() >= SOME_STEPS,
                _ => true,
            },
        })
    }
}

impl<
    M: Machine<S> + Drop,
    S: ObjectSpace + Drop,
    L: ReadLog + Drop,
    O: OpenWorld<M, S> + Drop,
> Kept<M, S, L, O> {
    /// Goes on by at most so many steps of its leg.
    fn go_on(self, alloc: Global, most: u64) -> Result<Kept<M, S, L, O>, NoMemory>
        ensures log { IfOk result (λ kept. kept.replay.log ≡ self.replay.log) }
        ensures opens { IfOk result (λ kept. kept.replay.opens ≡ self.replay.opens) }
    {
        let Kept {
            mut replay,
            legs,
            part,
        } = self;
        let before = part.steps();
        let made = go_part(alloc, &mut replay, part, most.min(u64::MAX - before))?;
        Ok(Kept {
            replay,
            legs,
            part: part.with(before + made),
        })
    }

    /// Goes to the end of a way that leads somewhere, if it stands on it, and on to where this leg begins.
    fn enter(self, alloc: Global, way: &[Leg], next: Leg) -> Result<Kept<M, S, L, O>, NoMemory>
        requires { ∥ ((v : WorldAt M.State S.Value S.Fixed) × WayLeads S.meaning M.code (L.log self.replay.log) way.now (O.opened self.replay.opens) v) ∥₁ }
        ensures log { IfOk result (λ kept. kept.replay.log ≡ self.replay.log) }
        ensures opens { IfOk result (λ kept. kept.replay.opens ≡ self.replay.opens) }
    {
        let Some(rest) = self.rest(alloc, way)? else {
            return Ok(self);
        };
        let legs = way.to_vec(alloc)?;
        let Kept { mut replay, .. } = self;
        go_way(alloc, &mut replay, rest.as_slice())?;
        Ok(Kept {
            replay,
            legs,
            part: next.with(0),
        })
    }

    /// Goes to near the end of a way that leads somewhere, if it stands on it: to the end where the last leg is of a
    /// thread, and to the end of a round where it is of rounds.
    pub(crate) fn go_near(self, alloc: Global, way: &[Leg]) -> Result<Kept<M, S, L, O>, NoMemory>
        requires { ∥ ((v : WorldAt M.State S.Value S.Fixed) × WayLeads S.meaning M.code (L.log self.replay.log) way.now (O.opened self.replay.opens) v) ∥₁ }
        ensures log { IfOk result (λ kept. kept.replay.log ≡ self.replay.log) }
        ensures opens { IfOk result (λ kept. kept.replay.opens ≡ self.replay.opens) }
    {
        let [before @ .., last] = way else {
            return Ok(self);
        };
        let kept = self.enter(alloc, before, *last)?;
        let Some(rest) = kept.rest(alloc, way)? else {
            return Ok(kept);
        };
        match rest.as_slice() {
            [left] => kept.go_on(alloc, left.steps()),
            _ => Ok(kept),
        }
    }

    /// Goes to the end of a way that leads somewhere, if it stands on it.
    pub(crate) fn go_to_end(
        self,
        alloc: Global,
        way: &[Leg],
    ) -> Result<Option<Replay<M, S, L, O>>, NoMemory>
        requires { ∥ ((v : WorldAt M.State S.Value S.Fixed) × WayLeads S.meaning M.code (L.log self.replay.log) way.now (O.opened self.replay.opens) v) ∥₁ }
        ensures log { IfOk result (λ o. IfSome o (λ replay. replay.log ≡ self.replay.log)) }
        ensures opens { IfOk result (λ o. IfSome o (λ replay. replay.opens ≡ self.replay.opens)) }
        ensures leads { IfOk result (λ o. IfSome o (λ replay. ∥ WayLeads S.meaning M.code (L.log self.replay.log) way.now (O.opened self.replay.opens) (world_of replay.world) ∥₁)) }
    {
        let Some(rest) = self.rest(alloc, way)? else {
            return Ok(None);
        };
        let Kept { mut replay, .. } = self;
        go_way(alloc, &mut replay, rest.as_slice())?;
        Ok(Some(replay))
    }
}

impl<M: Machine<S> + Drop, S: CopiedSpace, L: ReadLog + Copy, O: OpenWorld<M, S> + Copy> Kept<
    M,
    S,
    L,
    O,
> {
    /// A copy of a replay behind legs and so many steps of whole rounds.
    pub(crate) fn of_rounds(
        alloc: Global,
        replay: &Replay<M, S, L, O>,
        legs: &[Leg],
        steps: u64,
    ) -> Result<Kept<M, S, L, O>, NoMemory>
        requires { ∥ StandsBehind S.meaning M.code (L.log replay.now.log) legs.now (leg.Rounds steps) (O.opened replay.now.opens) (world_of replay.now.world) ∥₁ }
        ensures log { IfOk result (λ kept. kept.replay.log ≡ replay.now.log) }
        ensures opens { IfOk result (λ kept. kept.replay.opens ≡ replay.now.opens) }
    {
        let legs = legs.to_vec(alloc)?;
        let replay = replay.copied(alloc)?;
        Ok(Kept {
            replay,
            legs,
            part: Leg::Rounds { steps },
        })
    }

    /// The same once more.
    pub(crate) fn copied(&self, alloc: Global) -> Result<Kept<M, S, L, O>, NoMemory>
        ensures log { IfOk result (λ copy. copy.replay.log ≡ self.now.replay.log) }
        ensures opens { IfOk result (λ copy. copy.replay.opens ≡ self.now.replay.opens) }
    {
        let legs = self.legs.as_slice().to_vec(alloc)?;
        let replay = self.replay.copied(alloc)?;
        Ok(Kept {
            replay,
            legs,
            part: self.part,
        })
    }
}
