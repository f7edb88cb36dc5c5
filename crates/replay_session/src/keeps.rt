//! The replays that a session keeps on its way.

ghost use Rattle.std.specs.Prelude.{◌≡◌, ◌≤◌, IfOk, IfSome};
ghost use Rattle.std.specs.List.{All};
ghost use Rattle.event_core.specs.World.{WorldAt, world_of};
ghost use Rattle.replay_session.specs.Kept.{StandsBehind};
ghost use Rattle.replay_session.specs.declared.legs.Leg.TheVariants as leg;
ghost use Rattle.replay_session.specs.Legs.{steps_of_way};
ghost use Rattle.replay_session.specs.Ways.{WayLeads};

use crate::going::go_way;
use crate::kept::Kept;
use crate::legs::{Leg, first_steps, steps_of_way};
use replay_gate::{OpenWorld, ReadLog, Replay};
use rw_objects::{CopiedSpace, Machine, ObjectSpace};
use std::alloc::Global;
use wasm_types::NoMemory;

/// So many steps before the end of a way a replay is kept: dense near the end, so that a step back costs few steps
/// forward.
const DISTANCES: [u64; 10] = [
    33_554_432, 8_388_608, 2_097_152, 524_288, 131_072, 32_768, 8_192, 2_048, 512, 128,
];

/// How many are kept at most. The memory of each is at most 256 pages.
const MOST_KEPT: usize = 16;

/// Replays of one log that are kept on a way, the one with the fewest steps first.
#[derive(Drop)]
pub(crate) struct Keeps<M: Machine<S>, S: ObjectSpace, L: ReadLog, O: OpenWorld<M, S>> {
    opens: O,
    log: L,
    kept: Vec<Kept<M, S, L, O>>,
    ghost same: { ∥ All (λ k. (k.replay.log ≡ log) × (k.replay.opens ≡ opens)) kept.items ∥₁ },
}

impl<M: Machine<S>, S: ObjectSpace, L: ReadLog + Drop, O: OpenWorld<M, S> + Drop> Keeps<
    M,
    S,
    L,
    O,
> {
    /// None.
    pub(crate) fn new(alloc: Global, opens: O, log: L) -> Keeps<M, S, L, O>
        ensures opens { result.opens ≡ opens }
        ensures log { result.log ≡ log }
    {
        Keeps {
            opens,
            log,
            kept: Vec::new(alloc),
        }
    }
}

impl<
    M: Machine<S> + Drop,
    S: CopiedSpace + Drop,
    L: ReadLog + Copy + Drop,
    O: OpenWorld<M, S> + Copy + Drop,
> Keeps<M, S, L, O> {
    /// Lets every second one go, where there are as many as may be.
    fn make_room(&mut self)
        ensures opens { self.new.opens ≡ self.old.opens }
        ensures log { self.new.log ≡ self.old.log }
    {
        if self.kept.len() < MOST_KEPT {
            return;
        }
        let mut at = 0;
        while at < self.kept.len() {
            self.kept.remove(at);
            at += 1;
        }
    }

    /// Keeps one more, where there is memory for it.
    fn put(&mut self, kept: Kept<M, S, L, O>)
        requires log { kept.replay.log ≡ self.old.log }
        requires opens { kept.replay.opens ≡ self.old.opens }
        ensures opens { self.new.opens ≡ self.old.opens }
        ensures log { self.new.log ≡ self.old.log }
    {
        self.make_room();
        let _ = self.kept.push(kept);
    }

    /// Keeps a copy of one, where there is memory for it.
    fn keep(&mut self, alloc: Global, kept: &Kept<M, S, L, O>)
        requires log { kept.now.replay.log ≡ self.old.log }
        requires opens { kept.now.replay.opens ≡ self.old.opens }
        ensures opens { self.new.opens ≡ self.old.opens }
        ensures log { self.new.log ≡ self.old.log }
    {
        if let Ok(copy) = kept.copied(alloc) {
            self.put(copy);
        }
    }

    /// Keeps a copy of a replay behind legs and whole rounds, where there is memory for it.
    pub(crate) fn keep_rounds(
        &mut self,
        alloc: Global,
        replay: &Replay<M, S, L, O>,
        legs: &[Leg],
        steps: u64,
    )
        requires log { replay.now.log ≡ self.old.log }
        requires opens { replay.now.opens ≡ self.old.opens }
        requires stands { ∥ StandsBehind S.meaning M.code (L.log replay.now.log) legs.now (leg.Rounds steps) (O.opened replay.now.opens) (world_of replay.now.world) ∥₁ }
        ensures opens { self.new.opens ≡ self.old.opens }
        ensures log { self.new.log ≡ self.old.log }
    {
        if let Ok(copy) = Kept::of_rounds(alloc, replay, legs, steps) {
            self.put(copy);
        }
    }

    /// The last that stands on a way. Those behind it are let go.
    fn nearest(&mut self, alloc: Global, way: &[Leg]) -> Result<Option<Kept<M, S, L, O>>, NoMemory>
        ensures opens { self.new.opens ≡ self.old.opens }
        ensures log { self.new.log ≡ self.old.log }
        ensures kept_opens { IfOk result (λ o. IfSome o (λ kept. kept.replay.opens ≡ self.old.opens)) }
        ensures kept_log { IfOk result (λ o. IfSome o (λ kept. kept.replay.log ≡ self.old.log)) }
    {
        while let Some(kept) = self.kept.pop() {
            if kept.rest(alloc, way)?.is_some() {
                self.keep(alloc, &kept);
                return Ok(Some(kept));
            }
        }
        Ok(None)
    }

    /// One that stands on a way which begins with a leg: the last that is kept there, or one before the first turn.
    fn start(
        &mut self,
        alloc: Global,
        way: &[Leg],
        first: Leg,
    ) -> Result<Kept<M, S, L, O>, NoMemory>
        requires { O.suits self.old.opens }
        ensures opens { self.new.opens ≡ self.old.opens }
        ensures log { self.new.log ≡ self.old.log }
        ensures kept_opens { IfOk result (λ kept. kept.replay.opens ≡ self.old.opens) }
        ensures kept_log { IfOk result (λ kept. kept.replay.log ≡ self.old.log) }
    {
        match self.nearest(alloc, way)? {
            Some(kept) => Ok(kept),
            None => {
                let replay = Replay::new(alloc, self.opens, self.log)?;
                Ok(Kept::at_first(alloc, replay, first))
            }
        }
    }

    /// Goes on to so many steps before the end of a way, where that is some way off, and keeps a copy of it.
    fn keep_before(
        &mut self,
        alloc: Global,
        kept: Kept<M, S, L, O>,
        way: &[Leg],
        distance: u64,
    ) -> Result<Kept<M, S, L, O>, NoMemory>
        requires log { kept.replay.log ≡ self.old.log }
        requires opens { kept.replay.opens ≡ self.old.opens }
        requires leads { ∥ ((v : WorldAt M.State S.Value S.Fixed) × WayLeads S.meaning M.code (L.log self.old.log) way.now (O.opened self.old.opens) v) ∥₁ }
        requires few { steps_of_way way.now ≤ 16000000000 }
        ensures opens { self.new.opens ≡ self.old.opens }
        ensures log { self.new.log ≡ self.old.log }
        ensures kept_opens { IfOk result (λ kept. kept.replay.opens ≡ self.old.opens) }
        ensures kept_log { IfOk result (λ kept. kept.replay.log ≡ self.old.log) }
    {
        let near = first_steps(alloc, way, steps_of_way(way).saturating_sub(distance))?;
        if !kept.is_before(alloc, near.as_slice())? {
            return Ok(kept);
        }
        let kept = kept.go_near(alloc, near.as_slice())?;
        self.keep(alloc, &kept);
        Ok(kept)
    }

    /// The replay behind a way that leads somewhere: goes on from the last one that is kept on it, and keeps some on
    /// the way.
    pub(crate) fn replay_behind(
        &mut self,
        alloc: Global,
        way: &[Leg],
    ) -> Result<Replay<M, S, L, O>, NoMemory>
        requires suits { O.suits self.old.opens }
        requires leads { ∥ ((v : WorldAt M.State S.Value S.Fixed) × WayLeads S.meaning M.code (L.log self.old.log) way.now (O.opened self.old.opens) v) ∥₁ }
        requires few { steps_of_way way.now ≤ 16000000000 }
        ensures opens { self.new.opens ≡ self.old.opens }
        ensures log { self.new.log ≡ self.old.log }
        ensures replay_log { IfOk result (λ replay. replay.log ≡ self.old.log) }
        ensures replay_opens { IfOk result (λ replay. replay.opens ≡ self.old.opens) }
        ensures leads { IfOk result (λ replay. ∥ WayLeads S.meaning M.code (L.log self.old.log) way.now (O.opened self.old.opens) (world_of replay.world) ∥₁) }
    {
        let [first, ..] = way else {
            return Replay::new(alloc, self.opens, self.log);
        };
        let mut kept = self.start(alloc, way, *first)?;
        for distance in DISTANCES {
            kept = self.keep_before(alloc, kept, way, distance)?;
        }
        match kept.go_to_end(alloc, way)? {
            Some(replay) => Ok(replay),
            None => go_whole(alloc, self.opens, self.log, way),
        }
    }
}

/// The replay behind a way that leads somewhere, from its first turn on.
fn go_whole<
    M: Machine<S> + Drop,
    S: ObjectSpace + Drop,
    L: ReadLog + Drop,
    O: OpenWorld<M, S> + Drop,
>(alloc: Global, opens: O, log: L, way: &[Leg]) -> Result<Replay<M, S, L, O>, NoMemory>
    requires suits { O.suits opens }
    requires leads { ∥ ((v : WorldAt M.State S.Value S.Fixed) × WayLeads S.meaning M.code (L.log log) way.now (O.opened opens) v) ∥₁ }
    ensures log { IfOk result (λ replay. replay.log ≡ log) }
    ensures opens { IfOk result (λ replay. replay.opens ≡ opens) }
    ensures leads { IfOk result (λ replay. ∥ WayLeads S.meaning M.code (L.log log) way.now (O.opened opens) (world_of replay.world) ∥₁) }
{
    let mut replay = Replay::new(alloc, opens, log)?;
    go_way(alloc, &mut replay, way)?;
    Ok(replay)
}
