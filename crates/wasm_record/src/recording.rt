//! Recordings.

ghost use Rattle.std.specs.Prelude.{◌≡◌, ◌+◌, ◌-◌, ◌^◌, ◌<◌, ◌≤◌, ℕ, List, ◌++◌, IfOk, IfErr, OnOk, OnErr};
ghost use Rattle.std.specs.List.{flat_map};
ghost use Rattle.run_pieces.specs.Line.{line_of};
ghost use Rattle.wasm_world.specs.Plans.{IsPlanOf};
ghost use Rattle.wasm_types.specs.declared.key.Profile.TheVariants.{Two};
ghost use Rattle.run_pieces.specs.Cut.{IsPiecesFault, pieces_of};
ghost use Rattle.wasm_record.specs.Recordings.{ArePiecesOfRun, IsKeyOf, RecordsRun};

use recorder::{Recorded, Schedule, record};
use run_pieces::{Failed, LineRoom, Piece, PiecesFault, Sink, pieces, write_lines};
use std::alloc::Global;
use std::marker::Model;
use wasm_types::{Block, NoMemory, Profile, RunKey};
use wasm_world::{Plan, Valid, open_world};

/// A recorded run of a module and a plan. Contracts see its key and what was recorded, of which each part is a piece.
#[derive(Drop)]
pub struct Recording {
    pub(crate) key: RunKey,
    pub(crate) recorded: Recorded,
}

impl Model for Recording {
    ghost use Rattle.run_pieces.specs.Keeps.{KeepsRules};
    ghost use Rattle.wasm_record.specs.Recordings.{RecordingAt};

    ghost Value = { RecordingAt };

    ghost view = { λ r. record { key = r.key; recorded = r.recorded } };

    ghost invariant = { λ r. KeepsRules r.key r.recorded.threads };
}

impl Recording {
    /// Which run it is.
    pub fn key(&self) -> &RunKey
        ensures { result.now ≡ self.now.key }
    {
        &self.key
    }

    /// What was recorded: the log of each thread, the run's end, and how many picks were passed over.
    pub fn recorded(&self) -> &Recorded
        ensures { result.now ≡ self.now.recorded }
    {
        &self.recorded
    }

    /// The recorded run as pieces of `size` entries each, by rising thread and place; a thread's last piece has the
    /// entries that are left, and the thread's end, and a thread without entries gives one piece. They are pieces of
    /// the run, and their joined log is the run's log.
    pub fn pieces(&self, alloc: Global, size: u32) -> Result<Vec<Piece>, PiecesFault>
        ensures pieces { IfOk result (λ pieces. pieces.items ≡ pieces_of self.now.key self.now.recorded.threads size) }
        ensures size { IfOk result (λ _. (0 < size) × (size ≤ 4096)) }
        ensures of_run { IfOk result (λ pieces. ArePiecesOfRun self.now.key self.now.recorded pieces.items) }
        ensures refused { IfErr result (IsPiecesFault size) }
    {
        pieces(alloc, &self.key, &self.recorded, size)
    }

    /// Writes the lines of the pieces of `size` entries each, in the order of `pieces`, as they are made. No memory is
    /// wanted but the room.
    pub fn write_lines<W: Sink>(
        &self,
        room: &mut LineRoom,
        sink: &mut W,
        size: u32,
    ) -> Result<(), Failed>
        requires sink { W.failed sink.old < 2 ^ 64 - 1 }
        requires some { 0 < size }
        requires few { size ≤ 4096 }
        ensures taken { OnOk result (W.takes sink.old (flat_map line_of (pieces_of self.now.key self.now.recorded.threads size)) sink.new) }
        ensures none_failed { OnOk result (W.failed sink.new ≡ W.failed sink.old) }
        // After a failure a beginning of the lines was taken.
        ensures begun { OnErr result ((part rest : List ℕ) × (flat_map line_of (pieces_of self.now.key self.now.recorded.threads size) ≡ part ++ rest) × W.takes sink.old part sink.new) }
        ensures one_failed { OnErr result (W.failed sink.new ≡ W.failed sink.old + 1) }
    {
        write_lines(room, sink, &self.key, &self.recorded, size)
    }
}

/// Records the run of a module and a plan by those picks that are enabled in turn and whose thread has made fewer than
/// `steps` steps, in profile 2 with blocks of that size; the other picks are passed over and counted. `steps` is at
/// most 1,000,000,000; a larger number counts as that.
pub fn record_schedule(
    alloc: Global,
    valid: &Valid,
    plan: &Plan,
    run: u64,
    block: Block,
    picks: &Schedule,
    steps: u32,
) -> Result<Recording, NoMemory>
    requires { IsPlanOf valid.now plan.now }
    ensures key { IfOk result (λ r. IsKeyOf valid.now plan.now run (Two block) r.key) }
    ensures records { IfOk result (λ r. RecordsRun valid.now plan.now (Two block) picks.now steps r.recorded) }
{
    let source = valid.module().source.as_slice();
    let key = RunKey::of(source, plan.bytes(), run, Profile::Two(block));
    let world = open_world(alloc, valid, plan, Profile::Two(block))?;
    let recorded = record(alloc, world, picks, steps)?;
    Ok(Recording { key, recorded })
}
