//! Piece lines in, the listing of their joined log out, where lines that cannot be joined are passed over.

ghost use Rattle.std.specs.Prelude.{◌≡◌, ℕ, ◌+◌, ◌-◌, ◌^◌, ◌<◌, List, Option, [], ◌∷◌, ◌++◌, Err, IfOk, OnOk, OnErr, IfErr};
ghost use Rattle.std.specs.Result.{result_ok};
ghost use Rattle.log_pieces.specs.Piece.{PieceValue};
ghost use Rattle.replica.specs.Lines.{IsReadFault, IsDeviceFault};
ghost use Rattle.replica.specs.Judged.{HasFound, Finds, Skips};
ghost use Rattle.replica.specs.declared.skipping.Skipped.{Skipped};
ghost use Rattle.replica.specs.declared.fault.GatherFault.TheVariants as faults;

use crate::fault::{GatherFault, ReplicaFault};
use crate::form::ListingForm;
use crate::gathering::{replica_of, write_found};
use crate::judging::{Judged, next_whole};
use crate::lines::Chunk;
use crate::replica::Replica;
use byte_streams::{Sink, Source};
use log_pieces::{LineFault, Piece};
use std::alloc::Global;
use wasm_types::NoMemory;

/// How many lines were passed over. Both numbers stay at the greatest u64.
#[derive(Clone, Copy, Debug, PartialEq, Eq)]
pub struct Skipped {
    /// Lines that are no piece lines.
    pub bad: u64,
    /// Piece lines of another run than the first piece line's.
    pub foreign: u64,
}

/// What was kept of lines.
#[derive(Drop)]
pub struct Kept {
    /// A replica of the first piece line's run, or nothing where there is no piece line.
    pub replica: Option<Replica>,
    /// How many lines were passed over.
    pub skipped: Skipped,
}

impl Kept {
    ghost use Rattle.std.specs.Prelude.{◌≡◌, ◌++◌, ◌∷◌, []};

    /// Nothing, in no lines.
    fn new() -> Kept
        ensures { HasFound [] result.replica result.skipped }
    {
        Kept {
            replica: None,
            skipped: Skipped { bad: 0, foreign: 0 },
        }
    }

    /// Joins a piece, or counts it where it is of another run than the first.
    fn join(&mut self, alloc: Global, piece: &Piece) -> Result<(), NoMemory>
        ensures { OnOk result ((lines : List (Option PieceValue)) → HasFound lines self.old.replica self.old.skipped → HasFound (lines ++ Some piece.now ∷ []) self.new.replica self.new.skipped) }
    {
        match &mut self.replica {
            Some(replica) => match replica.deliver(alloc, piece) {
                Ok(()) => Ok(()),
                Err(ReplicaFault::OtherRun) => {
                    self.skipped.foreign = self.skipped.foreign.saturating_add(1);
                    Ok(())
                }
                Err(ReplicaFault::NoMemory) => Err(NoMemory),
            },
            None => match replica_of(alloc, piece) {
                Ok(replica) => {
                    self.replica = Some(replica);
                    Ok(())
                }
                Err(_) => Err(NoMemory),
            },
        }
    }

    /// Takes in a line that was judged.
    fn put(&mut self, alloc: Global, judged: &Result<Piece, LineFault>) -> Result<(), NoMemory>
        ensures { OnOk result ((lines : List (Option PieceValue)) → HasFound lines self.old.replica self.old.skipped → HasFound (lines ++ result_ok judged.now ∷ []) self.new.replica self.new.skipped) }
    {
        match judged {
            Ok(piece) => self.join(alloc, piece),
            Err(_) => {
                self.skipped.bad = self.skipped.bad.saturating_add(1);
                Ok(())
            }
        }
    }
}

/// Collects as `collect` does, but passes over lines that are no piece lines, and piece lines of another run than the
/// first one's, and counts them. A line that is longer than any piece line is passed over without being kept.
pub fn collect_skipping<R: Source>(alloc: Global, source: &mut R) -> Result<Kept, GatherFault>
    requires { R.failed source.old < 2 ^ 64 - 1 }
    // The source brought a text up to its end, and of its lines the pieces of the first piece line's run are in the
    // replica's log, and the others are counted.
    ensures finds { IfOk result (λ kept. Finds (R.brings source.old) (R.ended source.new) source.new kept.replica kept.skipped) }
    // The source failed exactly where its count of failures grew.
    ensures source_failed { result ≡ Err faults.SourceFailed → R.failed source.new ≡ R.failed source.old + 1 }
    ensures none_failed { (result ≡ Err faults.SourceFailed → ⊥) → R.failed source.new ≡ R.failed source.old }
    // No line is refused.
    ensures errors { IfErr result IsReadFault }
{
    let mut chunk = Chunk::new(alloc)?;
    let mut line = Vec::new(alloc);
    let mut kept = Kept::new();
    loop {
        match next_whole(alloc, source, &mut chunk, &mut line) {
            Err(fault) => return Err(fault),
            Ok(Judged::Line(judged)) => kept.put(alloc, &judged)?,
            Ok(Judged::Last(judged)) => {
                kept.put(alloc, &judged)?;
                return Ok(kept);
            }
            Ok(Judged::End) => return Ok(kept),
            Ok(Judged::TooLong) => return Ok(kept),
        }
    }
}

/// Gathers as `gather` does, but passes over the lines that `collect_skipping` passes over, and counts them.
pub fn gather_skipping<R: Source, W: Sink>(
    alloc: Global,
    source: &mut R,
    sink: &mut W,
    form: ListingForm,
) -> Result<Skipped, GatherFault>
    requires source { R.failed source.old < 2 ^ 64 - 1 }
    requires sink { W.failed sink.old < 2 ^ 64 - 1 }
    // The sink took the listing of the log of the set of the pieces of the first piece line's run, and so many of the
    // lines that the source brought are no piece lines, so many of other runs.
    ensures listed { IfOk result (λ skipped. Skips (R.brings source.old) form (R.ended source.new) source.new skipped (λ listed. W.takes sink.old listed sink.new)) }
    // Source and sink failed exactly where their counts of failures grew; after a failing sink a beginning of the
    // listing was taken.
    ensures source_failed { result ≡ Err faults.SourceFailed → R.failed source.new ≡ R.failed source.old + 1 }
    ensures sink_failed { result ≡ Err faults.SinkFailed → ((skipped : Skipped) × Skips (R.brings source.old) form (R.ended source.new) source.new skipped (λ listed. (part rest : List ℕ) × (listed ≡ part ++ rest) × W.takes sink.old part sink.new)) × (W.failed sink.new ≡ W.failed sink.old + 1) }
    ensures source_worked { (result ≡ Err faults.SourceFailed → ⊥) → R.failed source.new ≡ R.failed source.old }
    ensures sink_worked { (result ≡ Err faults.SinkFailed → ⊥) → W.failed sink.new ≡ W.failed sink.old }
    // Otherwise nothing was written.
    ensures unwritten { OnErr result ((result ≡ Err faults.SinkFailed → ⊥) → sink.new ≡ sink.old) }
    // No line is refused.
    ensures errors { IfErr result IsDeviceFault }
{
    match collect_skipping(alloc, source) {
        Ok(kept) => match write_found(alloc, sink, form, &kept.replica) {
            Ok(()) => Ok(kept.skipped),
            Err(fault) => Err(fault),
        },
        Err(fault) => Err(fault),
    }
}
