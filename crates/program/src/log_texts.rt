//! Texts that are made of the whole log of what a source brings.

ghost use Rattle.std.specs.Prelude.{◌≡◌, ◌<◌, ◌-◌, ◌^◌, ◌⊎◌, ◌++◌, ◌+◌, List, [], ◌∷◌, OnOk, OnErr, IfOk, IfErr};
ghost use Rattle.std.specs.String.{string_bytes};
ghost use Rattle.commands.specs.Texts.{skipped_text};
ghost use Rattle.log_pieces.specs.Piece.{PieceValue};
ghost use Rattle.replica.specs.Judged.{IsFound};
ghost use Rattle.program.specs.Answers.{IsShown, IsListed, IsListedSkipping, IsGatherRefused, IsSkippingRefused, IsNotGathered, IsGatheredText, IsTextStopped};
ghost use Rattle.program.specs.Made.{IsMade};

use crate::gathering::tell_skipped;
use crate::showing::show;
use byte_streams::{Sink, Source};
use commands::Fault;
use replica::{
    ChartChoice, Choice, GatherFault, Replica, chart_of, collect, collect_skipping, listing_of,
};
use std::alloc::Global;
use wasm_types::NoMemory;

/// A text that is made of a whole log.
#[derive(Clone, Copy)]
pub(crate) enum LogText<'a> {
    /// The listing of its objects.
    Objects(Choice<'a>),
    /// The picture of its accesses.
    Chart(ChartChoice<'a>),
}

/// Such a text of what was collected.
fn text_of(alloc: Global, replica: &Option<Replica>, kind: LogText<'_>) -> Result<String, NoMemory>
    ensures { IfOk result (λ text. (pieces : List PieceValue) → IsFound pieces replica.now → IsMade kind.entry pieces (string_bytes text)) }
{
    match kind {
        LogText::Objects(choice) => listing_of(alloc, replica, choice),
        LogText::Chart(choice) => chart_of(alloc, replica, choice),
    }
}

/// Writes such a text of what the source brings.
fn collect_text<R: Source, W: Sink>(
    alloc: Global,
    source: &mut R,
    output: &mut W,
    kind: LogText<'_>,
) -> Result<(), Fault>
    requires source { R.failed source.old < 2 ^ 64 - 1 }
    requires output { W.failed output.old < 2 ^ 64 - 1 }
    ensures done { OnOk result (IsShown (λ text. W.takes output.old text output.new) (IsListed (IsMade kind.entry) (λ text. R.brings source.old text source.new) (R.ended source.new))) }
    ensures stopped { IfErr result (IsTextStopped (IsGatherRefused (λ text. R.brings source.old text source.new) (R.ended source.new) (R.failed source.new ≡ R.failed source.old + 1)) (IsListed (IsMade kind.entry) (λ text. R.brings source.old text source.new) (R.ended source.new)) (λ text. W.takes output.old text output.new) (output.new ≡ output.old) (W.failed output.new ≡ W.failed output.old + 1)) }
    ensures source_worked { OnOk result (R.failed source.new ≡ R.failed source.old) }
    ensures output_worked { OnOk result (W.failed output.new ≡ W.failed output.old) }
{
    let replica = match collect(alloc, source) {
        Ok(replica) => replica,
        Err(fault) => return Err(Fault::Gather(fault)),
    };
    match text_of(alloc, &replica, kind) {
        Ok(text) => show(output, text.as_bytes()),
        Err(NoMemory) => Err(Fault::Gather(GatherFault::NoMemory)),
    }
}

/// The same of the lines that can be joined; the numbers of the others are told.
fn collect_text_skipping<R: Source, W: Sink, E: Sink>(
    alloc: Global,
    source: &mut R,
    output: &mut W,
    errors: &mut E,
    kind: LogText<'_>,
) -> Result<(), Fault>
    requires source { R.failed source.old < 2 ^ 64 - 1 }
    requires output { W.failed output.old < 2 ^ 64 - 1 }
    requires errors { E.failed errors.old < 2 ^ 64 - 1 }
    ensures done { OnOk result (IsShown (λ text. W.takes output.old text output.new) (IsListedSkipping (IsMade kind.entry) (λ text. R.brings source.old text source.new) (R.ended source.new) (λ skipped. (E.takes errors.old (skipped_text skipped ++ 10 ∷ []) errors.new) ⊎ (E.failed errors.new ≡ E.failed errors.old + 1)))) }
    ensures stopped { IfErr result (IsTextStopped (IsSkippingRefused (R.failed source.new ≡ R.failed source.old + 1)) (IsListedSkipping (IsMade kind.entry) (λ text. R.brings source.old text source.new) (R.ended source.new) (λ skipped. Unit {0})) (λ text. W.takes output.old text output.new) (output.new ≡ output.old) (W.failed output.new ≡ W.failed output.old + 1)) }
    ensures untold { OnErr result (errors.new ≡ errors.old) }
    ensures source_worked { OnOk result (R.failed source.new ≡ R.failed source.old) }
    ensures output_worked { OnOk result (W.failed output.new ≡ W.failed output.old) }
{
    let kept = match collect_skipping(alloc, source) {
        Ok(kept) => kept,
        Err(fault) => return Err(Fault::Gather(fault)),
    };
    match text_of(alloc, &kept.replica, kind) {
        Ok(text) => match show(output, text.as_bytes()) {
            Ok(()) => {
                tell_skipped(errors, &kept.skipped);
                Ok(())
            }
            Err(fault) => Err(fault),
        },
        Err(NoMemory) => Err(Fault::Gather(GatherFault::NoMemory)),
    }
}

/// Writes such a text of what the source brings, past lines that cannot be joined where it skips them.
pub(crate) fn show_text<R: Source, W: Sink, E: Sink>(
    alloc: Global,
    skips: bool,
    kind: LogText<'_>,
    source: &mut R,
    output: &mut W,
    errors: &mut E,
) -> Result<(), Fault>
    requires source { R.failed source.old < 2 ^ 64 - 1 }
    requires output { W.failed output.old < 2 ^ 64 - 1 }
    requires errors { E.failed errors.old < 2 ^ 64 - 1 }
    ensures done { OnOk result (IsShown (λ text. W.takes output.old text output.new) (IsGatheredText (λ text. R.brings source.old text source.new) (R.ended source.new) (λ skipped. (E.takes errors.old (skipped_text skipped ++ 10 ∷ []) errors.new) ⊎ (E.failed errors.new ≡ E.failed errors.old + 1)) (errors.new ≡ errors.old) skips (IsMade kind.entry))) }
    ensures stopped { IfErr result (IsTextStopped (IsNotGathered (λ text. R.brings source.old text source.new) (R.ended source.new) (R.failed source.new ≡ R.failed source.old + 1) skips) (IsGatheredText (λ text. R.brings source.old text source.new) (R.ended source.new) (λ skipped. Unit {0}) (Unit {0}) skips (IsMade kind.entry)) (λ text. W.takes output.old text output.new) (output.new ≡ output.old) (W.failed output.new ≡ W.failed output.old + 1)) }
    ensures untold { OnErr result (errors.new ≡ errors.old) }
    ensures source_worked { OnOk result (R.failed source.new ≡ R.failed source.old) }
    ensures output_worked { OnOk result (W.failed output.new ≡ W.failed output.old) }
{
    if skips {
        collect_text_skipping(alloc, source, output, errors, kind)
    } else {
        collect_text(alloc, source, output, kind)
    }
}
