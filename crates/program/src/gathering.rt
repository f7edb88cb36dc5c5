//! What is written of the log of the piece lines that a source brings.

ghost use Rattle.std.specs.Prelude.{◌≡◌, ◌<◌, ◌-◌, ◌^◌, ◌⊎◌, ◌++◌, ◌+◌, [], ◌∷◌, OnOk, OnErr, IfErr, option_map};
ghost use Rattle.std.specs.String.{string_bytes};
ghost use Rattle.commands.specs.Texts.{skipped_text};
ghost use Rattle.replica.specs.Gathered.{IsListing};
ghost use Rattle.program.specs.Answers.{IsInForm, IsShown, IsListed, IsListedSkipping, IsGatheredText, IsGatherRefused, IsSkippingRefused, IsNotGathered, IsTextStopped, fault_of, form_of, event_of};

use crate::log_texts::{LogText, show_text};
use byte_streams::{Sink, Source, write_all};
use command_words::{GatherForm, ThreadCount};
use commands::{Fault, skipped_text};
use replica::{
    ChartChoice, Choice, EventAt, GatherFault, ListingForm, Skipped, gather, gather_skipping,
};
use std::alloc::Global;

/// The program's fault where gathering is refused.
fn fault_of(fault: GatherFault) -> Fault
    ensures { result ≡ fault_of fault }
{
    match fault {
        GatherFault::SinkFailed => Fault::SinkFailed,
        other => Fault::Gather(other),
    }
}

/// Writes the line that tells how many lines were passed over. Where writing fails there is nobody to tell.
pub(crate) fn tell_skipped<E: Sink>(errors: &mut E, skipped: &Skipped)
    requires { E.failed errors.old < 2 ^ 64 - 1 }
    ensures { (E.takes errors.old (skipped_text skipped.now ++ 10 ∷ []) errors.new) ⊎ (E.failed errors.new ≡ E.failed errors.old + 1) }
{
    let mut line = skipped_text(skipped);
    line.push_str("\n");
    let _ = write_all(errors, line.as_str().as_bytes());
}

/// What a listing by threads says.
fn form_of(objects: bool, contradictions: bool) -> ListingForm
    ensures { result ≡ form_of objects contradictions }
{
    ListingForm {
        objects,
        contradictions,
    }
}

/// The event at a place of a thread.
fn event_of(at: Option<ThreadCount>) -> Option<EventAt>
    ensures { result ≡ option_map event_of at }
{
    match at {
        Some(at) => Some(EventAt {
            thread: at.thread,
            place: at.count,
        }),
        None => None,
    }
}

/// Lists what the source brings, by threads.
fn list_threads<R: Source, W: Sink>(
    alloc: Global,
    source: &mut R,
    output: &mut W,
    form: ListingForm,
) -> Result<(), Fault>
    requires source { R.failed source.old < 2 ^ 64 - 1 }
    requires output { W.failed output.old < 2 ^ 64 - 1 }
    ensures done { OnOk result (IsShown (λ text. W.takes output.old text output.new) (IsListed (IsListing form) (λ text. R.brings source.old text source.new) (R.ended source.new))) }
    ensures stopped { IfErr result (IsTextStopped (IsGatherRefused (λ text. R.brings source.old text source.new) (R.ended source.new) (R.failed source.new ≡ R.failed source.old + 1)) (IsListed (IsListing form) (λ text. R.brings source.old text source.new) (R.ended source.new)) (λ text. W.takes output.old text output.new) (output.new ≡ output.old) (W.failed output.new ≡ W.failed output.old + 1)) }
    ensures source_worked { OnOk result (R.failed source.new ≡ R.failed source.old) }
    ensures output_worked { OnOk result (W.failed output.new ≡ W.failed output.old) }
{
    match gather(alloc, source, output, form) {
        Ok(()) => Ok(()),
        Err(fault) => Err(fault_of(fault)),
    }
}

/// The same of the lines that can be joined; the numbers of the others are told.
fn list_threads_skipping<R: Source, W: Sink, E: Sink>(
    alloc: Global,
    source: &mut R,
    output: &mut W,
    errors: &mut E,
    form: ListingForm,
) -> Result<(), Fault>
    requires source { R.failed source.old < 2 ^ 64 - 1 }
    requires output { W.failed output.old < 2 ^ 64 - 1 }
    requires errors { E.failed errors.old < 2 ^ 64 - 1 }
    ensures done { OnOk result (IsShown (λ text. W.takes output.old text output.new) (IsListedSkipping (IsListing form) (λ text. R.brings source.old text source.new) (R.ended source.new) (λ skipped. (E.takes errors.old (skipped_text skipped ++ 10 ∷ []) errors.new) ⊎ (E.failed errors.new ≡ E.failed errors.old + 1)))) }
    ensures stopped { IfErr result (IsTextStopped (IsSkippingRefused (R.failed source.new ≡ R.failed source.old + 1)) (IsListedSkipping (IsListing form) (λ text. R.brings source.old text source.new) (R.ended source.new) (λ skipped. Unit {0})) (λ text. W.takes output.old text output.new) (output.new ≡ output.old) (W.failed output.new ≡ W.failed output.old + 1)) }
    ensures untold { OnErr result (errors.new ≡ errors.old) }
    ensures source_worked { OnOk result (R.failed source.new ≡ R.failed source.old) }
    ensures output_worked { OnOk result (W.failed output.new ≡ W.failed output.old) }
{
    match gather_skipping(alloc, source, output, form) {
        Ok(skipped) => {
            tell_skipped(errors, &skipped);
            Ok(())
        }
        Err(fault) => Err(fault_of(fault)),
    }
}

/// Writes the log of what the source brings in that form, past lines that cannot be joined where it skips them.
pub(crate) fn list<R: Source, W: Sink, E: Sink>(
    alloc: Global,
    skips: bool,
    form: &GatherForm,
    source: &mut R,
    output: &mut W,
    errors: &mut E,
) -> Result<(), Fault>
    requires source { R.failed source.old < 2 ^ 64 - 1 }
    requires output { W.failed output.old < 2 ^ 64 - 1 }
    requires errors { E.failed errors.old < 2 ^ 64 - 1 }
    ensures done { OnOk result (IsShown (λ text. W.takes output.old text output.new) (IsGatheredText (λ text. R.brings source.old text source.new) (R.ended source.new) (λ skipped. (E.takes errors.old (skipped_text skipped ++ 10 ∷ []) errors.new) ⊎ (E.failed errors.new ≡ E.failed errors.old + 1)) (errors.new ≡ errors.old) skips (IsInForm form.now))) }
    ensures stopped { IfErr result (IsTextStopped (IsNotGathered (λ text. R.brings source.old text source.new) (R.ended source.new) (R.failed source.new ≡ R.failed source.old + 1) skips) (IsGatheredText (λ text. R.brings source.old text source.new) (R.ended source.new) (λ skipped. Unit {0}) (Unit {0}) skips (IsInForm form.now)) (λ text. W.takes output.old text output.new) (output.new ≡ output.old) (W.failed output.new ≡ W.failed output.old + 1)) }
    ensures untold { OnErr result (errors.new ≡ errors.old) }
    ensures source_worked { OnOk result (R.failed source.new ≡ R.failed source.old) }
    ensures output_worked { OnOk result (W.failed output.new ≡ W.failed output.old) }
{
    match form {
        GatherForm::ByThread {
            objects,
            contradictions,
        } => {
            let form = form_of(*objects, *contradictions);
            if skips {
                list_threads_skipping(alloc, source, output, errors, form)
            } else {
                list_threads(alloc, source, output, form)
            }
        }
        GatherForm::ByObject { only, shared } => {
            let choice = Choice {
                only: only.as_slice(),
                shared: *shared,
            };
            let kind = LogText::Objects(choice);
            show_text(alloc, skips, kind, source, output, errors)
        }
        GatherForm::Chart { only, from, to } => {
            let choice = ChartChoice {
                only: only.as_slice(),
                from: event_of(*from),
                to: event_of(*to),
            };
            let kind = LogText::Chart(choice);
            show_text(alloc, skips, kind, source, output, errors)
        }
    }
}
