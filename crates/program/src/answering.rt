//! What the words of a command line do.

ghost use Rattle.std.specs.Prelude.{◌≡◌, ◌<◌, ◌-◌, ◌^◌, ◌⊎◌, ◌++◌, ◌+◌, List, [], ◌∷◌, Err, OnOk, OnErr, IfErr, Some, false, map};
ghost use Rattle.std.specs.IoError.{error_kind};
ghost use Rattle.commands.specs.Texts.{skipped_text};
ghost use Rattle.commands.specs.declared.fault.Fault.TheVariants as faults;
ghost use Rattle.program.specs.Answers.{IsShown, IsSaid, IsDone, IsStopped, IsAnswered, fault_line, not_text_line, odd_line, reads_input};

use crate::gathering::list;
use crate::refusing::{refuse, refuse_request};
use crate::showing::{show, show_and_tell};
use arrayvec::ArrayString;
use byte_streams::{Sink, Source, write_all};
use command_words::{Asked, Request, requested};
use commands::{Fault, Files, adapt, check, debug, hunt, notes_by, record, replay, trace, view};
use itoa::Buffer;
use log::Log;
use std::alloc::Global;
use std::convert::AsStr;
use std::io::{self, ErrorKind};
use std::sync::Wait;
use std::thread::Threads;
use text_lines::Quoted;
use wasm_types::NoMemory;

/// What is said where the command line is not text.
const NOT_UTF_8: &str = "error: a word of the command line is not UTF-8\n";

/// Writes what is wrong with a command line, and answers the exit status of one that is not understood.
fn complain<E: Sink>(errors: &mut E, text: &str) -> u8
    requires { E.failed errors.old < 2 ^ 64 - 1 }
    ensures status { result ≡ 2 }
    ensures tells { (E.takes errors.old text.now errors.new) ⊎ (E.failed errors.new ≡ E.failed errors.old + 1) }
{
    let _ = write_all(errors, text.as_bytes());
    2
}

/// Does what is asked for.
fn perform<L: Log + Sync, T: Threads + Wait + Sync, F: Files, R: Source, W: Sink, E: Sink>(
    rt: &L,
    threads: &T,
    alloc: Global,
    request: &Request<'_>,
    why: bool,
    files: &mut F,
    source: &mut R,
    output: &mut W,
    errors: &mut E,
) -> Result<(), Fault>
    requires source { R.failed source.old < 2 ^ 64 - 1 }
    requires output { W.failed output.old < 2 ^ 64 - 1 }
    requires errors { E.failed errors.old < 2 ^ 64 - 1 }
    ensures done { OnOk result (IsShown (λ text. W.takes output.old text output.new) (IsDone (F.holds files.old) (F.fails files.old) (λ text. R.brings source.old text source.new) (R.ended source.new) (R.failed source.new ≡ R.failed source.old + 1) (λ skipped. (E.takes errors.old (skipped_text skipped ++ 10 ∷ []) errors.new) ⊎ (E.failed errors.new ≡ E.failed errors.old + 1)) (IsSaid (λ text. (E.takes errors.old text errors.new) ⊎ (E.failed errors.new ≡ E.failed errors.old + 1)) why) (λ text. (E.takes errors.old text errors.new) ⊎ (E.failed errors.new ≡ E.failed errors.old + 1)) request.now)) }
    ensures untold { OnErr result (errors.new ≡ errors.old) }
    ensures stopped { IfErr result (IsStopped (F.holds files.old) (F.fails files.old) (λ text. R.brings source.old text source.new) (R.ended source.new) (R.failed source.new ≡ R.failed source.old + 1) (λ text. W.takes output.old text output.new) (source.new ≡ source.old) (output.new ≡ output.old) (W.failed output.new ≡ W.failed output.old + 1) request.now) }
    ensures unheard { reads_input request.now ≡ false → source.new ≡ source.old }
    ensures source_worked { OnOk result (R.failed source.new ≡ R.failed source.old) }
    ensures output_worked { OnOk result (W.failed output.new ≡ W.failed output.old) }
{
    match request {
        Request::Gather { skips, form } => { list(alloc, *skips, form, source, output, errors) }
        Request::Check { module, plan } => match check(rt, alloc, files, module, *plan) {
            Ok(text) => show(output, &text),
            Err(fault) => Err(fault),
        },
        Request::Record(request) => match record(rt, threads, alloc, files, request) {
            Ok(answer) => show_and_tell(output, errors, answer, why),
            Err(fault) => Err(fault),
        },
        Request::Hunt(request) => match hunt(rt, threads, alloc, files, request) {
            Ok(answer) => show_and_tell(output, errors, answer, true),
            Err(fault) => Err(fault),
        },
        Request::Replay {
            replay: request,
            by_threads,
            names,
            offsets,
        } => {
            let asked = notes_by(*names, *offsets);
            match replay(rt, threads, alloc, files, request, *by_threads, asked) {
                Ok(text) => show(output, text.as_str().as_bytes()),
                Err(fault) => Err(fault),
            }
        }
        Request::View(request) => match view(rt, alloc, files, request) {
            Ok(text) => show(output, text.as_str().as_bytes()),
            Err(fault) => Err(fault),
        },
        Request::Trace(request) => match trace(rt, alloc, files, request) {
            Ok(text) => show(output, text.as_str().as_bytes()),
            Err(fault) => Err(fault),
        },
        Request::Debug(request) => debug(rt, alloc, files, request, source, output),
        Request::Adapter => adapt(rt, alloc, files, source, output),
    }
}

/// A word of the command line that is not UTF-8: its number, where the program's name is 0, and its bytes.
#[derive(Clone, Copy)]
pub struct OddWord<'a> {
    pub number: usize,
    pub bytes: &'a [u8],
}

/// What is said of a word that is not UTF-8: its number and its bytes, as they are quoted. It has at most 110 bytes.
fn not_text(word: &OddWord<'_>) -> ArrayString<110>
    ensures { result.bytes ≡ odd_line word.now.number word.now.bytes.now }
{
    let mut number = Buffer::new();
    let bytes = Quoted { bytes: word.bytes };
    let mut text = ArrayString::<110>::new();
    text.push_str("error: word ");
    text.push_str(number.format(word.number));
    text.push_str(" of the command line is not UTF-8: ");
    text.push_str(bytes.text().as_str());
    text.push_str("\n");
    text
}

/// Answers the exit status where the words of the command line could not be had, and says why: this one is not UTF-8,
/// or they do not fit into memory.
pub fn refuse_words<E: Sink>(errors: &mut E, error: &io::Error, odd: Option<OddWord<'_>>) -> u8
    requires { E.failed errors.old < 2 ^ 64 - 1 }
    ensures no_memory { error_kind error.now ≡ ErrorKind.OutOfMemory → (result ≡ 1) × ((E.takes errors.old (fault_line faults.NoMemory) errors.new) ⊎ (E.failed errors.new ≡ E.failed errors.old + 1)) }
    ensures not_text { (error_kind error.now ≡ ErrorKind.OutOfMemory → ⊥) → (result ≡ 2) × ((E.takes errors.old (not_text_line odd.entry) errors.new) ⊎ (E.failed errors.new ≡ E.failed errors.old + 1)) }
{
    match (error.kind(), odd) {
        (ErrorKind::OutOfMemory, _) => refuse(errors, &Fault::NoMemory),
        (_, Some(word)) => complain(errors, not_text(&word).as_str()),
        (_, None) => complain(errors, NOT_UTF_8),
    }
}

/// Does what the words ask for, the first of which is the program's name, and answers the exit status: 0 where it is
/// done, 1 where it is refused, and then `errors` took the line that says so, 2 where the words are not understood.
/// `rt` logs the path of each file before it is read, and how far a hunt is (`commands::PROGRESS`), which several
/// threads say at once; `threads` makes the threads of a recording or a replay by threads, and those of a hunt.
pub fn run<
    L: Log + Sync,
    T: Threads + Wait + Sync,
    F: Files,
    R: Source,
    W: Sink,
    E: Sink,
    S: AsStr,
>(
    rt: &L,
    threads: &T,
    alloc: Global,
    words: &[S],
    files: &mut F,
    source: &mut R,
    output: &mut W,
    errors: &mut E,
) -> u8
    requires source { R.failed source.old < 2 ^ 64 - 1 }
    requires output { W.failed output.old < 2 ^ 64 - 1 }
    requires errors { E.failed errors.old < 2 ^ 64 - 1 }
    // Done: the output took the very text of the command that the words ask for, and `errors` took the line of the
    // numbers of lines that were passed over, which run is caught, or where the words ask for it the line of the threads
    // that stopped, or else nothing; or it failed. Refused: `errors` took the line of the fault, and where the words ask
    // for it one more line, of the reason, or failed; and nothing was written but by a failing output, or by a dialogue
    // or an exchange that stopped. Nothing of the source was read but by a command that reads its standard input. Not
    // understood: nothing was read or written.
    ensures answered { IsAnswered (F.holds files.old) (F.fails files.old)
        (λ text. R.brings source.old text source.new) (R.ended source.new) (R.failed source.new ≡ R.failed source.old + 1)
        (λ text. W.takes output.old text output.new) (source.new ≡ source.old) (output.new ≡ output.old) (W.failed output.new ≡ W.failed output.old + 1)
        (λ skipped. (E.takes errors.old (skipped_text skipped ++ 10 ∷ []) errors.new) ⊎ (E.failed errors.new ≡ E.failed errors.old + 1))
        (λ text. (E.takes errors.old text errors.new) ⊎ (E.failed errors.new ≡ E.failed errors.old + 1))
        ((files.new ≡ files.old) × (source.new ≡ source.old)) (map S.text words.now) result }
    // A failing source or output is answered with 1.
    ensures source_failed { (result ≡ 1 → ⊥) → R.failed source.new ≡ R.failed source.old }
    ensures output_failed { (result ≡ 1 → ⊥) → W.failed output.new ≡ W.failed output.old }
{
    match requested(alloc, words) {
        Ok(Asked::Request { request, why }) => {
            match perform(
                rt, threads, alloc, &request, why, files, source, output, errors,
            ) {
                Ok(()) => 0,
                Err(fault) => refuse_request(alloc, files, &request, why, errors, &fault),
            }
        }
        Ok(Asked::Text(text)) => match show(output, text.as_str().as_bytes()) {
            Ok(()) => 0,
            Err(fault) => refuse(errors, &fault),
        },
        Ok(Asked::Unknown(text)) => complain(errors, text.as_str()),
        Ok(Asked::Wrong(text)) => complain(errors, text),
        Err(NoMemory) => refuse(errors, &Fault::NoMemory),
    }
}
