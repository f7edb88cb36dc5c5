//! The lines of refusals.

ghost use Rattle.std.specs.Prelude.{◌≡◌, ◌<◌, ◌≤◌, ◌-◌, ◌^◌, ◌⊎◌, ◌++◌, ◌+◌, [], ◌∷◌, codes, map, OnOk, IfOk};
ghost use Rattle.arrayvec.specs.ArrayString.{array_string_len};
ghost use Rattle.program.specs.Answers.{IsTold, fault_line, shown};

use arrayvec::ArrayString;
use byte_streams::{Sink, write_all};
use command_words::Request;
use commands::{Fault, Files};
use explanations::explain;
use std::alloc::Global;
use wasm_types::NoMemory;

/// What is said where memory for the words of a reason could not be had.
const NO_WORDS: &str = "memory: the words of the reason do not fit into it\n";

/// The control character above the printable ones of ASCII.
const DELETE: u8 = 127;

/// The line of a fault.
fn line_of(fault: &Fault) -> ArrayString<64>
    ensures text { result.bytes ≡ fault_line fault.now }
    ensures short { array_string_len result ≤ 64 }
{
    let mut line = fault.text();
    line.push_str("\n");
    line
}

/// Writes the line of a fault, and answers the exit status of a refusal. Where writing fails there is nobody to tell.
pub(crate) fn refuse<E: Sink>(errors: &mut E, fault: &Fault) -> u8
    requires { E.failed errors.old < 2 ^ 64 - 1 }
    ensures status { result ≡ 1 }
    ensures tells { (E.takes errors.old (fault_line fault.now) errors.new) ⊎ (E.failed errors.new ≡ E.failed errors.old + 1) }
{
    let _ = write_all(errors, line_of(fault).as_str().as_bytes());
    1
}

/// The same, with a line that there is no memory for the reason.
fn refuse_without_words<E: Sink>(errors: &mut E, fault: &Fault) -> u8
    requires { E.failed errors.old < 2 ^ 64 - 1 }
    ensures status { result ≡ 1 }
    ensures tells { (E.takes errors.old (fault_line fault.now ++ codes "memory: the words of the reason do not fit into it\n") errors.new) ⊎ (E.failed errors.new ≡ E.failed errors.old + 1) }
{
    let mut lines = ArrayString::<128>::new();
    lines.push_str(line_of(fault).as_str());
    lines.push_str(NO_WORDS);
    let _ = write_all(errors, lines.as_str().as_bytes());
    1
}

/// A byte as a line shows it: `?` for a control character of ASCII.
fn shown(byte: u8) -> u8
    ensures { result ≡ shown byte }
{
    if byte < b' ' || byte == DELETE {
        b'?'
    } else {
        byte
    }
}

/// Puts bytes behind a text, as a line shows them.
fn put_shown(text: &mut Vec<u8>, words: &[u8]) -> Result<(), NoMemory>
    ensures { OnOk result (text.new.items ≡ text.old.items ++ map shown words.now) }
{
    for byte in words {
        text.push(shown(*byte))?;
    }
    Ok(())
}

/// The line of a fault, and the line of its reason.
fn lines_of(alloc: Global, fault: &Fault, words: &str) -> Result<Vec<u8>, NoMemory>
    ensures { IfOk result (λ lines. lines.items ≡ fault_line fault.now ++ (map shown words.now ++ 10 ∷ [])) }
{
    let mut lines = Vec::new(alloc);
    lines.extend_from_slice(line_of(fault).as_str().as_bytes())?;
    put_shown(&mut lines, words.as_bytes())?;
    lines.push(b'\n')?;
    Ok(lines)
}

/// Writes the line of a fault and the line of its reason in words, and answers the exit status of a refusal.
fn refuse_in_words<E: Sink>(alloc: Global, errors: &mut E, fault: &Fault, words: &str) -> u8
    requires { E.failed errors.old < 2 ^ 64 - 1 }
    ensures status { result ≡ 1 }
    ensures tells { ((E.takes errors.old (fault_line fault.now ++ (map shown words.now ++ 10 ∷ [])) errors.new)
        ⊎ (E.takes errors.old (fault_line fault.now ++ codes "memory: the words of the reason do not fit into it\n") errors.new))
        ⊎ (E.failed errors.new ≡ E.failed errors.old + 1) }
{
    match lines_of(alloc, fault, words) {
        Ok(lines) => {
            let _ = write_all(errors, &lines);
            1
        }
        Err(NoMemory) => refuse_without_words(errors, fault),
    }
}

/// Refuses a request: writes the line of the fault and, where the reason is asked for, the line of the reason, and
/// answers the exit status.
pub(crate) fn refuse_request<F: Files, E: Sink>(
    alloc: Global,
    files: &mut F,
    request: &Request<'_>,
    why: bool,
    errors: &mut E,
    fault: &Fault,
) -> u8
    requires { E.failed errors.old < 2 ^ 64 - 1 }
    ensures status { result ≡ 1 }
    ensures tells { IsTold (λ text. (E.takes errors.old text errors.new) ⊎ (E.failed errors.new ≡ E.failed errors.old + 1)) why request.now fault.now }
{
    if !why {
        return refuse(errors, fault);
    }
    match explain(alloc, files, request, fault) {
        Ok(words) => refuse_in_words(alloc, errors, fault, words.as_str()),
        Err(NoMemory) => refuse_without_words(errors, fault),
    }
}
