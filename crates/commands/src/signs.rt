//! Lines of a report that show that its run is caught.

ghost use Rattle.std.specs.Prelude.{◌≡◌, ◌++◌, [], true, OnOk};
ghost use Rattle.text_lines.specs.Parts.{lines};
ghost use Rattle.commands.specs.Signs.{begins_with_one, is_sign, has_sign, signs_in, wants_faults, is_caught};

use command_words::HuntRequest;
use text_lines::{Parts, without_end};
use wasm_types::NoMemory;

/// What a line has to say to be a sign.
#[derive(Clone, Copy)]
pub(crate) struct Signs<'a> {
    /// Whether it is to say that a thread trapped, or waits at the end.
    faults: bool,
    /// If not, the texts with one of which it is to begin.
    texts: &'a [&'a str],
}

/// Whether a line begins with one of some texts.
fn begins_with_one(line: &[u8], texts: &[&str]) -> bool
    ensures { result ≡ begins_with_one texts.now line.now }
{
    texts.iter().any(|text| line.starts_with(text.as_bytes()))
}

/// Whether the third word of a line is one of what a thread came to that trapped, or that waits.
fn tells_fault(line: &[u8]) -> bool
    ensures { result ≡ is_sign true [] line.now }
{
    match Parts::new(line, b' ').part_at(2) {
        None => false,
        Some(word) => word == b"trap".as_slice() || word == b"waiting".as_slice(),
    }
}

/// Whether a line is a sign.
fn is_sign(signs: Signs<'_>, line: &[u8]) -> bool
    ensures { result ≡ is_sign signs.entry.faults signs.entry.texts.now line.now }
{
    if signs.faults {
        tells_fault(line)
    } else {
        begins_with_one(line, signs.texts)
    }
}

/// Whether a line of a report is a sign.
fn has_sign(signs: Signs<'_>, report: &[u8]) -> bool
    ensures { result ≡ has_sign signs.entry.faults signs.entry.texts.now report.now }
{
    let mut lines = Parts::new(without_end(report), b'\n');
    while let Some(line) = lines.take_part() {
        if is_sign(signs, line) {
            return true;
        }
    }
    false
}

/// Puts the lines of a report that are signs behind a text.
pub(crate) fn put_signs(text: &mut Vec<u8>, signs: Signs<'_>, report: &[u8]) -> Result<(), NoMemory>
    ensures { OnOk result (text.new.items ≡ text.old.items ++ signs_in signs.entry.faults signs.entry.texts.now (lines report.now)) }
{
    let mut lines = Parts::new(without_end(report), b'\n');
    while let Some(line) = lines.take_part() {
        if is_sign(signs, line) {
            text.extend_from_slice(line)?;
            text.push(b'\n')?;
        }
    }
    Ok(())
}

/// The signs of a run that is caught for a line that it has.
pub(crate) fn signs_of<'a>(request: &'a HuntRequest<'_>) -> Signs<'a>
    ensures faults { result.faults ≡ wants_faults request.now.until.items request.now.unless.items }
    ensures texts { result.texts.now ≡ request.now.until.items }
{
    Signs {
        faults: request.until.is_empty() && request.unless.is_empty(),
        texts: request.until.as_slice(),
    }
}

/// Whether a run with this report is caught.
pub(crate) fn is_caught(request: &HuntRequest<'_>, report: &[u8]) -> bool
    ensures { result ≡ is_caught request.now.until.items request.now.unless.items report.now }
{
    if has_sign(signs_of(request), report) {
        return true;
    }
    let right = Signs {
        faults: false,
        texts: request.unless.as_slice(),
    };
    !request.unless.is_empty() && !has_sign(right, report)
}
