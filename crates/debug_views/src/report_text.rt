//! Reports.

ghost use Rattle.std.specs.Prelude.{◌≡◌, ◌++◌, ◌*◌, ◌/◌, ◌+◌, ◌≤◌, ◌==◌, IfOk, OnOk, length, map, string_bytes};
ghost use Rattle.std.specs.List.{list_all};
ghost use Rattle.debug_views.specs.Report.{note_at, noted_text, report_text, shown, row_text, rows_text, threads_text};

use crate::row::HexBytes;
use event_core::Ended;
use std::alloc::Global;
use std::fmt::Write;
use wasm_types::{NoMemory, Outcome, PAGE_SIZE};

/// The bytes of a row.
const ROW: usize = 16;

/// The report of a run's end: `pages N`; for each 16 bytes of the memory that are not all zero, their address in eight
/// lower-case hexadecimal digits and the bytes in 32; then `thread T OUTCOME` for each thread, by number.
pub fn report(alloc: Global, ended: &Ended) -> Result<String, NoMemory>
    ensures { IfOk result (λ text. string_bytes text ≡ report_text ended.now) }
{
    noted_report(alloc, ended, &[])
}

/// The same report, in which behind each thread's line stands the note of its number, if there is one.
pub fn noted_report(alloc: Global, ended: &Ended, notes: &[String]) -> Result<String, NoMemory>
    ensures { IfOk result (λ text. string_bytes text ≡ noted_text (map string_bytes notes.now) ended.now) }
{
    let memory = ended.memory();
    let pages = memory.len() / PAGE_SIZE as usize;
    let mut text = format!(in alloc; "pages {pages}\n")?;
    write_rows(&mut text, memory)?;
    write_threads(&mut text, ended.outcomes(), notes)?;
    Ok(text)
}

// Writes each row of a memory that is not all zero.
fn write_rows(text: &mut String, memory: &[u8]) -> Result<(), NoMemory>
    ensures { OnOk result (string_bytes text.new ≡ string_bytes text.old ++ rows_text memory.now (length memory.now / 16)) }
{
    for row in 0..memory.len() / ROW {
        write_row(text, memory, row)?;
    }
    Ok(())
}

// Writes a row of a memory, where it is not all zero.
fn write_row(text: &mut String, memory: &[u8], row: usize) -> Result<(), NoMemory>
    requires { 16 * row + 16 ≤ length memory.now }
    ensures { OnOk result (string_bytes text.new ≡ string_bytes text.old ++ row_text memory.now row) }
{
    let start = row * ROW;
    let bytes = &memory[start..start + ROW];
    if is_zero(bytes) {
        return Ok(());
    }
    put_row(text, start as u64, bytes)?;
    Ok(())
}

/// Writes a row: an address, of which the low 32 bits are shown in eight lower-case hexadecimal digits, a space, and
/// bytes in two digits each.
pub fn put_row(text: &mut String, address: u64, bytes: &[u8]) -> Result<(), NoMemory>
    ensures { OnOk result (string_bytes text.new ≡ string_bytes text.old ++ shown address bytes.now) }
{
    let address = address.to_be_bytes();
    let low = &address[4..];
    write!(text, "{} {}\n", HexBytes(low), HexBytes(bytes))?;
    Ok(())
}

fn is_zero(bytes: &[u8]) -> bool
    ensures { result ≡ list_all (λ b. b == 0) bytes.now }
{
    bytes.iter().all(|byte| *byte == 0)
}

// Writes how each thread stands, and its note.
fn write_threads(text: &mut String, outcomes: &[Outcome], notes: &[String]) -> Result<(), NoMemory>
    ensures { OnOk result (string_bytes text.new ≡ string_bytes text.old ++ threads_text (map string_bytes notes.now) 0 outcomes.now) }
{
    for thread in 0..outcomes.len() {
        let outcome = outcomes[thread];
        let note = note_at(notes, thread);
        write!(text, "thread {thread} {outcome}{note}\n")?;
    }
    Ok(())
}

/// The note of a thread; an empty one where it has none.
pub(crate) fn note_at(notes: &[String], thread: usize) -> &str
    ensures { result.now ≡ note_at (map string_bytes notes.now) thread }
{
    match notes.get(thread) {
        Some(note) => note.as_str(),
        None => "",
    }
}
