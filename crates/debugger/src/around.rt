//! What a log has of a thread's last events, and of its next.

ghost use Rattle.std.specs.Prelude.{◌≡◌, ◌+◌, ◌^◌, ◌<◌, ◌++◌, IfOk, OnOk, option_copied, string_bytes};
ghost use Rattle.debugger.specs.Around.{entry_line, item_line, items_text, next_line, around_text};

use log_pieces::Flat;
use replay_gate::ReadLog;
use rw_objects::Entry;
use std::alloc::Global;
use std::fmt::Write;
use wasm_types::NoMemory;

/// Writes what is claimed of an event, as a line.
fn write_entry(
    text: &mut String,
    thread: u32,
    place: u32,
    item: &Flat<Entry>,
) -> Result<(), NoMemory>
    ensures { OnOk result (string_bytes text.new ≡ string_bytes text.old ++ entry_line thread place item.now) }
{
    match item {
        Flat::Known(entry) => write!(text, "{thread}.{place} {entry}\n")?,
        Flat::Clash => write!(text, "{thread}.{place} clash\n")?,
    }
    Ok(())
}

/// Writes what is claimed of an event, if anything is.
fn write_item(
    text: &mut String,
    thread: u32,
    place: u32,
    item: Option<&Flat<Entry>>,
) -> Result<(), NoMemory>
    ensures { OnOk result (string_bytes text.new ≡ string_bytes text.old ++ item_line thread place (option_copied item.entry)) }
{
    match item {
        Some(item) => write_entry(text, thread, place, item),
        None => Ok(()),
    }
}

/// Writes what is claimed of a thread's next event, if anything is.
pub(crate) fn write_next(
    text: &mut String,
    thread: u32,
    place: u32,
    item: Option<&Flat<Entry>>,
) -> Result<(), NoMemory>
    ensures { OnOk result (string_bytes text.new ≡ string_bytes text.old ++ next_line thread place (option_copied item.entry)) }
{
    match item {
        Some(item) => {
            text.push_str("next ")?;
            write_entry(text, thread, place, item)
        }
        None => Ok(()),
    }
}

/// Writes what is claimed of so many of a thread's events, from the first on.
fn write_items<L: ReadLog>(
    text: &mut String,
    log: &L,
    reader: &mut L::Reader,
    thread: u32,
    first: u32,
    count: u32,
) -> Result<(), NoMemory>
    requires reads { L.reads log.now reader.old }
    requires few { thread < 16 }
    requires end { first + count < 2 ^ 32 }
    ensures written { OnOk result (string_bytes text.new ≡ string_bytes text.old ++ items_text (L.log log.now) thread first count) }
    ensures reads { OnOk result (L.reads log.now reader.new) }
{
    for index in 0..count {
        log.read(reader, thread, first + index);
        write_item(text, thread, first + index, L::held(reader, thread))?;
    }
    Ok(())
}

/// What a log has of the last events that a thread made, so many of them, and of its next.
pub(crate) fn around_text<L: ReadLog>(
    alloc: Global,
    log: &L,
    thread: u32,
    places: u32,
    count: u32,
) -> Result<String, NoMemory>
    requires { thread < 16 }
    ensures { IfOk result (λ text. string_bytes text ≡ around_text (L.log log.now) thread places count) }
{
    let mut text = String::new(alloc);
    let mut reader = log.reader();
    let first = places.saturating_sub(count);
    write_items(&mut text, log, &mut reader, thread, first, places - first)?;
    log.read(&mut reader, thread, places);
    write_next(&mut text, thread, places, L::held(&reader, thread))?;
    Ok(text)
}
