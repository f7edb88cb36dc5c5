//! The lines of an object's versions.

ghost use Rattle.std.specs.Prelude.{◌≡◌, ◌≤◌, ◌++◌, ◌==◌, ◌||◌, ℕ, length, if◌then◌else◌, [], codes, OnOk};
ghost use Rattle.std.specs.List.{filter, flat_map, prefix_len};
ghost use Rattle.std.specs.String.{string_bytes};
ghost use Rattle.replica.specs.Versions.{is_write, is_read, knew, write_text, writes_text, read_text, reads_text, version_line};
ghost use Rattle.replica.specs.Chosen.{versions_text};
ghost use Rattle.replica.specs.Touched.{version_of};
ghost use Rattle.replica.specs.Members.{has_thread};
ghost use Rattle.replica.specs.Order.{Rises};

use crate::object_texts::{put_event, put_number};
use crate::threads::ThreadSet;
use crate::touch::{ObjectTouch, has_read, has_write};
use std::alloc::AllocError;

/// The threads that read or made the version before a version, by these touches.
fn threads_before(touches: &[ObjectTouch], version: u128) -> ThreadSet
    ensures { (thread : ℕ) → has_thread result thread ≡ knew touches.now version thread }
{
    let mut threads = ThreadSet::new();
    for touch in touches {
        if touch.version() + 1 == version {
            threads.insert(touch.thread);
        }
    }
    threads
}

/// Puts behind a text that who made a version did not know the version before, where it did not. Version 0 no thread made.
fn put_unread(text: &mut String, version: u128, knew_before: bool) -> Result<(), AllocError>
    ensures { OnOk result (string_bytes text.new ≡ string_bytes text.old ++ (if version == 1 || knew_before then [] else codes " unread")) }
{
    if version == 1 || knew_before {
        return Ok(());
    }
    text.push_str(" unread")
}

/// Puts who made a version behind a text.
fn put_write(
    text: &mut String,
    version: u128,
    threads: &ThreadSet,
    touch: &ObjectTouch,
) -> Result<(), AllocError>
    ensures { OnOk result (string_bytes text.new ≡ string_bytes text.old ++ write_text version (has_thread threads.now) touch.now) }
{
    text.push_str(" written by ")?;
    put_event(text, touch.at())?;
    put_unread(text, version, threads.contains(touch.thread))?;
    Ok(())
}

/// Puts each of the writes behind a text.
fn put_each_write(
    text: &mut String,
    version: u128,
    threads: &ThreadSet,
    touches: &[ObjectTouch],
) -> Result<(), AllocError>
    ensures { OnOk result (string_bytes text.new ≡ string_bytes text.old ++ flat_map (write_text version (has_thread threads.now)) (filter is_write touches.now)) }
{
    for touch in touches {
        if touch.is_write {
            put_write(text, version, threads, touch)?;
        }
    }
    Ok(())
}

/// Puts the writes that made a version behind a text.
fn put_writes(
    text: &mut String,
    version: u128,
    threads: &ThreadSet,
    touches: &[ObjectTouch],
) -> Result<(), AllocError>
    ensures { OnOk result (string_bytes text.new ≡ string_bytes text.old ++ writes_text version (has_thread threads.now) touches.now) }
{
    if has_write(touches) {
        put_each_write(text, version, threads, touches)
    } else if version == 0 {
        Ok(())
    } else {
        text.push_str(" write unknown")
    }
}

/// Puts each of the reads behind a text.
fn put_each_read(text: &mut String, touches: &[ObjectTouch]) -> Result<(), AllocError>
    ensures { OnOk result (string_bytes text.new ≡ string_bytes text.old ++ flat_map read_text (filter is_read touches.now)) }
{
    for touch in touches {
        if !touch.is_write {
            text.push_str(" ")?;
            put_event(text, touch.at())?;
        }
    }
    Ok(())
}

/// Puts the reads of a version behind a text.
fn put_reads(text: &mut String, touches: &[ObjectTouch]) -> Result<(), AllocError>
    ensures { OnOk result (string_bytes text.new ≡ string_bytes text.old ++ reads_text touches.now) }
{
    if has_read(touches) {
        text.push_str(" read by")?;
        put_each_read(text, touches)?;
    }
    Ok(())
}

/// Puts the line of a version of an object behind a text. These threads read or made the version before.
fn put_version(
    text: &mut String,
    object: u32,
    version: u128,
    threads: &ThreadSet,
    touches: &[ObjectTouch],
) -> Result<(), AllocError>
    ensures { OnOk result (string_bytes text.new ≡ string_bytes text.old ++ version_line object version (has_thread threads.now) touches.now) }
{
    put_number(text, object)?;
    text.push_str("@")?;
    put_number(text, version)?;
    put_writes(text, version, threads, touches)?;
    put_reads(text, touches)?;
    text.push_str("\n")
}

/// How many of the touches in front are of a version.
fn version_len(touches: &[ObjectTouch], version: u128) -> usize
    ensures len { result ≡ prefix_len (λ t. version_of t == version) touches.now }
    ensures within { result ≤ length touches.now }
{
    touches
        .iter()
        .take_while(|touch| touch.version() == version)
        .count()
}

/// Puts the lines of an object's versions behind a text.
pub(crate) fn put_versions(
    text: &mut String,
    object: u32,
    touches: &[ObjectTouch],
) -> Result<(), AllocError>
    requires { Rises version_of touches.now }
    ensures { OnOk result (string_bytes text.new ≡ string_bytes text.old ++ versions_text object touches.now) }
{
    let mut before = &touches[..0];
    let mut rest = touches;
    while let Some(first) = rest.first() {
        let version = first.version();
        let (group, others) = rest.split_at(version_len(rest, version));
        let threads = threads_before(before, version);
        put_version(text, object, version, &threads, group)?;
        before = group;
        rest = others;
    }
    Ok(())
}
