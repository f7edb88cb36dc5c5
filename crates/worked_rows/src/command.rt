//! One command.

use crate::shelf::Shelf;
use byte_streams::{MemorySink, MemorySource};
use commands::Files;
use log::sink::Discard;
use program::run;
use std::alloc::Global;
use std::sync::Wait;
use std::thread::Threads;

/// The most bytes that a fake stream moves at a call.
const MOST: usize = 65_536;

/// A command: its words, what it reads, and the name of the file that keeps what it writes.
#[derive(Clone, Copy, Drop)]
struct Command<'a> {
    words: &'a str,
    input: Option<&'a str>,
    kept: Option<&'a str>,
}

/// The command of a line.
fn command_of(line: &str) -> Command<'_> {
    let (line, kept) = match line.split_once(" > ") {
        Some((front, name)) => (front, Some(name)),
        None => (line, None),
    };
    let (words, input) = match line.split_once(" < ") {
        Some((front, name)) => (front, Some(name)),
        None => (line, None),
    };
    Command { words, input, kept }
}

/// The words of a command, the program's name first. What stands between two `'` is one word.
fn words_of<'a>(alloc: Global, words: &'a str) -> anyhow::Result<Vec<&'a str>> {
    let mut all = Vec::new(alloc);
    all.push("wreplay")?;
    let mut quoted = false;
    for part in words.split('\'') {
        if quoted {
            all.push(part)?;
        } else {
            for word in part.split(' ') {
                if !word.is_empty() {
                    all.push(word)?;
                }
            }
        }
        quoted = !quoted;
    }
    Ok(all)
}

/// The bytes of a file, if one is named.
fn input_of(alloc: Global, shelf: &mut Shelf, name: Option<&str>) -> anyhow::Result<Vec<u8>> {
    let Some(name) = name else {
        return Ok(Vec::new(alloc));
    };
    match shelf.read(alloc, name, None) {
        Ok(bytes) => Ok(bytes),
        Err(_) => anyhow::bail!("no file {name}"),
    }
}

/// What a sink took, as text.
fn text_of(sink: &MemorySink) -> &str {
    str::from_utf8(sink.taken()).unwrap_or("not UTF-8\n")
}

/// Makes the command of a line: the line, what it wrote, and its exit status where that is not 0.
pub(crate) fn made<T: Threads + Wait + Sync>(
    threads: &T,
    alloc: Global,
    shelf: &mut Shelf,
    line: &str,
) -> anyhow::Result<String> {
    let command = command_of(line);
    let words = words_of(alloc, command.words)?;
    let input = input_of(alloc, shelf, command.input)?;
    let mut source = MemorySource::new(&input, MOST, None);
    let mut output = MemorySink::new(alloc, MOST, None);
    let mut errors = MemorySink::new(alloc, MOST, None);
    let status = run(
        &Discard,
        threads,
        alloc,
        &words,
        shelf,
        &mut source,
        &mut output,
        &mut errors,
    );
    let mut text = format!(in alloc; "$ wreplay {line}\n")?;
    match command.kept {
        Some(name) => shelf.keep(name, output.taken())?,
        None => text.push_str(text_of(&output))?,
    }
    text.push_str(text_of(&errors))?;
    if status != 0 {
        text.push_str(&format!(in alloc; "exit {status}\n")?)?;
    }
    Ok(text)
}
