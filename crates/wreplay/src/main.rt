//! The program: `program::run` with the words, streams, files and threads of the process.
//!
#![tactic(auto)]

mod progress;

ghost use Rattle.std.specs.Prelude.{◌≤◌, ◌<◌, ◌-◌, ◌^◌, IfOk, IfSome, length};
ghost use Rattle.commands.specs.Files.{IsRead};

use crate::progress::ProgressLine;
use byte_streams::{Sink, StandardSink, StandardSource};
use commands::{FileFault, FileState, Files};
use program::{OddWord, refuse_words, run};
use std::alloc::Global;
use std::env::{self, Env, FillError};
use std::fs::{self, File};
use std::io::{self, ErrorKind, IsTerminal, Read};
use std::process::ExitCode;

/// The most words that are looked at for one that is not UTF-8.
const MOST_WORDS: usize = 1_000_000;

/// The files of the system.
#[derive(Drop)]
struct SystemFiles {
    runtime: HostRuntime,
}

/// The bytes of a file of the system, or the first of them. Memory is taken for no more than these.
fn system_file(
    runtime: &HostRuntime,
    alloc: Global,
    path: &str,
    most: Option<usize>,
) -> io::Result<Vec<u8>>
    ensures { IfOk result (λ bytes. IsRead (λ whole. Unit {0}) most bytes.items) }
{
    let Some(most) = most else {
        return fs::read(runtime, path);
    };
    let mut bytes = Vec::new(alloc);
    File::open(runtime, path)?
        .take(most as u64)
        .read_to_end(&mut bytes)?;
    // No more came; the contract of the call above does not say so.
    bytes.truncate(most);
    Ok(bytes)
}

/// Why a file of the system is not read.
fn fault_of(error: &io::Error) -> FileFault {
    match error.kind() {
        ErrorKind::OutOfMemory => FileFault::NoMemory,
        _ => FileFault::NotRead,
    }
}

/// What an error of the system says of a path.
fn state_of(error: &io::Error) -> FileState {
    match error.kind() {
        ErrorKind::NotFound => FileState::NotThere,
        ErrorKind::PermissionDenied => FileState::NotAllowed,
        _ => FileState::Unknown,
    }
}

impl Files for SystemFiles {
    type Stream = StandardSource<File>;

    ghost holds = { λ files path bytes. Unit {0} };

    ghost fails = { λ files path. Unit {0} };

    fn read(
        &mut self,
        alloc: Global,
        path: &str,
        most: Option<usize>,
    ) -> Result<Vec<u8>, FileFault> {
        match system_file(&self.runtime, alloc, path, most) {
            Ok(bytes) => Ok(bytes),
            Err(error) => Err(fault_of(&error)),
        }
    }

    fn state(&mut self, path: &str) -> FileState {
        match fs::metadata(&self.runtime, path) {
            Ok(found) if found.is_dir() => FileState::Folder,
            Ok(found) if !found.is_file() => FileState::Special,
            Ok(_) => match File::open(&self.runtime, path) {
                Ok(_) => FileState::Regular,
                Err(error) => state_of(&error),
            },
            Err(error) => state_of(&error),
        }
    }

    fn open(&mut self, _alloc: Global, path: &str) -> Result<StandardSource<File>, FileFault> {
        match File::open(&self.runtime, path) {
            Ok(file) => Ok(StandardSource::new(file)),
            Err(error) => Err(fault_of(&error)),
        }
    }
}

/// The words of the command line.
fn words(runtime: &HostRuntime) -> io::Result<Vec<String>> {
    Ok(env::args(runtime)?.collect(runtime.alloc())?)
}

/// The number of the first word that is not UTF-8, and how many bytes it has, which are put into `bytes`. Words that
/// have more bytes than these are passed over.
fn odd_word(runtime: &HostRuntime, bytes: &mut [u8]) -> Option<(usize, usize)>
    ensures { IfSome result (λ found. found.1 ≤ length bytes.old) }
{
    for number in 0..MOST_WORDS {
        match runtime.arg(number, bytes) {
            Ok(len) if str::from_utf8(&bytes[..len]).is_err() => return Some((number, len)),
            Err(FillError::NotPresent) => return None,
            _ => {}
        }
    }
    None
}

/// Refuses words that could not be had, and answers the exit status.
fn refuse_odd<E: Sink>(runtime: &HostRuntime, errors: &mut E, error: &io::Error) -> u8
    requires { E.failed errors.old < 2 ^ 64 - 1 }
{
    let mut bytes = [0; 4096];
    match odd_word(runtime, &mut bytes) {
        Some((number, len)) => {
            let bytes = &bytes[..len];
            refuse_words(errors, error, Some(OddWord { number, bytes }))
        }
        None => refuse_words(errors, error, None),
    }
}

fn main(rt: HostRuntime) -> ExitCode {
    let mut files = SystemFiles { runtime: rt };
    let mut source = StandardSource::new(rt.stdin());
    let mut output = StandardSink::new(rt.stdout());
    let mut errors = StandardSink::new(rt.stderr());
    let progress = if rt.stderr().is_terminal() {
        Some(ProgressLine::new(rt))
    } else {
        None
    };
    let status = match words(&rt) {
        Ok(words) => run(
            &progress,
            &rt,
            rt.alloc(),
            &words,
            &mut files,
            &mut source,
            &mut output,
            &mut errors,
        ),
        Err(error) => refuse_odd(&rt, &mut errors, &error),
    };
    ExitCode::from(status)
}
