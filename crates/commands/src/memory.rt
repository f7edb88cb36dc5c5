//! Files over memory, for tests of what reads files. Their contracts say exactly what they hold and which of them fail.

ghost use Rattle.std.specs.Prelude.{◌≡◌, IfOk, IfErr, Err, Some};
ghost use Rattle.commands.specs.Files.{IsRead};
ghost use Rattle.commands.specs.Memory.{HoldsBytes, Fails, file_at};
ghost use Rattle.commands.specs.declared.files.FileFault.TheVariants as faults;

use crate::files::{FileFault, FileState, Files};
use debugger::MemorySource;
use std::alloc::Global;

/// How many bytes a call of a stream brings at most: few, so that lines stand over the borders of calls.
const FEW: usize = 7;

/// A file over memory. The call of that number of a stream of it, from 1, fails; then it can't be read at once either.
#[derive(Clone, Copy)]
pub struct MemoryFile<'a> {
    pub path: &'a str,
    pub bytes: &'a [u8],
    pub fails_at: Option<u64>,
}

/// Files over memory. Of files at one path the first stands there.
#[derive(Drop)]
pub struct MemoryFiles<'a> {
    pub files: &'a [MemoryFile<'a>],
}

/// The first of these files that is at a path.
fn file_at<'a>(files: &[MemoryFile<'a>], path: &str) -> Option<MemoryFile<'a>>
    ensures { result ≡ file_at files.now path.now }
{
    for file in files {
        if file.path == path {
            return Some(*file);
        }
    }
    None
}

/// What is read of a file of these bytes.
fn copied(alloc: Global, bytes: &[u8], most: Option<usize>) -> Result<Vec<u8>, FileFault>
    ensures copy { IfOk result (λ copy. IsRead (λ whole. whole ≡ bytes.now) most copy.items) }
    ensures refused { IfErr result (λ fault. fault ≡ faults.NoMemory) }
{
    let Ok(mut copy) = Vec::from_slice(alloc, bytes) else {
        return Err(FileFault::NoMemory);
    };
    let Some(most) = most else {
        return Ok(copy);
    };
    copy.truncate(most);
    Ok(copy)
}

/// What is read of a file at once.
fn read_of(alloc: Global, file: &MemoryFile<'_>, most: Option<usize>) -> Result<Vec<u8>, FileFault>
    ensures bytes { IfOk result (λ bytes. IsRead (HoldsBytes (Some file.now)) most bytes.items) }
    ensures not_read { result ≡ Err faults.NotRead → Fails (Some file.now) }
{
    match file.fails_at {
        None => copied(alloc, file.bytes, most),
        Some(_) => Err(FileFault::NotRead),
    }
}

impl<'a> Files for MemoryFiles<'a> {
    ghost use Rattle.commands.specs.Memory.{HoldsBytes, Fails, file_at};

    type Stream = MemorySource<'a>;

    ghost holds = { λ files path bytes. HoldsBytes (file_at files.files.now path) bytes };

    ghost fails = { λ files path. Fails (file_at files.files.now path) };

    fn read(
        &mut self,
        alloc: Global,
        path: &str,
        most: Option<usize>,
    ) -> Result<Vec<u8>, FileFault> {
        match file_at(self.files, path) {
            Some(file) => read_of(alloc, &file, most),
            None => Err(FileFault::NotRead),
        }
    }

    fn state(&mut self, path: &str) -> FileState {
        match file_at(self.files, path) {
            Some(_) => FileState::Regular,
            None => FileState::NotThere,
        }
    }

    fn open(&mut self, _alloc: Global, path: &str) -> Result<MemorySource<'a>, FileFault> {
        match file_at(self.files, path) {
            Some(file) => Ok(MemorySource::new(file.bytes, FEW, file.fails_at)),
            None => Err(FileFault::NotRead),
        }
    }
}
