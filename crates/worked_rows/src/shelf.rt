//! Files that commands kept, and those of the system.

ghost use Rattle.commands.specs.Files.{IsRead};

use byte_streams::StandardSource;
use commands::{FileFault, FileState, Files};
use std::alloc::Global;
use std::fs;
use std::io::{Cursor, ErrorKind};

/// A file that a command kept.
#[derive(Drop)]
struct Kept {
    name: String,
    bytes: Vec<u8>,
}

/// What is read of a file of these bytes.
fn cut(mut bytes: Vec<u8>, most: Option<usize>) -> Vec<u8>
    ensures { IsRead (λ whole. Unit {0}) most result.items }
{
    let Some(most) = most else {
        return bytes;
    };
    bytes.truncate(most);
    bytes
}

/// Files that commands kept, before those of the system.
#[derive(Drop)]
pub(crate) struct Shelf {
    runtime: HostRuntime,
    kept: Vec<Kept>,
}

impl Shelf {
    /// No file kept yet.
    pub(crate) fn new(runtime: HostRuntime) -> Shelf {
        Shelf {
            runtime,
            kept: Vec::new(runtime.alloc()),
        }
    }

    /// Keeps a file under a name.
    pub(crate) fn keep(&mut self, name: &str, bytes: &[u8]) -> anyhow::Result<()> {
        let alloc = self.runtime.alloc();
        let name = String::from_str(alloc, name)?;
        let bytes = Vec::from_slice(alloc, bytes)?;
        self.kept.push(Kept { name, bytes })?;
        Ok(())
    }
}

impl Files for Shelf {
    type Stream = StandardSource<Cursor<Vec<u8>>>;

    ghost holds = { λ files path bytes. Unit {0} };

    ghost fails = { λ files path. Unit {0} };

    fn read(
        &mut self,
        alloc: Global,
        path: &str,
        most: Option<usize>,
    ) -> Result<Vec<u8>, FileFault> {
        for kept in &self.kept {
            if kept.name.as_str() == path {
                return match Vec::from_slice(alloc, &kept.bytes) {
                    Ok(bytes) => Ok(cut(bytes, most)),
                    Err(_) => Err(FileFault::NoMemory),
                };
            }
        }
        match fs::read(&self.runtime, path) {
            Ok(bytes) => Ok(cut(bytes, most)),
            Err(error) if error.kind() == ErrorKind::OutOfMemory => Err(FileFault::NoMemory),
            Err(_) => Err(FileFault::NotRead),
        }
    }

    fn state(&mut self, path: &str) -> FileState {
        for kept in &self.kept {
            if kept.name.as_str() == path {
                return FileState::Regular;
            }
        }
        match fs::read(&self.runtime, path) {
            Ok(_) => FileState::Regular,
            Err(_) => FileState::NotThere,
        }
    }

    fn open(
        &mut self,
        alloc: Global,
        path: &str,
    ) -> Result<StandardSource<Cursor<Vec<u8>>>, FileFault> {
        let bytes = self.read(alloc, path, None)?;
        Ok(StandardSource::new(Cursor::new(bytes)))
    }
}
