//! The files that commands name.

ghost use Rattle.std.specs.Prelude.{◌≡◌, ℕ, List, IfOk, IfErr, Err};
ghost use Rattle.commands.specs.Files.{IsRead, IsFileFault, IsOpened};

use debugger::Source;
use log::{Log, info};
use std::alloc::Global;
use thiserror::Error;

/// Why a file was not read.
#[derive(Clone, Copy, Debug, PartialEq, Eq, Error)]
pub enum FileFault {
    /// Refusal 44: it does not stand there, or reading it failed.
    #[error("the file was not read")]
    NotRead,
    /// Refusal 23: memory for its bytes could not be had.
    #[error("out of memory")]
    NoMemory,
}

/// Which of its files a command was to read.
#[derive(Clone, Copy, Debug, PartialEq, Eq)]
pub enum InputFile {
    Module,
    Plan,
    Schedule,
    /// The piece lines.
    Pieces,
}

/// What stands at a path, as far as it can be told without reading it.
#[derive(Clone, Copy, Debug, PartialEq, Eq)]
pub enum FileState {
    /// A file, which can be read again.
    Regular,
    /// A pipe or a device, of which no byte comes twice.
    Special,
    Folder,
    NotThere,
    NotAllowed,
    /// It can't be told.
    Unknown,
}

/// Where the files stand that a command names. What the system's files hold nobody can know beforehand; files for tests
/// can say it.
pub trait Files {
    ghost use Rattle.commands.specs.declared.files.FileFault.TheVariants.{NotRead};

    /// A file that is open for reading.
    type Stream: Source + Drop;

    /// The file at a path may have these bytes, from now on.
    ghost holds: { Self → List ℕ → List ℕ → Type 0 };

    /// The file at a path may fail to be read, from now on.
    ghost fails: { Self → List ℕ → Type 0 };

    /// The bytes of the file at that path; with `most`, the first of them, at most so many. No more memory is taken
    /// than these fill.
    fn read(&mut self, alloc: Global, path: &str, most: Option<usize>) -> Result<Vec<u8>, FileFault>
        ensures bytes { IfOk result (λ bytes. IsRead (holds self.old path.now) most bytes.items) }
        ensures not_read { result ≡ Err NotRead → fails self.old path.now }
        // What may be read later might have been read before.
        ensures still_holds { (other bytes : List ℕ) → holds self.new other bytes → holds self.old other bytes }
        ensures still_fails { (other : List ℕ) → fails self.new other → fails self.old other };

    /// What stands at that path now.
    fn state(&mut self, path: &str) -> FileState
        // What may be read later might have been read before.
        ensures still_holds { (other bytes : List ℕ) → holds self.new other bytes → holds self.old other bytes }
        ensures still_fails { (other : List ℕ) → fails self.new other → fails self.old other };

    /// Opens the file at that path, to read it from its first byte on.
    fn open(&mut self, alloc: Global, path: &str) -> Result<Self::Stream, FileFault>
        ensures opened { IfOk result (λ stream. IsOpened Self.Stream.brings Self.Stream.failed Self.Stream.ended (holds self.old path.now) (fails self.old path.now) stream) }
        ensures not_opened { result ≡ Err NotRead → fails self.old path.now }
        // What may be read later might have been read before.
        ensures still_holds { (other bytes : List ℕ) → holds self.new other bytes → holds self.old other bytes }
        ensures still_fails { (other : List ℕ) → fails self.new other → fails self.old other };
}

/// Notes that a file is read, and reads it; with `most`, only its beginning.
pub(crate) fn read_file<L: Log, F: Files>(
    rt: &L,
    alloc: Global,
    files: &mut F,
    path: &str,
    most: Option<usize>,
) -> Result<Vec<u8>, FileFault>
    ensures found { IfOk result (λ bytes. IsRead (F.holds files.old path.now) most bytes.items) }
    ensures refused { IfErr result (IsFileFault (F.fails files.old path.now)) }
    ensures still_holds { (other bytes : List ℕ) → F.holds files.new other bytes → F.holds files.old other bytes }
    ensures still_fails { (other : List ℕ) → F.fails files.new other → F.fails files.old other }
{
    info!(rt; "reads {path}");
    files.read(alloc, path, most)
}

/// Notes that a file is read, and opens it.
pub(crate) fn open_file<L: Log, F: Files>(
    rt: &L,
    alloc: Global,
    files: &mut F,
    path: &str,
) -> Result<F::Stream, FileFault>
    ensures opened { IfOk result (λ stream. IsOpened F.Stream.brings F.Stream.failed F.Stream.ended (F.holds files.old path.now) (F.fails files.old path.now) stream) }
    ensures refused { IfErr result (IsFileFault (F.fails files.old path.now)) }
{
    info!(rt; "reads {path}");
    files.open(alloc, path)
}
