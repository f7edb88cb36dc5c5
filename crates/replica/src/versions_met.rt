//! Who made and who knows each version that rows met.

ghost use Rattle.std.specs.Prelude.{◌≡◌, ◌==◌, ◌||◌, ℕ, ◌∷◌, List, [], None, false, if◌then◌else◌, OnOk};
ghost use Rattle.replica.specs.Members.{has_thread};
ghost use Rattle.replica.specs.ObjectLines.{Seen, line_at, of_other, mark_of};
ghost use Rattle.replica.specs.Met.{maker_in, is_known_in, HasMet};

use crate::threads::{ThreadNumber, ThreadSet};
use crate::touch::ObjectTouch;
use std::alloc::{AllocError, Global};
use std::collections::BTreeMap;

/// The line of an access, and the thread in whose column it is.
#[derive(Clone, Copy, Debug)]
pub(crate) struct LineAt {
    pub(crate) thread: u32,
    pub(crate) line: usize,
}

/// A version of an object.
#[derive(Clone, Copy, Debug, PartialEq, Eq, PartialOrd, Ord)]
struct VersionOf {
    object: u32,
    version: u128,
}

/// The line of the write that made a version, if it is drawn, and the threads that made or read the version.
#[derive(Clone, Copy, Debug)]
struct VersionMet {
    maker: Option<LineAt>,
    threads: ThreadSet,
}

/// A touch, as it is drawn.
#[derive(Clone, Copy, Debug)]
pub(crate) struct Mark {
    pub(crate) object: u32,
    /// The version that was read or made.
    pub(crate) version: u128,
    pub(crate) is_write: bool,
    pub(crate) is_unread: bool,
    /// The line of the write of another thread that made the version which was found.
    pub(crate) from: Option<LineAt>,
}

/// A line of another thread.
fn of_other(at: Option<LineAt>, thread: ThreadNumber) -> Option<LineAt>
    ensures { result ≡ of_other thread at }
{
    match at {
        Some(at) => {
            if at.thread == thread.number() {
                None
            } else {
                Some(at)
            }
        }
        None => None,
    }
}

/// The line of a touch, if it is drawn.
fn line_at(touch: ObjectTouch, line: Option<usize>) -> Option<LineAt>
    ensures { result ≡ line_at touch line }
{
    match line {
        Some(line) => Some(LineAt {
            thread: touch.thread.number(),
            line,
        }),
        None => None,
    }
}

impl VersionMet {
    /// Nobody made or read the version.
    fn new() -> VersionMet
        ensures maker { result.maker ≡ None }
        ensures threads { (thread : ℕ) → has_thread result.threads thread ≡ false }
    {
        VersionMet {
            maker: None,
            threads: ThreadSet::new(),
        }
    }

    /// One touch more, of that version.
    fn with(self, touch: ObjectTouch, line: Option<usize>) -> VersionMet
        ensures maker { result.maker ≡ (if touch.is_write then line_at touch line else self.maker) }
        ensures threads { (thread : ℕ) → has_thread result.threads thread ≡ (touch.thread == thread || has_thread self.threads thread) }
    {
        let mut threads = self.threads;
        threads.insert(touch.thread);
        VersionMet {
            maker: if touch.is_write {
                line_at(touch, line)
            } else {
                self.maker
            },
            threads,
        }
    }
}

/// What is known of each version that rows met.
#[derive(Drop)]
pub(crate) struct VersionsMet {
    versions: BTreeMap<VersionOf, VersionMet>,
}

impl VersionsMet {
    /// No version was met.
    pub(crate) fn new(alloc: Global) -> VersionsMet
        ensures { HasMet result [] }
    {
        VersionsMet {
            versions: BTreeMap::new(alloc),
        }
    }

    /// What is known of a version.
    fn version(&self, of: VersionOf) -> VersionMet
        ensures maker { result.maker ≡ maker_in self.now of.object of.version }
        ensures threads { (thread : ℕ) → has_thread result.threads thread ≡ is_known_in self.now of.object of.version thread }
    {
        match self.versions.get(&of) {
            Some(met) => *met,
            None => VersionMet::new(),
        }
    }

    /// How a touch is drawn that comes next.
    pub(crate) fn mark(&self, touch: ObjectTouch) -> Mark
        ensures { (seen : List Seen) → HasMet self.now seen → result ≡ mark_of seen touch }
    {
        let met = self.version(VersionOf {
            object: touch.object,
            version: u128::from(touch.found),
        });
        Mark {
            object: touch.object,
            version: touch.version(),
            is_write: touch.is_write,
            is_unread: touch.is_write
                && touch.version() != 1
                && !met.threads.contains(touch.thread),
            from: of_other(met.maker, touch.thread),
        }
    }

    /// Adds a touch, with the line of its access, if it is drawn.
    pub(crate) fn add(&mut self, touch: ObjectTouch, line: Option<usize>) -> Result<(), AllocError>
        ensures { OnOk result ((seen : List Seen) → HasMet self.old seen → HasMet self.new (record { touch = touch; line = line } ∷ seen)) }
    {
        let of = VersionOf {
            object: touch.object,
            version: touch.version(),
        };
        let met = self.version(of);
        self.versions.insert(of, met.with(touch, line))?;
        Ok(())
    }
}
