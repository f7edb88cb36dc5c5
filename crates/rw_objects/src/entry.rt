//! One event of a thread's log.

use crate::few::Few;
use crate::touch::Found;
use std::alloc::Global;
use std::fmt;
use wasm_types::{NoMemory, Same};

/// How a thread came to an event: by an access, by going on after it was woken, or by a time-out.
#[derive(Clone, Copy, Debug, PartialEq, Eq)]
pub enum Kind {
    Access,
    Woken,
    TimedOut,
}

/// An event as its thread logs it: its kind, and what each touch found.
#[derive(Debug, PartialEq, Eq, Drop)]
pub struct Entry {
    pub kind: Kind,
    pub found: Few<Found>,
}

impl fmt::Display for Kind {
    ghost use Rattle.std.specs.Prelude.{Some};
    ghost use Rattle.rw_objects.specs.Text.{kind_text};

    ghost output = { λ k. Some (kind_text k) };

    /// `access`, `woken` or `timedout`.
    fn fmt<W: fmt::Write>(&self, f: &mut fmt::Formatter<W>) -> fmt::Result {
        f.write_str(match self {
            Kind::Access => "access",
            Kind::Woken => "woken",
            Kind::TimedOut => "timedout",
        })
    }
}

impl fmt::Display for Entry {
    ghost use Rattle.std.specs.Prelude.{Some};
    ghost use Rattle.rw_objects.specs.Text.{entry_text};

    ghost output = { λ e. Some (entry_text e) };

    /// The kind, then each touch after a space.
    fn fmt<W: fmt::Write>(&self, f: &mut fmt::Formatter<W>) -> fmt::Result {
        write!(f, "{}", self.kind)?;
        for found in self.found.as_slice() {
            write!(f, " {found}")?;
        }
        Ok(())
    }
}

impl Same for Entry {
    fn copy(&self, alloc: Global) -> Result<Entry, NoMemory> {
        Ok(Entry {
            kind: self.kind,
            found: self.found.copy(alloc)?,
        })
    }

    ghost use Rattle.rw_objects.specs.Decides.{entry_decides};

    ghost decides = { entry_decides };
}
