//! How an access touches one object.

ghost use Rattle.std.specs.Prelude.{◌≡◌};
ghost use Rattle.rw_objects.specs.Touch.{object_of};

use std::alloc::Global;
use std::fmt;
use wasm_types::{NoMemory, Same};

/// Whether an object is read or written.
#[derive(Clone, Copy, Debug, PartialEq, Eq, Default)]
pub enum Mode {
    #[default]
    Read,
    Write,
}

/// An object that an operation touches, and how. It follows from the operation alone.
#[derive(Clone, Copy, Debug, PartialEq, Eq, Default)]
pub struct Touch {
    pub object: u32,
    pub mode: Mode,
}

/// What a touch found when it was made (LeBlanc and Mellor-Crummey 1987): the object's version, and for a write the
/// number of reads since the last write too.
#[derive(Clone, Copy, Debug, PartialEq, Eq)]
pub enum Found {
    Read {
        object: u32,
        version: u64,
    },
    Write {
        object: u32,
        version: u64,
        reads: u64,
    },
}

impl Found {
    /// The object that was touched.
    pub fn object(&self) -> u32
        ensures { result ≡ object_of self.now }
    {
        match *self {
            Found::Read { object, .. } => object,
            Found::Write { object, .. } => object,
        }
    }
}

impl Default for Found {
    fn default() -> Found {
        Found::Read {
            object: 0,
            version: 0,
        }
    }
}

impl fmt::Display for Found {
    ghost use Rattle.std.specs.Prelude.{Some};
    ghost use Rattle.rw_objects.specs.Text.{found_text};

    ghost output = { λ f. Some (found_text f) };

    /// `rO@V` for a read of object O at version V, `wO@V/R` for a write after R reads.
    fn fmt<W: fmt::Write>(&self, f: &mut fmt::Formatter<W>) -> fmt::Result {
        match *self {
            Found::Read { object, version } => write!(f, "r{object}@{version}"),
            Found::Write {
                object,
                version,
                reads,
            } => write!(f, "w{object}@{version}/{reads}"),
        }
    }
}

impl Same for Found {
    fn copy(&self, _alloc: Global) -> Result<Found, NoMemory> {
        Ok(*self)
    }

    ghost use Rattle.rw_objects.specs.Decides.{found_decides};

    ghost decides = { found_decides };
}
