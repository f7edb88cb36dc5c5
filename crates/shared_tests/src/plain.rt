//! A plain array of bytes and plain counts, on which the calls are made once more.

use rw_objects::{Count, Entry, Found, Mode};
use std::alloc::Global;
use wasm_types::{Action, NoMemory};

/// The bytes of a memory, and of each object the version and the reads since it was last written.
#[derive(Debug, Drop)]
pub(crate) struct Plain {
    pub(crate) bytes: Vec<u8>,
    pub(crate) counts: Vec<Count>,
}

/// The number at an address.
fn number_at(bytes: &[u8], address: u32) -> u64 {
    let address = address as usize;
    let Some(word) = bytes.get(address..address + 8) else {
        return 0;
    };
    let mut number = 0;
    for byte in word.iter().rev() {
        number = number << 8 | u64::from(*byte);
    }
    number
}

/// Puts a number at an address.
fn put(bytes: &mut [u8], address: u32, number: u64) {
    let address = address as usize;
    if let Some(word) = bytes.get_mut(address..address + 8) {
        word.copy_from_slice(&number.to_le_bytes());
    }
}

/// The address of a call, and whether it reads or writes.
fn place_of(action: Action) -> (u32, Mode) {
    match action {
        Action::Load { address, .. } => (address, Mode::Read),
        Action::Store { address, .. } => (address, Mode::Write),
        Action::Rmw { address, .. } => (address, Mode::Write),
        _ => (0, Mode::Read),
    }
}

impl Plain {
    /// So many zeros, and no object was touched.
    pub(crate) fn open(alloc: Global, bytes: usize, objects: usize) -> Result<Plain, NoMemory> {
        let none = Count {
            version: 0,
            reads: 0,
        };
        Ok(Plain {
            bytes: vec![in alloc; 0u8; bytes]?,
            counts: vec![in alloc; none; objects]?,
        })
    }

    /// Whether a touch of an object found what is kept of it, which is counted on.
    pub(crate) fn meets(&mut self, found: Found, object: u32, mode: Mode) -> bool {
        let Some(count) = self.counts.get_mut(object as usize) else {
            return false;
        };
        let Count { version, reads } = *count;
        match mode {
            Mode::Read => {
                count.reads = reads.wrapping_add(1);
                found == Found::Read { object, version }
            }
            Mode::Write => {
                count.version = version.wrapping_add(1);
                count.reads = 0;
                found
                    == Found::Write {
                        object,
                        version,
                        reads,
                    }
            }
        }
    }

    /// Whether the entry of a call has the blocks of its eight bytes alone, and what is kept of them.
    pub(crate) fn meets_entry(&mut self, action: Action, entry: &Entry) -> bool {
        let (address, mode) = place_of(action);
        let first = 1 + 2 * (address / 64);
        let last = 1 + 2 * (address.saturating_add(7) / 64);
        match entry.found.as_slice() {
            [one] => first == last && self.meets(*one, first, mode),
            [one, other] => {
                first != last && self.meets(*one, first, mode) && self.meets(*other, last, mode)
            }
            _ => false,
        }
    }

    /// Makes a call, and answers its number; 0 where there is none.
    pub(crate) fn make(&mut self, action: Action) -> u64 {
        match action {
            Action::Load { address, .. } => number_at(&self.bytes, address),
            Action::Store {
                address,
                operand,
                ..
            } => {
                put(&mut self.bytes, address, operand);
                0
            }
            Action::Rmw {
                address,
                operand,
                ..
            } => {
                let old = number_at(&self.bytes, address);
                put(&mut self.bytes, address, old.wrapping_add(operand));
                old
            }
            _ => 0,
        }
    }
}
