//! Packed entries, read one behind the other.

ghost use Rattle.std.specs.Prelude.{◌≡◌, ◌≤◌, length, take, drop, IfOk, OnOk, OnErr};
ghost use Rattle.std.specs.List.{flat_map};
ghost use Rattle.log_pieces.specs.Spelling.{entry_bytes};
ghost use Rattle.log_pieces.specs.EntriesIn.{entries_in, ArePacked};

use crate::packed::Packed;
use rw_objects::Entry;
use std::alloc::Global;
use std::marker::Model;
use wasm_types::NoMemory;

/// Reads packed entries, one behind the other. Contracts see the list of those that are left.
#[derive(Drop)]
pub struct EntriesReader<'a> {
    bytes: &'a [u8],
    left: usize,
}

impl<'a> Model for EntriesReader<'a> {
    ghost use Rattle.std.specs.Prelude.{List};
    ghost use Rattle.rw_objects.specs.declared.entry.Entry.{Entry};
    ghost use Rattle.log_pieces.specs.EntriesIn.{entries_in, ArePacked};

    ghost Value = { List Entry };

    ghost view = { λ r. entries_in r.left r.bytes.now };

    ghost invariant = { λ r. ArePacked r.left r.bytes.now };
}

impl<'a> EntriesReader<'a> {
    /// A reader of the entries that bytes spell.
    pub(crate) fn new(bytes: &'a [u8], left: usize) -> EntriesReader<'a>
        requires { ArePacked left bytes.now }
        ensures { result ≡ entries_in left bytes.now }
    {
        EntriesReader { bytes, left }
    }

    /// The next entries, as many as are left but no more than `most`. Where memory is wanted none is read.
    pub fn next_entries(&mut self, alloc: Global, most: usize) -> Result<Vec<Entry>, NoMemory>
        ensures entries { IfOk result (λ entries. entries.items ≡ take most self.old) }
        ensures left { OnOk result (self.new ≡ drop most self.old) }
        ensures err { OnErr result (self.new ≡ self.old) }
    {
        let count = most.min(self.left);
        let (entries, behind) = read_entries(alloc, self.bytes, self.left, count)?;
        self.bytes = behind;
        self.left -= count;
        Ok(entries)
    }

    /// The bytes of the next entries, as many as are left but no more than `most`, and how many entries these are. It
    /// takes no memory.
    pub fn next_bytes(&mut self, most: usize) -> (&'a [u8], usize)
        ensures bytes { result.0.now ≡ flat_map entry_bytes (take most self.old) }
        ensures count { result.1 ≡ length (take most self.old) }
        ensures left { self.new ≡ drop most self.old }
    {
        let count = most.min(self.left);
        let behind = pass_entries(self.bytes, self.left, count);
        let (front, _) = self.bytes.split_at(self.bytes.len() - behind.len());
        self.bytes = behind;
        self.left -= count;
        (front, count)
    }
}

/// So many of the entries that bytes spell, and the bytes behind them.
fn read_entries(
    alloc: Global,
    bytes: &[u8],
    left: usize,
    count: usize,
) -> Result<(Vec<Entry>, &[u8]), NoMemory>
    requires packed { ArePacked left bytes.now }
    requires within { count ≤ left }
    ensures entries { IfOk result (λ r. r.0.items ≡ take count (entries_in left bytes.now)) }
    ensures behind { IfOk result (λ r. r.1.now ≡ flat_map entry_bytes (drop count (entries_in left bytes.now))) }
{
    let mut entries = Vec::with_capacity(alloc, count)?;
    let mut rest = bytes;
    for _ in 0..count {
        let Some((entry, behind)) = Entry::take(alloc, rest) else {
            unreachable!()
        };
        entries.push(entry)?;
        rest = behind;
    }
    Ok((entries, rest))
}

/// The bytes behind so many of the entries that bytes spell.
fn pass_entries(bytes: &[u8], left: usize, count: usize) -> &[u8]
    requires packed { ArePacked left bytes.now }
    requires within { count ≤ left }
    ensures behind { result.now ≡ flat_map entry_bytes (drop count (entries_in left bytes.now)) }
    ensures within { length result.now ≤ length bytes.now }
{
    let mut rest = bytes;
    for _ in 0..count {
        match Entry::skip(rest) {
            Some(behind) => rest = behind,
            None => unreachable!(),
        }
    }
    rest
}
