//! A piece, and the rules that it keeps.

ghost use Rattle.std.specs.Prelude.{◌≡◌};
ghost use Rattle.std.specs.List.{list_all};
ghost use Rattle.log_pieces.specs.Piece.{passes_end, greatest_object, is_entry, rises, objects_fit, is_empty, piece_fault};

use crate::end::End;
use crate::fault::PieceFault;
use rw_objects::{Entry, Found};
use std::marker::Model;
use wasm_types::{LAST_THREAD, MOST_STEPS, Profile, RunKey};

/// The most entries that a piece has.
pub const MOST_ENTRIES: usize = 4096;

/// Consecutive entries of one thread's log, and perhaps how the thread ended.
#[derive(Debug, Drop)]
pub struct Piece {
    key: RunKey,
    thread: u32,
    first: u32,
    entries: Vec<Entry>,
    end: Option<End>,
}

impl Model for Piece {
    ghost use Rattle.log_pieces.specs.Piece.{PieceValue, IsPiece};

    ghost Value = { PieceValue };

    ghost view = { λ p. record { key = p.key; thread = p.thread; first = p.first; entries = p.entries.items; end = p.end } };

    ghost invariant = { λ p. IsPiece (record { key = p.key; thread = p.thread; first = p.first; entries = p.entries.items; end = p.end }) };
}

impl Piece {
    ghost use Rattle.std.specs.Prelude.{◌≡◌, ◌≤◌, ◌+◌, length, MatchOption, Ok, Err};
    ghost use Rattle.log_pieces.specs.Piece.{PieceValue, IsPiece, piece_fault};

    /// The piece of these parts, `first` being the place of the first entry. Its errors are the rules of a piece, the
    /// first that the parts break: refusals 31, 32, 33, 36 and 39.
    pub fn new(
        key: RunKey,
        thread: u32,
        first: u32,
        entries: Vec<Entry>,
        end: Option<End>,
    ) -> Result<Piece, PieceFault>
        ensures { let piece : PieceValue = record { key = key; thread = thread; first = first; entries = entries.items; end = end } in
            MatchOption (piece_fault piece) (result ≡ Ok piece) (λ fault. result ≡ Err fault) }
    {
        match first_fault(&key, thread, first, &entries, &end) {
            Some(fault) => Err(fault),
            None => Ok(Piece {
                key,
                thread,
                first,
                entries,
                end,
            }),
        }
    }

    /// The run that the entries are of.
    pub fn key(&self) -> &RunKey
        ensures value { result.now ≡ self.now.key }
        ensures rules { IsPiece self.now }
    {
        &self.key
    }

    /// The thread, from 0 to 15.
    pub fn thread(&self) -> u32
        ensures value { result ≡ self.now.thread }
        ensures at_most { result ≤ 15 }
        ensures rules { IsPiece self.now }
    {
        self.thread
    }

    /// The place of the first entry in the thread's log.
    pub fn first(&self) -> u32
        ensures value { result ≡ self.now.first }
        ensures at_most { result + length self.now.entries ≤ MOST_STEPS }
        ensures rules { IsPiece self.now }
    {
        self.first
    }

    /// The entries, by place.
    pub fn entries(&self) -> &[Entry]
        ensures value { result.now ≡ self.now.entries }
        ensures few { length self.now.entries ≤ 4096 }
        ensures at_most { self.now.first + length self.now.entries ≤ MOST_STEPS }
        ensures rules { IsPiece self.now }
    {
        &self.entries
    }

    /// How the thread ended, if the piece says so.
    pub fn end(&self) -> Option<End>
        ensures value { result ≡ self.now.end }
        ensures rules { IsPiece self.now }
    {
        self.end
    }
}

#[tactic(auto, unfolding(crate::specs::Piece::piece_fault))]
fn first_fault(
    key: &RunKey,
    thread: u32,
    first: u32,
    entries: &[Entry],
    end: &Option<End>,
) -> Option<PieceFault>
    ensures { result ≡ piece_fault (record { key = key.now; thread = thread; first = first; entries = entries.now; end = end.now }) }
{
    if is_empty(entries, end) {
        return Some(PieceFault::Empty);
    }
    if entries.len() > MOST_ENTRIES {
        return Some(PieceFault::TooMany);
    }
    if passes_end(u64::from(first) + entries.len() as u64, end) {
        return Some(PieceFault::PastEnd);
    }
    if thread > LAST_THREAD {
        return Some(PieceFault::BadThread);
    }
    if !are_entries(greatest_object(&key.profile), entries) {
        return Some(PieceFault::BadEntry);
    }
    None
}

fn is_empty(entries: &[Entry], end: &Option<End>) -> bool
    ensures { result ≡ is_empty entries.now end.now }
{
    entries.is_empty() && end.is_none()
}

fn passes_end(places: u64, end: &Option<End>) -> bool
    ensures { result ≡ passes_end places end.now }
{
    match end {
        None => places > u64::from(MOST_STEPS),
        Some(end) => {
            places > u64::from(end.places) || end.places > end.steps || end.steps > MOST_STEPS
        }
    }
}

/// The greatest object of a run of that profile.
pub(crate) fn greatest_object(profile: &Profile) -> u32
    ensures { result ≡ greatest_object profile.now }
{
    match profile {
        Profile::One => 32_768,
        Profile::Two(block) => (1 << 25) / block.size(),
    }
}

fn are_entries(greatest: u32, entries: &[Entry]) -> bool
    ensures { result ≡ list_all (is_entry greatest) entries.now }
{
    entries.iter().all(|entry| is_entry(greatest, entry))
}

fn is_entry(greatest: u32, entry: &Entry) -> bool
    ensures { result ≡ is_entry greatest entry.now }
{
    let found = entry.found.as_slice();
    match found.len() {
        1..=3 => rises(found) && objects_fit(greatest, found),
        _ => false,
    }
}

fn objects_fit(greatest: u32, found: &[Found]) -> bool
    ensures { result ≡ objects_fit greatest found.now }
{
    found.iter().all(|touch| touch.object() <= greatest)
}

fn rises(found: &[Found]) -> bool
    ensures { result ≡ rises found.now }
{
    match found {
        [first, second, ..] => first.object() < second.object() && rises(&found[1..]),
        _ => true,
    }
}
