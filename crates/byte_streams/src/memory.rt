//! A source and a sink over memory, which may fail once, for tests of what gathers.

ghost use Rattle.std.specs.Prelude.{◌≡◌, ◌-◌, ◌^◌, ◌<◌, [], IfOk, Some, None};

use crate::sink::Sink;
use crate::source::{Failed, Source};
use std::alloc::Global;

/// Bytes that come so many at a call at most. The call of that number, from 1, fails.
#[derive(Drop)]
pub struct MemorySource<'a> {
    rest: &'a [u8],
    most: usize,
    made: u64,
    fails_at: Option<u64>,
    failures: u64,
    ghost some: { 0 < most },
}

impl<'a> MemorySource<'a> {
    /// These bytes, at most `most` at a call.
    pub fn new(bytes: &'a [u8], most: usize, fails_at: Option<u64>) -> MemorySource<'a>
        requires { 0 < most }
        ensures bytes { result.rest.now ≡ bytes.now }
        ensures fails_at { result.fails_at ≡ fails_at }
        ensures none_failed { result.failures ≡ 0 }
    {
        MemorySource {
            rest: bytes,
            most,
            made: 0,
            fails_at,
            failures: 0,
        }
    }
}

impl<'a> Source for MemorySource<'a> {
    ghost use Rattle.std.specs.Prelude.{◌≡◌, ◌++◌, [], None, length};
    ghost use Rattle.std.proofs.Common.{refl, ap, ◌∙◌, sym, append_assoc};

    ghost brings = { λ s xs t. (s.rest.now ≡ xs ++ t.rest.now) × (s.fails_at ≡ None → (t.fails_at ≡ None) × (t.failures ≡ s.failures)) };

    ghost failed = { λ s. s.failures };

    ghost calls = { λ s. length s.rest.now };

    ghost ended = { λ s. s.rest.now ≡ [] };

    fn read(&mut self, buffer: &mut [u8]) -> Result<usize, Failed> {
        self.made = self.made.saturating_add(1);
        if self.fails_at == Some(self.made) {
            self.failures += 1;
            return Err(Failed);
        }
        let count = self.rest.len().min(buffer.len()).min(self.most);
        let (front, after) = self.rest.split_at(count);
        let (into, _) = buffer.split_at_mut(count);
        into.copy_from_slice(front);
        self.rest = after;
        Ok(count)
    }

    fn failures(&self) -> u64 {
        self.failures
    }

    ghost brings_nothing = { λ s. (refl, λ never. (never, refl)) };

    ghost brings_more = { λ s t u xs ys h g. (
      h.0 ∙ ap (λ l. xs ++ l) g.0 ∙ sym (append_assoc xs ys u.rest.now),
      λ never. let m = h.1 never in let l = g.1 m.0 in (l.0, l.1 ∙ m.1),
    ) };
}

/// Bytes that were taken, so many at a call at most. The call of that number, from 1, fails.
#[derive(Drop)]
pub struct MemorySink {
    taken: Vec<u8>,
    most: usize,
    made: u64,
    fails_at: Option<u64>,
    failures: u64,
    ghost some: { 0 < most },
}

impl MemorySink {
    /// Nothing was taken; at most `most` bytes are at a call.
    pub fn new(alloc: Global, most: usize, fails_at: Option<u64>) -> MemorySink
        requires { 0 < most }
        ensures none { result.taken.items ≡ [] }
        ensures none_failed { result.failures ≡ 0 }
    {
        MemorySink {
            taken: Vec::new(alloc),
            most,
            made: 0,
            fails_at,
            failures: 0,
        }
    }

    /// What was taken.
    pub fn taken(&self) -> &[u8]
        ensures { result.now ≡ self.now.taken.items }
    {
        &self.taken
    }
}

impl Sink for MemorySink {
    ghost use Rattle.std.specs.Prelude.{◌≡◌, ◌++◌};
    ghost use Rattle.std.proofs.Common.{refl, ap, ◌∙◌, sym, append_assoc};
    ghost use Rattle.std.proofs.lemmas.List.{append-nil};

    ghost takes = { λ s xs t. t.taken.items ≡ s.taken.items ++ xs };

    ghost failed = { λ s. s.failures };

    fn write(&mut self, bytes: &[u8]) -> Result<usize, Failed> {
        self.made = self.made.saturating_add(1);
        if self.fails_at == Some(self.made) {
            self.failures += 1;
            return Err(Failed);
        }
        let count = bytes.len().min(self.most);
        let (front, _) = bytes.split_at(count);
        if self.taken.extend_from_slice(front).is_err() {
            self.failures += 1;
            return Err(Failed);
        }
        Ok(count)
    }

    fn failures(&self) -> u64 {
        self.failures
    }

    ghost takes_nothing = { λ s. sym (append-nil s.taken.items) };

    ghost takes_more = { λ s t u xs ys h g. g ∙ ap (λ l. l ++ ys) h ∙ append_assoc s.taken.items xs ys };
}
