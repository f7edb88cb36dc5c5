//! What bytes come from.

ghost use Rattle.std.specs.Prelude.{◌≡◌, ℕ, ◌+◌, ◌-◌, ◌^◌, ◌<◌, ◌≤◌, List, [], ◌++◌, length, take, IfOk, OnOk, OnErr};

/// A call of a source or a sink that failed, and was counted.
#[derive(Clone, Copy, Debug, PartialEq, Eq)]
pub struct Failed;

/// What bytes come from, as a file or standard input. A source counts its failing calls, and only finitely many calls
/// bring bytes.
///
/// `brings` relates two states and the bytes that came between them. A source whose bytes no contract can know,
/// as standard input, may have it hold always; a source over memory says exactly which bytes come, and a source of
/// which no call fails says that no call failed between the two.
pub trait Source {
    /// That these bytes came, from one state to another.
    ghost brings: { Self → List ℕ → Self → Type 0 };

    /// How many calls failed.
    ghost failed: { Self → ℕ };

    /// How many more calls bring bytes at most.
    ghost calls: { Self → ℕ };

    /// That nothing more comes.
    ghost ended: { Self → Type 0 };

    /// Reads some bytes into the front of the buffer, and answers how many: none only at the end.
    fn read(&mut self, buffer: &mut [u8]) -> Result<usize, Failed>
        requires room { 0 < length buffer.old }
        requires countable { failed self.old < 2 ^ 64 - 1 }
        ensures within { IfOk result (λ n. n ≤ length buffer.old) }
        ensures brought { IfOk result (λ n. brings self.old (take n buffer.new) self.new) }
        ensures end { IfOk result (λ n. n ≡ 0 → ended self.new) }
        ensures fewer { IfOk result (λ n. 0 < n → calls self.new < calls self.old) }
        ensures none_failed { OnOk result (failed self.new ≡ failed self.old) }
        ensures one_failed { OnErr result (failed self.new ≡ failed self.old + 1) }
        ensures nothing_brought { OnErr result (brings self.old [] self.new) };

    /// How many calls of `read` failed.
    fn failures(&self) -> u64
        ensures { result ≡ failed self.now };

    ghost brings_nothing: { (s : Self) → brings s [] s };

    ghost brings_more: { (s t u : Self) (xs ys : List ℕ) → brings s xs t → brings t ys u → brings s (xs ++ ys) u };
}
