//! Where bytes go.

ghost use Rattle.std.specs.Prelude.{◌≡◌, ℕ, ◌+◌, ◌-◌, ◌^◌, ◌<◌, ◌≤◌, List, [], ◌++◌, length, take, IfOk, OnOk, OnErr};

use crate::source::Failed;

/// Where bytes go, as a file or standard output. A sink counts its failing calls.
///
/// `takes` relates two states and the bytes that were taken between them, as `brings` does for a source.
pub trait Sink {
    /// That these bytes were taken, from one state to another.
    ghost takes: { Self → List ℕ → Self → Type 0 };

    /// How many calls failed.
    ghost failed: { Self → ℕ };

    /// Takes a beginning of the bytes, at least one of them, and answers how many.
    fn write(&mut self, bytes: &[u8]) -> Result<usize, Failed>
        requires some { 0 < length bytes.now }
        requires countable { failed self.old < 2 ^ 64 - 1 }
        ensures within { IfOk result (λ n. (0 < n) × (n ≤ length bytes.now)) }
        ensures taken { IfOk result (λ n. takes self.old (take n bytes.now) self.new) }
        ensures none_failed { OnOk result (failed self.new ≡ failed self.old) }
        ensures one_failed { OnErr result (failed self.new ≡ failed self.old + 1) }
        ensures nothing_taken { OnErr result (takes self.old [] self.new) };

    /// How many calls of `write` failed.
    fn failures(&self) -> u64
        ensures { result ≡ failed self.now };

    ghost takes_nothing: { (s : Self) → takes s [] s };

    ghost takes_more: { (s t u : Self) (xs ys : List ℕ) → takes s xs t → takes t ys u → takes s (xs ++ ys) u };
}

/// Writes all of the bytes, or up to the first call that fails.
pub fn write_all<W: Sink>(sink: &mut W, bytes: &[u8]) -> Result<(), Failed>
    requires { W.failed sink.old < 2 ^ 64 - 1 }
    ensures taken { OnOk result (W.takes sink.old bytes.now sink.new) }
    ensures none_failed { OnOk result (W.failed sink.new ≡ W.failed sink.old) }
    // After a failure a beginning of the bytes was taken.
    ensures begun { OnErr result ((part rest : List ℕ) × (bytes.now ≡ part ++ rest) × W.takes sink.old part sink.new) }
    ensures one_failed { OnErr result (W.failed sink.new ≡ W.failed sink.old + 1) }
{
    let mut rest = bytes;
    while !rest.is_empty() {
        let count = sink.write(rest)?;
        let (_, after) = rest.split_at(count);
        rest = after;
    }
    Ok(())
}
