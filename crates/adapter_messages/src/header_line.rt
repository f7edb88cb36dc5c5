//! Lines of a header, out of a source.

ghost use Rattle.std.specs.Prelude.{◌≡◌, ℕ, ◌+◌, ◌-◌, ◌^◌, ◌<◌, [], ◌∷◌, None, Some, Ok, OnErr, OnOk};
ghost use Rattle.adapter_messages.specs.HeaderLines.{CameSo};

use arrayvec::ArrayVec;
use byte_streams::{Failed, Source};

/// A line that came.
#[derive(Drop)]
pub(crate) enum Came {
    /// A line, without its line feed.
    Line(ArrayVec<u8, 1025>),
    /// Nothing more comes, and no byte of the line came.
    Nothing,
    /// Nothing more comes, and a part of the line came.
    Part,
    /// The line has more bytes than are taken.
    TooLong,
    /// The source failed.
    Failed,
}

/// Reads a byte, or finds the end.
fn next_byte<R: Source>(source: &mut R) -> Result<Option<u8>, Failed>
    requires { R.failed source.old < 2 ^ 64 - 1 }
    ensures byte { (byte : ℕ) → result ≡ Ok (Some byte) → R.brings source.old (byte ∷ []) source.new }
    ensures fewer { (byte : ℕ) → result ≡ Ok (Some byte) → R.calls source.new < R.calls source.old }
    ensures nothing { result ≡ Ok None → R.brings source.old [] source.new }
    ensures end { result ≡ Ok None → R.ended source.new }
    ensures none_failed { OnOk result (R.failed source.new ≡ R.failed source.old) }
    ensures one_failed { OnErr result (R.failed source.new ≡ R.failed source.old + 1) }
    ensures nothing_brought { OnErr result (R.brings source.old [] source.new) }
{
    let mut buffer = [0; 1];
    match source.read(&mut buffer) {
        Err(Failed) => Err(Failed),
        Ok(0) => Ok(None),
        Ok(_) => Ok(Some(buffer[0])),
    }
}

/// Reads a line of a header, byte by byte, so that nothing behind it is read.
pub(crate) fn next_line<R: Source>(source: &mut R) -> Came
    requires { R.failed source.old < 2 ^ 64 - 1 }
    ensures { CameSo (λ text. R.brings source.old text source.new) (R.ended source.new) (R.calls source.new < R.calls source.old) (R.failed source.old) (R.failed source.new) result }
{
    let mut kept = ArrayVec::<u8, 1025>::new();
    loop {
        match next_byte(source) {
            Err(Failed) => return Came::Failed,
            Ok(None) if kept.is_empty() => return Came::Nothing,
            Ok(None) => return Came::Part,
            Ok(Some(b'\n')) => return Came::Line(kept),
            Ok(Some(_)) if kept.is_full() => return Came::TooLong,
            Ok(Some(byte)) => kept.push(byte),
        }
    }
}
