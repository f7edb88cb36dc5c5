//! Lines out of a source.

ghost use Rattle.std.specs.Prelude.{◌≡◌, ℕ, ◌+◌, ◌-◌, ◌^◌, ◌<◌, List, [], ◌∷◌, ◌++◌, Ok, OnOk, OnErr};
ghost use Rattle.debugger.specs.Lines.{HasNoEnd, line_of};
ghost use Rattle.debugger.specs.declared.command.Line.{Line};

use crate::command::Line;
use crate::kept::Kept;
use byte_streams::{Failed, Source};

/// A line that came.
pub(crate) enum Came {
    /// One with its end.
    Whole(Line),
    /// What stands behind the last line end, perhaps no bytes.
    Last(Line),
}

/// Reads a line, byte by byte, so that nothing behind it is read.
pub(crate) fn next_line<R: Source>(source: &mut R) -> Result<Came, Failed>
    requires { R.failed source.old < 2 ^ 64 - 1 }
    ensures whole { (line : Line) → result ≡ Ok (Came.Whole line) → (text : List ℕ) × HasNoEnd text × (line ≡ line_of text) × R.brings source.old (text ++ 10 ∷ []) source.new }
    ensures last { (line : Line) → result ≡ Ok (Came.Last line) → (text : List ℕ) × HasNoEnd text × (line ≡ line_of text) × R.brings source.old text source.new × R.ended source.new }
    ensures part { OnErr result ((text : List ℕ) × HasNoEnd text × R.brings source.old text source.new) }
    ensures one_failed { OnErr result (R.failed source.new ≡ R.failed source.old + 1) }
    ensures none_failed { OnOk result (R.failed source.new ≡ R.failed source.old) }
    ensures fewer { (line : Line) → result ≡ Ok (Came.Whole line) → R.calls source.new < R.calls source.old }
{
    let mut kept = Kept::new();
    loop {
        let mut byte = [0; 1];
        match source.read(&mut byte) {
            Err(Failed) => return Err(Failed),
            Ok(0) => return Ok(Came::Last(kept.line())),
            Ok(_) => {}
        }
        if byte[0] == b'\n' {
            return Ok(Came::Whole(kept.line()));
        }
        kept.put(byte[0]);
    }
}
