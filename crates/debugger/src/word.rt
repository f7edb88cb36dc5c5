//! Words that commands carry.

ghost use Rattle.std.specs.Prelude.{◌≡◌};
ghost use Rattle.debugger.specs.Lines.{word_of};

/// The most bytes of a word that a command carries.
const LONGEST: usize = 64;

/// A word of at most 64 bytes, with zeros behind it.
#[derive(Clone, Copy, Debug)]
pub struct Word {
    pub bytes: [u8; 64],
}

/// A text as a word, if it is no longer.
pub(crate) fn word_of(text: &[u8]) -> Option<Word>
    ensures { result ≡ word_of text.now }
{
    if text.len() > LONGEST {
        return None;
    }
    let mut bytes = [0; 64];
    bytes[..text.len()].copy_from_slice(text);
    Some(Word { bytes })
}
