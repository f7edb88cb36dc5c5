//! Names that may be put into a line.

ghost use Rattle.std.specs.Prelude.{◌≡◌};
ghost use Rattle.binary_decoder.specs.Printable.{is_printable, fits_line};

/// Whether a character stands in one line, in one direction: it is no control character, parts no lines, and turns no text
/// round.
fn is_printable(character: char) -> bool
    ensures { result ≡ is_printable character }
{
    !matches!(
        character,
        '\0'..='\u{1F}'
            | '\u{7F}'..='\u{9F}'
            | '\u{61C}'
            | '\u{200E}'..='\u{200F}'
            | '\u{2028}'..='\u{202E}'
            | '\u{2066}'..='\u{2069}'
    )
}

/// Whether a name stands in one line, in one direction.
pub fn fits_line(name: &str) -> bool
    ensures { result ≡ fits_line name.now }
{
    name.chars().all(is_printable)
}
