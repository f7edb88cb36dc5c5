//! What the lines of a text and the texts of integers are.

ghost use Rattle.std.specs.Prelude.{◌≡◌, ◌↔◌, ℕ, ℤ, true, List, Some};
ghost use Rattle.std.specs.Fmt.{signed_decimal};
ghost use Rattle.std.specs.Str.Parse.{signed_digits_value};
ghost use Rattle.text_lines.specs.Parts.{lines};
ghost use Rattle.text_lines.specs.Integers.{is_decimal, bits_of};
ghost use Rattle.text_lines.specs.Spelling.{IsTextOf};

/// The lines of a text, joined by line ends, are the text, or lack its last line end. It does nothing.
pub fn lines_are_of_their_text()
    ensures { (text : List ℕ) → IsTextOf text (lines text) }
{}

/// In the range of an i64's arguments, which has that of an i32's, an integer's text is the decimal text that `{}`
/// writes of the integer. It does nothing.
pub fn integers_are_decimal()
    ensures { (text : List ℕ) (number : ℤ) (bits : ℕ) → bits_of 64 number ≡ Some bits → (((is_decimal text ≡ true) × (signed_digits_value 10 text ≡ number)) ↔ (text ≡ signed_decimal number)) }
{}
