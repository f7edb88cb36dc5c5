//! Parts of bytes between separators.

ghost use Rattle.std.specs.Prelude.{◌≡◌, [], ◌∷◌, MatchOption, option_copied, slice_get};
ghost use Rattle.text_lines.specs.Parts.{parts, parts_left, without_last_end};

use memchr::memchr;

/// The parts between separators that are still to come.
#[derive(Clone, Copy, Debug)]
pub struct Parts<'a> {
    // The next part and all behind it; None behind the last part.
    rest: Option<&'a [u8]>,
    separator: u8,
}

impl<'a> Parts<'a> {
    /// The parts of these bytes, one more than there are separators.
    pub fn new(bytes: &'a [u8], separator: u8) -> Parts<'a>
        ensures { parts_left result ≡ parts separator bytes.now }
    {
        Parts {
            rest: Some(bytes),
            separator,
        }
    }

    /// Takes the next part; None behind the last.
    pub fn take_part(&mut self) -> Option<&'a [u8]>
        ensures { MatchOption result ((parts_left self.old ≡ []) × (parts_left self.new ≡ [])) (λ part. parts_left self.old ≡ part.now ∷ parts_left self.new) }
    {
        let bytes = self.rest?;
        match memchr(self.separator, bytes) {
            None => {
                self.rest = None;
                Some(bytes)
            }
            Some(at) => {
                let (part, _) = bytes.split_at(at);
                let (_, behind) = bytes.split_at(at + 1);
                self.rest = Some(behind);
                Some(part)
            }
        }
    }

    /// The part of that number, from 0 on; None where there are fewer.
    pub fn part_at(mut self, number: u64) -> Option<&'a [u8]>
        ensures { option_copied result ≡ slice_get (parts_left self.entry) number }
    {
        let mut left = number;
        'parts: while left > 0 {
            let Some(_) = self.take_part() else {
                return None;
            };
            left -= 1;
        }
        self.take_part()
    }
}

/// A text without the line end that stands last, if one does.
pub fn without_end(text: &[u8]) -> &[u8]
    ensures { result.now ≡ without_last_end text.now }
{
    match text {
        [front @ .., b'\n'] => front,
        _ => text,
    }
}
