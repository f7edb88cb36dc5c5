//! The words that a number draws.

ghost use Rattle.std.specs.Prelude.{◌≡◌, ◌<◌};
ghost use Rattle.recorder.specs.Words.{generator_of, word_of, behind_word, below, exponent_of, accesses_by};

use rand_core::utils::NextWord;
use rand_pcg::Pcg32;

/// The stream of the generators, which is that of PCG's demonstration program (O'Neill, "PCG: a family of simple fast
/// space-efficient statistically good algorithms for random number generation", 2014).
const STREAM: u64 = 54;

/// A number below `count` by a word: the high 32 bits of their product (Lemire, "Fast random integer generation in an
/// interval", 2019, without its rejection, so that each draw takes one word).
fn below(word: u32, count: u32) -> u32
    requires { 0 < count }
    ensures value { result ≡ below word count }
    ensures few { result < count }
{
    ((u64::from(word) * u64::from(count)) >> 32) as u32
}

/// The words that a number draws behind its first one, which gave the exponent of the run: from 0 to 6.
#[derive(Drop)]
pub(crate) struct Draws {
    generator: Pcg32,
    exponent: u32,
    ghost small: { exponent < 7 },
}

impl Draws {
    /// Those of a number.
    pub(crate) fn new(number: u64) -> Draws
        ensures generator { result.generator ≡ behind_word (generator_of number) }
        ensures exponent { result.exponent ≡ exponent_of number }
    {
        let mut generator = Pcg32::new(number, STREAM);
        let exponent = below(generator.next_word(), 7);
        Draws {
            generator,
            exponent,
        }
    }

    /// Draws a number below `count`.
    pub(crate) fn below(&mut self, count: u32) -> u32
        requires { 0 < count }
        ensures value { result ≡ below (word_of self.old.generator) count }
        ensures few { result < count }
        ensures generator { self.new.generator ≡ behind_word self.old.generator }
        ensures exponent { self.new.exponent ≡ self.old.exponent }
    {
        below(self.generator.next_word(), count)
    }

    /// Draws how many accesses a stretch may make: from 1 to 2^(exponent+1)-1.
    pub(crate) fn accesses(&mut self) -> u32
        ensures value { result ≡ accesses_by self.old.exponent (word_of self.old.generator) }
        ensures generator { self.new.generator ≡ behind_word self.old.generator }
        ensures exponent { self.new.exponent ≡ self.old.exponent }
    {
        let most = 2u32.pow(self.exponent + 1) - 1;
        self.below(most) + 1
    }
}
