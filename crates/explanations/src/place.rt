//! Where the cause of a refusal stands.

use std::fmt;

/// Where the cause of a refusal stands. `file` is the path of a file, or `standard input`.
#[derive(Clone, Copy)]
pub enum FilePlace<'a> {
    /// A file as a whole, or an option.
    Whole(&'a str),
    /// A byte of a file, numbered from 0.
    Byte {
        file: &'a str,
        offset: u64,
    },
    /// A line of a file, numbered from 1.
    Line {
        file: &'a str,
        line: u64,
    },
    /// An instruction of a function of the module in a file, both numbered from 0.
    Instruction {
        file: &'a str,
        function: u32,
        instruction: u32,
    },
    /// An event of a thread in the log of a file, both numbered from 0.
    Event {
        file: &'a str,
        thread: u32,
        place: u32,
    },
}

impl<'a> fmt::Display for FilePlace<'a> {
    ghost use Rattle.std.specs.Prelude.{Some};
    ghost use Rattle.explanations.specs.Places.{place_text};

    ghost output = { λ p. Some (place_text p) };

    /// The name of the file or option, and perhaps what of it.
    fn fmt<W: fmt::Write>(&self, f: &mut fmt::Formatter<W>) -> fmt::Result {
        match *self {
            FilePlace::Whole(name) => write!(f, "{name}"),
            FilePlace::Byte { file, offset } => write!(f, "{file}: byte {offset}"),
            FilePlace::Line { file, line } => write!(f, "{file}: line {line}"),
            FilePlace::Instruction {
                file,
                function,
                instruction,
            } => write!(f, "{file}: function {function}, instruction {instruction}"),
            FilePlace::Event {
                file,
                thread,
                place,
            } => write!(f, "{file}: thread {thread}, place {place}"),
        }
    }
}
