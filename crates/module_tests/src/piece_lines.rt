//! Why lines are no piece lines, in words.

use explanations::line_words;
use log_pieces::{EntryFault, LineFault, PieceFault};
use std::test::Fail;

/// Faults and their words.
static WORDS: &[(LineFault, &str)] = &[
    (LineFault::TooLong, "it is longer than any piece line"),
    (LineFault::CarriageReturn, "it ends in a carriage return"),
    (
        LineFault::UpperCase { column: 4 },
        "the digit at column 4 is in upper case",
    ),
    (
        LineFault::NotADigit {
            column: 2,
            bytes: *b"g00000",
        },
        "`g` at column 2 is no digit 0 to 9 or a to f",
    ),
    (
        LineFault::NotADigit {
            column: 4,
            bytes: *b"\r00000",
        },
        "the byte 13 at column 4 is no digit 0 to 9 or a to f",
    ),
    (
        LineFault::NotADigit {
            column: 3,
            bytes: *b"\x1f\x8b\x08\0\0\0",
        },
        "the byte 31 at column 3 is no digit 0 to 9 or a to f",
    ),
    (
        LineFault::NotADigit {
            column: 1,
            bytes: *b"(\xb5/\xfe00",
        },
        "`(` at column 1 is no digit 0 to 9 or a to f",
    ),
    (
        LineFault::OddDigits { digits: 3 },
        "it has 3 digits, which is odd",
    ),
    (
        LineFault::LeftOver { bytes: 3 },
        "3 bytes stand behind the piece",
    ),
    (
        LineFault::Entry {
            entry: 2,
            fault: EntryFault::BadMode { mode: 2 },
        },
        "entry 2 is bad: a touch has the mode 2, not 0 or 1",
    ),
    (
        LineFault::Rule(PieceFault::BadThread),
        "it breaks a rule: a thread above 15",
    ),
];

#[test]
fn faults_of_piece_lines_have_words(rt: HostRuntime) -> Result<(), Fail> {
    for (fault, words) in WORDS {
        let text = line_words(rt.alloc(), *fault)?;
        assert_eq!(rt; text.as_str(), *words);
    }
    Ok(())
}
