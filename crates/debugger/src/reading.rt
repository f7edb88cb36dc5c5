//! Commands out of lines.

ghost use Rattle.std.specs.Prelude.{◌≡◌, ◌≤◌, ◌∷◌, [], Some, length};
ghost use Rattle.text_lines.specs.Parts.{words};
ghost use Rattle.debugger.specs.Lines.{number_of, number_64_of, alone, function_break, of_thread, of_thread_with, of_number, of_range, watch_of, width_of_length, with_number, with_numbers, with_one, with_three, with_two, word_of, command_of, line_of};

use crate::command::{Command, Line};
use crate::watching::WatchedNumber;
use crate::word::word_of;
use text_lines::{Parts, bits_32, bits_64, is_integer};
use wasm_types::{ByteRange, Width};

/// The most bytes of a line that is a command.
pub(crate) const LONGEST: usize = 1024;

/// The words that commands begin with.
const STEP: &[u8] = b"step";

const EVENT: &[u8] = b"event";

const FINISH: &[u8] = b"finish";

const CONTINUE: &[u8] = b"continue";

const AGAIN: &[u8] = b"again";

const BACK: &[u8] = b"back";

const REVERSE: &[u8] = b"reverse";

const GOTO: &[u8] = b"goto";

const PLACE: &[u8] = b"place";

const BREAK: &[u8] = b"break";

const WRITE: &[u8] = b"write";

const WATCH: &[u8] = b"watch";

const DELETE: &[u8] = b"delete";

const THREADS: &[u8] = b"threads";

const WHERE: &[u8] = b"where";

const LOCALS: &[u8] = b"locals";

const STACK: &[u8] = b"stack";

const WAITS: &[u8] = b"waits";

const AROUND: &[u8] = b"around";

const OBJECT: &[u8] = b"object";

const WRITER: &[u8] = b"writer";

const GOTO_WRITER: &[u8] = b"writer!";

const READERS: &[u8] = b"readers";

const BYTES: &[u8] = b"bytes";

const WAY: &[u8] = b"way";

const ORDER: &[u8] = b"order";

const HELP: &[u8] = b"help";

const QUIT: &[u8] = b"quit";

/// The number from 0 to 4294967295 that a word is in decimal.
fn number(word: &[u8]) -> Option<u32>
    ensures { result ≡ number_of word.now }
{
    match word {
        [b'-', ..] => None,
        _ if is_integer(word) => bits_32(word),
        _ => None,
    }
}

/// The number from 0 to 18446744073709551615 that a word is in decimal.
fn number_64(word: &[u8]) -> Option<u64>
    ensures { result ≡ number_64_of word.now }
{
    match word {
        [b'-', ..] => None,
        _ if is_integer(word) => bits_64(word),
        _ => None,
    }
}

/// The command of one word.
fn alone(word: &[u8]) -> Option<Command>
    ensures { result ≡ alone word.now }
{
    if word == CONTINUE {
        Some(Command::Continue)
    } else if word == BACK {
        Some(Command::Back { steps: 1 })
    } else if word == REVERSE {
        Some(Command::Reverse)
    } else if word == DELETE {
        Some(Command::Delete)
    } else if word == THREADS {
        Some(Command::Threads)
    } else if word == WAY {
        Some(Command::Way)
    } else if word == ORDER {
        Some(Command::Order)
    } else if word == HELP {
        Some(Command::Help)
    } else if word == QUIT {
        Some(Command::Quit)
    } else {
        None
    }
}

/// The command of a word and a thread.
fn of_thread(word: &[u8], thread: u32) -> Option<Command>
    ensures { result ≡ of_thread word.now thread }
{
    if word == STEP {
        Some(Command::Step { thread, steps: 1 })
    } else if word == EVENT {
        Some(Command::Event { thread, events: 1 })
    } else if word == FINISH {
        Some(Command::Finish { thread })
    } else if word == WHERE {
        Some(Command::Where { thread })
    } else if word == LOCALS {
        Some(Command::Locals { thread, depth: 0 })
    } else if word == STACK {
        Some(Command::Stack { thread, depth: 0 })
    } else if word == WAITS {
        Some(Command::Waits { thread })
    } else if word == AROUND {
        Some(Command::Around { thread, events: 5 })
    } else {
        None
    }
}

/// The command of a word and a number that is no thread's.
fn of_number(word: &[u8], number: u32) -> Option<Command>
    ensures { result ≡ of_number word.now number }
{
    if word == AGAIN {
        Some(Command::Again { passes: number })
    } else if word == BACK {
        Some(Command::Back { steps: number })
    } else if word == OBJECT {
        Some(Command::Object { object: number })
    } else if word == WRITER {
        Some(Command::Writer { address: number })
    } else if word == GOTO_WRITER {
        Some(Command::GotoWriter { address: number })
    } else if word == READERS {
        Some(Command::Readers { address: number })
    } else {
        None
    }
}

/// The command of a word and a number.
fn with_number(word: &[u8], number: u32) -> Option<Command>
    ensures { result ≡ with_number word.now (Some number) }
{
    match of_thread(word, number) {
        Some(command) => Some(command),
        None => of_number(word, number),
    }
}

/// A break at an instruction of a function that is called so.
fn function_break(name: &[u8], instruction: u32) -> Option<Command>
    ensures { result ≡ function_break (word_of name.now) (Some instruction) }
{
    let name = word_of(name)?;
    Some(Command::Function { name, instruction })
}

/// The command of two words.
fn with_one(word: &[u8], first: &[u8]) -> Option<Command>
    ensures { result ≡ with_one word.now first.now }
{
    if word == BREAK {
        function_break(first, 0)
    } else {
        with_number(word, number(first)?)
    }
}

/// The command of a word, a thread and a number.
fn of_thread_with(word: &[u8], thread: u32, number: u32) -> Option<Command>
    ensures { result ≡ of_thread_with word.now thread number }
{
    if word == STEP {
        let steps = number;
        Some(Command::Step { thread, steps })
    } else if word == EVENT {
        let events = number;
        Some(Command::Event { thread, events })
    } else if word == GOTO {
        let place = number;
        Some(Command::Goto { thread, place })
    } else if word == PLACE {
        let place = number;
        Some(Command::Place { thread, place })
    } else if word == LOCALS {
        let depth = number;
        Some(Command::Locals { thread, depth })
    } else if word == STACK {
        let depth = number;
        Some(Command::Stack { thread, depth })
    } else if word == AROUND {
        let events = number;
        Some(Command::Around { thread, events })
    } else {
        None
    }
}

/// The width of so many bytes.
fn width_of_length(len: u32) -> Option<Width>
    ensures { result ≡ width_of_length len }
{
    match len {
        1 => Some(Width::One),
        2 => Some(Width::Two),
        4 => Some(Width::Four),
        8 => Some(Width::Eight),
        _ => None,
    }
}

/// A break at the changes of a number that stands there, or of whether it is this one.
fn watch_of(range: ByteRange, value: Option<u64>) -> Option<Command>
    ensures { result ≡ watch_of range value }
{
    Some(Command::Watch(WatchedNumber {
        address: range.from,
        width: width_of_length(range.len)?,
        value,
    }))
}

/// The command of a word and a range of bytes.
fn of_range(word: &[u8], range: ByteRange) -> Option<Command>
    ensures { result ≡ of_range word.now range }
{
    if word == WRITE {
        Some(Command::Write(range))
    } else if word == BYTES {
        Some(Command::Bytes(range))
    } else if word == WATCH {
        watch_of(range, None)
    } else {
        None
    }
}

/// The command of a word and two numbers.
fn with_numbers(word: &[u8], first: u32, second: u32) -> Option<Command>
    ensures { result ≡ with_numbers word.now (Some first) (Some second) }
{
    match of_thread_with(word, first, second) {
        Some(command) => Some(command),
        None => of_range(
            word,
            ByteRange {
                from: first,
                len: second,
            },
        ),
    }
}

/// The command of three words.
fn with_two(word: &[u8], first: &[u8], second: &[u8]) -> Option<Command>
    ensures { result ≡ with_two word.now first.now second.now }
{
    if word == BREAK {
        function_break(first, number(second)?)
    } else {
        with_numbers(word, number(first)?, number(second)?)
    }
}

/// The command of four words.
fn with_three(word: &[u8], first: &[u8], second: &[u8], third: &[u8]) -> Option<Command>
    ensures { result ≡ with_three word.now first.now second.now third.now }
{
    if word != WATCH {
        return None;
    }
    let range = ByteRange {
        from: number(first)?,
        len: number(second)?,
    };
    let value = number_64(third)?;
    watch_of(range, Some(value))
}

/// The command of the words of a line.
fn command_of(line: &[u8]) -> Option<Command>
    ensures { result ≡ command_of (words line.now) }
{
    let mut parts = Parts::new(line, b' ');
    let word = parts.take_part()?;
    let Some(first) = parts.take_part() else {
        return alone(word);
    };
    let Some(second) = parts.take_part() else {
        return with_one(word, first);
    };
    let Some(third) = parts.take_part() else {
        return with_two(word, first, second);
    };
    match parts.take_part() {
        None => with_three(word, first, second, third),
        Some(_) => None,
    }
}

/// What a line of at most 1,024 bytes is.
pub(crate) fn line_of(line: &[u8]) -> Line
    requires { length line.now ≤ 1024 }
    ensures { result ≡ line_of line.now }
{
    match line {
        [] => Line::Empty,
        [_, ..] => match command_of(line) {
            Some(command) => Line::Command(command),
            None => Line::Unknown,
        },
    }
}

/// What a line is.
pub fn read_line(line: &[u8]) -> Line
    ensures { result ≡ line_of line.now }
{
    if line.len() > LONGEST {
        Line::Unknown
    } else {
        line_of(line)
    }
}
