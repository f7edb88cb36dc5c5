//! What the words of a reason quote of a text.

use arrayvec::ArrayString;
use binary_decoder::{Cause, Cursor, DecodeFault, ItemFault};
use pick_schedule::{ScheduleCause, ScheduleFault};
use text_lines::{Parts, Quoted, without_end};
use thread_plan::{PlanCause, PlanFault};

/// Quoted bytes of a text, at most 40, and `..` where there are more; nothing where nothing is quoted.
pub type Quote = ArrayString<42>;

/// What is quoted of an import: its two names; nothing where none is refused.
#[derive(Clone, Copy, Debug, PartialEq, Eq)]
pub struct ImportNames {
    pub module: Quote,
    pub name: Quote,
}

impl ImportNames {
    /// Of no import.
    fn none() -> ImportNames {
        ImportNames {
            module: Quote::new(),
            name: Quote::new(),
        }
    }
}

/// The names of the import that stands at the beginning of these bytes.
fn names_in(bytes: &[u8]) -> ImportNames {
    let mut cursor = Cursor::new(bytes, 0);
    let Ok(module) = cursor.name() else {
        return ImportNames::none();
    };
    let Ok(name) = cursor.name() else {
        return ImportNames::none();
    };
    ImportNames {
        module: Quoted { bytes: module }.text(),
        name: Quoted { bytes: name }.text(),
    }
}

/// What the words of a fault quote of the bytes of a module: the names of an import that is no memory.
pub fn import_names(bytes: &[u8], fault: &DecodeFault) -> ImportNames {
    match *fault {
        DecodeFault::Refused {
            cause: Cause::Item(ItemFault::Import { names, .. }),
            ..
        } if (names as usize) < bytes.len() => {
            let (_, import) = bytes.split_at(names as usize);
            names_in(import)
        }
        _ => ImportNames::none(),
    }
}

/// What is quoted of a line.
#[derive(Clone, Copy)]
enum Part {
    Line,
    /// The word of that number, from 0 on.
    Word(u32),
    Nothing,
}

/// A part of the line of that number, from 1 on.
fn quote(text: &[u8], line: u64, part: Part) -> Quote {
    let lines = Parts::new(without_end(text), b'\n');
    let Some(line) = lines.part_at(line.saturating_sub(1)) else {
        return Quote::new();
    };
    let bytes = match part {
        Part::Line => Some(line),
        Part::Word(word) => Parts::new(line, b' ').part_at(u64::from(word)),
        Part::Nothing => None,
    };
    match bytes {
        Some(bytes) => Quoted { bytes }.text(),
        None => Quote::new(),
    }
}

/// What the words of a cause quote of a plan's line.
fn plan_part(cause: PlanCause) -> Part {
    match cause {
        PlanCause::FirstLine => Part::Line,
        PlanCause::FirstWord => Part::Word(0),
        PlanCause::NotUtf8 | PlanCause::NoFunction => Part::Word(1),
        PlanCause::Argument { argument, .. } => Part::Word(argument.saturating_add(1)),
        _ => Part::Nothing,
    }
}

/// What the words of a fault quote of the text of a plan.
pub fn plan_quote(text: &[u8], fault: &PlanFault) -> Quote {
    match *fault {
        PlanFault::BadLine { line, cause } => quote(text, line, plan_part(cause)),
        PlanFault::NoExport { line, cause } => quote(text, line, plan_part(cause)),
        PlanFault::WrongArguments { line, cause } => quote(text, line, plan_part(cause)),
        _ => Quote::new(),
    }
}

/// What the words of a cause quote of a schedule's line.
fn schedule_part(cause: ScheduleCause) -> Part {
    match cause {
        ScheduleCause::FirstWord => Part::Word(0),
        ScheduleCause::Thread => Part::Word(1),
        ScheduleCause::Times => Part::Word(2),
        _ => Part::Nothing,
    }
}

/// What the words of a fault quote of the text of a schedule.
pub fn schedule_quote(text: &[u8], fault: &ScheduleFault) -> Quote {
    match *fault {
        ScheduleFault::BadLine { line, cause } => quote(text, line, schedule_part(cause)),
        ScheduleFault::NoMemory => Quote::new(),
    }
}
