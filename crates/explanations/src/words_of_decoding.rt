//! Words of faults of the bytes of a module.

use crate::reasons::{Words, words};
use crate::words_of_code::code_words;
use crate::words_of_spelling::{spelling_words, type_words};
use binary_decoder::{
    Cause, DecodeFault, HeaderFault, ItemFault, Limit, ModulePart as BytePlace, SectionFault,
};
use commands::ImportNames;
use std::alloc::Global;
use wasm_types::NoMemory;

/// Why bytes are no module of the profile within the limits. `names` is what `import_names` answers for
/// them.
pub fn decode_words(
    alloc: Global,
    fault: &DecodeFault,
    names: &ImportNames,
) -> Result<String, NoMemory> {
    match *fault {
        DecodeFault::Refused { place, cause, .. } => {
            let place = place_words(alloc, place)?;
            let cause = cause_words(alloc, cause, names)?;
            Ok(format!(in alloc; "{place}: {cause}")?)
        }
        DecodeFault::TooLarge {
            limit: Limit::Bytes,
            ..
        } => words(
            alloc,
            "the file has more than 1048576 bytes, the most that a module may have",
        ),
        DecodeFault::TooLarge {
            limit,
            count,
            place,
        } => {
            let place = place_words(alloc, place)?;
            let limit = limit_words(alloc, limit, count)?;
            Ok(format!(in alloc; "{place}: {limit}")?)
        }
        DecodeFault::NoMemory => words(alloc, "memory for the module could not be had"),
    }
}

/// The name of a section.
fn section_name(id: u8) -> &'static str {
    match id {
        0 => "custom section",
        1 => "type section",
        2 => "import section",
        3 => "function section",
        4 => "table section",
        5 => "memory section",
        6 => "global section",
        7 => "export section",
        8 => "start section",
        9 => "element section",
        10 => "code section",
        11 => "data section",
        12 => "data count section",
        13 => "tag section",
        _ => "unknown section",
    }
}

/// The name of an item of a section.
fn item_name(section: u8) -> &'static str {
    match section {
        1 => "type",
        2 => "import",
        3 => "type index of function",
        4 => "table",
        5 => "memory",
        6 => "global",
        7 => "export",
        9 => "element segment",
        11 => "data segment",
        _ => "item",
    }
}

/// What of a module a byte is part of.
fn place_words(alloc: Global, place: BytePlace) -> Words {
    match place {
        BytePlace::Header => words(alloc, "header"),
        BytePlace::Section(id) => words(alloc, section_name(id)),
        BytePlace::Item { section, number } => {
            let item = item_name(section);
            Ok(format!(in alloc; "{item} {number}")?)
        }
        BytePlace::Function(function) => Ok(format!(in alloc; "function {function}")?),
        BytePlace::Instruction {
            function,
            instruction,
        } => Ok(format!(in alloc; "function {function}, instruction {instruction}")?),
        BytePlace::End => words(alloc, "end of the sections"),
        BytePlace::Unknown => words(alloc, "place unknown"),
    }
}

/// Why bytes are refused.
fn cause_words(alloc: Global, cause: Cause, names: &ImportNames) -> Words {
    match cause {
        Cause::Header(fault) => words(alloc, header_words(fault)),
        Cause::Section(fault) => section_words(alloc, fault),
        Cause::Spelling(fault) => spelling_words(alloc, fault),
        Cause::Type(fault) => type_words(alloc, fault),
        Cause::Item(fault) => item_words(alloc, fault, names),
        Cause::Code(fault) => code_words(alloc, fault),
    }
}

/// What the first eight bytes are.
fn header_words(fault: HeaderFault) -> &'static str {
    match fault {
        HeaderFault::NotBinary => "no WebAssembly module: it does not begin with 00 61 73 6d",
        HeaderFault::TextFormat => {
            "no WebAssembly module in the binary format: it begins as the text format does"
        }
        HeaderFault::Component => "a component (layer 1), and no core module",
        HeaderFault::Version => "another version of the binary format than 1",
    }
}

/// Why no section has that number.
fn unknown_words(alloc: Global, id: u8) -> Words {
    match id {
        12 => words(
            alloc,
            "a data count section is of bulk memory, outside the profile: compile with -mno-bulk-memory",
        ),
        13 => words(
            alloc,
            "a tag section is of exceptions, outside the profile: compile with -fno-exceptions",
        ),
        _ => Ok(format!(in alloc; "no section has the number {id}")?),
    }
}

/// What is wrong with a section.
fn section_words(alloc: Global, fault: SectionFault) -> Words {
    match fault {
        SectionFault::Unknown(id) => unknown_words(alloc, id),
        SectionFault::Repeated(id) => {
            let name = section_name(id);
            Ok(format!(in alloc; "a second {name}")?)
        }
        SectionFault::Misplaced { section, behind } => {
            let section = section_name(section);
            let behind = section_name(behind);
            Ok(format!(in alloc; "the {section} stands behind the {behind}")?)
        }
        SectionFault::PastEnd { length, left } => Ok(format!(in alloc;
            "its length of {length} bytes goes past the end of the file: {left} are left"
        )?),
        SectionFault::LeftOver(left) => Ok(format!(in alloc;
            "{left} bytes are left behind what the section counts"
        )?),
        SectionFault::Bodies { bodies, functions } => Ok(format!(in alloc;
            "{bodies} bodies stand in it, and the function section has {functions} functions"
        )?),
        SectionFault::NoCode(functions) => {
            Ok(format!(in alloc; "{functions} functions have no code section")?)
        }
    }
}

/// What an import or an export is of.
fn kind_name(kind: u8) -> &'static str {
    match kind {
        0 => "function",
        1 => "table",
        2 => "memory",
        3 => "global",
        4 => "tag",
        _ => "thing of unknown kind",
    }
}

/// What is wrong with an item of a section.
fn item_words(alloc: Global, fault: ItemFault, names: &ImportNames) -> Words {
    match fault {
        ItemFault::Import { kind, .. } => {
            let kind = kind_name(kind);
            let module = names.module.as_str();
            let name = names.name.as_str();
            Ok(format!(in alloc;
                "{module}.{name} is an imported {kind}: a memory alone may be imported"
            )?)
        }
        ItemFault::Export(kind) => {
            let name = kind_name(kind);
            Ok(format!(in alloc; "0x{kind:02x} is an exported {name}, outside the profile")?)
        }
        ItemFault::Element(kind) => Ok(format!(in alloc;
            "a segment of kind {kind} is of bulk memory or reference types, outside the profile: compile with -mno-bulk-memory and -mno-reference-types"
        )?),
        ItemFault::Data(kind) => Ok(format!(in alloc;
            "a segment of kind {kind} is of bulk memory, outside the profile: compile with -mno-bulk-memory"
        )?),
    }
}

/// Which limit is passed, by what.
fn limit_words(alloc: Global, limit: Limit, count: u64) -> Words {
    match limit {
        Limit::Bytes => Ok(format!(in alloc; "the file has {count} bytes")?),
        Limit::Pages => Ok(format!(in alloc;
            "the memory begins with {count} pages, and may begin with 256"
        )?),
        Limit::Elements => Ok(format!(in alloc;
            "the table begins with {count} elements, and may begin with 4096"
        )?),
        Limit::Parameters => Ok(format!(in alloc;
            "it has {count} parameters, and may have 1024 with its locals"
        )?),
        Limit::Locals => Ok(format!(in alloc;
            "it has {count} parameters and locals or more, and may have 1024"
        )?),
    }
}
