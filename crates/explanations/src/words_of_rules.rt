//! Words of the rules of a module as a whole.

use crate::reasons::{Words, words};
use std::alloc::Global;
use validator::ModuleCause;
use wasm_types::ExportKind;

/// What an export names.
fn kind_name(kind: ExportKind) -> &'static str {
    match kind {
        ExportKind::Function => "function",
        ExportKind::Table => "table",
        ExportKind::Memory => "memory",
        ExportKind::Global => "global",
    }
}

/// Which rule or limit a module does not keep, outside its function bodies.
pub(crate) fn rule_words(alloc: Global, cause: ModuleCause) -> Words {
    match cause {
        ModuleCause::Results { number, results } => Ok(format!(in alloc;
            "type {number} has {results} results, and may have one: compile with -mno-multivalue"
        )?),
        ModuleCause::FunctionType {
            function,
            number,
            count,
        } => Ok(format!(in alloc;
            "function {function} has type {number}, and there are {count} types"
        )?),
        ModuleCause::Bodies { functions, bodies } => {
            Ok(format!(in alloc; "it has {functions} functions and {bodies} bodies")?)
        }
        ModuleCause::Functions(count) => {
            Ok(format!(in alloc;
                "it has {count} functions, more than numbers of 32 bits tell apart"
            )?)
        }
        ModuleCause::Instructions { function, count } => Ok(format!(in alloc;
            "function {function} has {count} instructions, more than numbers of 32 bits tell apart"
        )?),
        ModuleCause::GlobalValue(global) => {
            Ok(format!(in alloc; "global {global} begins with a value of another type")?)
        }
        ModuleCause::Export {
            export,
            kind,
            index,
        } => {
            let kind = kind_name(kind);
            Ok(format!(in alloc; "export {export} names {kind} {index}, which is not there")?)
        }
        ModuleCause::SameName { first, second } => {
            Ok(format!(in alloc; "exports {first} and {second} have the same name")?)
        }
        ModuleCause::StartMissing(function) => {
            Ok(format!(in alloc; "the start function {function} is not there")?)
        }
        ModuleCause::StartType(function) => Ok(format!(in alloc;
            "the start function {function} takes or leaves something, and may do neither"
        )?),
        cause => size_words(alloc, cause),
    }
}

/// The same of rules of tables, memories and segments, and of limits.
fn size_words(alloc: Global, cause: ModuleCause) -> Words {
    match cause {
        ModuleCause::Tables(count) => {
            Ok(format!(in alloc; "it has {count} tables, and may have one")?)
        }
        ModuleCause::Limits { minimum, maximum } => Ok(format!(in alloc;
            "the least size {minimum} is above the greatest, {maximum}"
        )?),
        ModuleCause::Memories(count) => Ok(format!(in alloc;
            "it has {count} memories, imported and own, and may have one"
        )?),
        ModuleCause::Pages(pages) => {
            Ok(format!(in alloc; "the memory has {pages} pages, and may have 65536")?)
        }
        ModuleCause::Unbounded => words(alloc, "the memory is shared and has no greatest size"),
        ModuleCause::Bytes(bytes) => {
            Ok(format!(in alloc; "it has {bytes} bytes, and may have 1048576")?)
        }
        ModuleCause::FirstPages(pages) => Ok(format!(in alloc;
            "the memory begins with {pages} pages, and may begin with 256"
        )?),
        ModuleCause::FirstElements(elements) => Ok(format!(in alloc;
            "the table begins with {elements} elements, and may begin with 4096"
        )?),
        ModuleCause::Locals { function, count } => Ok(format!(in alloc;
            "function {function} has {count} parameters and locals, and may have 1024"
        )?),
        cause => segment_words(alloc, cause),
    }
}

/// The same of rules of segments.
fn segment_words(alloc: Global, cause: ModuleCause) -> Words {
    match cause {
        ModuleCause::ElementTable { segment, table } => Ok(format!(in alloc;
            "element segment {segment} is for table {table}, which is not there"
        )?),
        ModuleCause::ElementOffset(segment) => {
            Ok(format!(in alloc; "the offset of element segment {segment} is no i32")?)
        }
        ModuleCause::ElementFunction {
            segment,
            function,
            count,
        } => Ok(format!(in alloc;
            "element segment {segment} names function {function}, and there are {count}"
        )?),
        ModuleCause::DataMemory { segment, memory } => Ok(format!(in alloc;
            "data segment {segment} is for memory {memory}, which is not there"
        )?),
        ModuleCause::DataOffset(segment) => {
            Ok(format!(in alloc; "the offset of data segment {segment} is no i32")?)
        }
        _ => words(alloc, "it breaks a rule of modules"),
    }
}
