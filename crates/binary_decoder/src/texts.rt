//! The summary of a module.

ghost use Rattle.std.specs.Prelude.{◌≡◌, IfOk, codes};
ghost use Rattle.binary_decoder.specs.Summary.{or_word, memory_text, first_table, summary_text};

use std::alloc::Global;
use std::fmt;
use wasm_types::{Limits, MemoryType, Module, NoMemory, first_memory};

/// A number, or a word where there is none.
#[derive(Clone, Copy)]
struct OrWord {
    number: Option<u32>,
    word: &'static str,
}

impl fmt::Display for OrWord {
    ghost use Rattle.std.specs.Prelude.{Some};
    ghost use Rattle.binary_decoder.specs.Summary.{or_word};

    ghost output = { λ o. Some (or_word o.word.now o.number) };

    fn fmt<W: fmt::Write>(&self, f: &mut fmt::Formatter<W>) -> fmt::Result {
        match self.number {
            Some(number) => write!(f, "{number}"),
            None => write!(f, "{}", self.word),
        }
    }
}

/// The memory of a module, or `none`.
#[derive(Clone, Copy)]
struct MemoryLine(Option<MemoryType>);

impl fmt::Display for MemoryLine {
    ghost use Rattle.std.specs.Prelude.{Some};
    ghost use Rattle.binary_decoder.specs.Summary.{memory_text};

    ghost output = { λ m. Some (memory_text m.0) };

    fn fmt<W: fmt::Write>(&self, f: &mut fmt::Formatter<W>) -> fmt::Result {
        let Some(memory) = self.0 else {
            return write!(f, "none");
        };
        let maximum = OrWord {
            number: memory.limits.maximum,
            word: "-",
        };
        write!(f, "{} {maximum} ", memory.limits.minimum)?;
        if memory.shared {
            write!(f, "shared")
        } else {
            write!(f, "unshared")
        }
    }
}

/// The least size of the first table.
fn table_of(tables: &[Limits]) -> Option<u32>
    ensures { result ≡ first_table tables.now }
{
    match tables {
        [] => None,
        [table, ..] => Some(table.minimum),
    }
}

/// The first lines of the summary.
#[derive(Clone, Copy)]
struct FirstLines {
    types: usize,
    functions: usize,
    table: OrWord,
    memory: MemoryLine,
}

impl fmt::Display for FirstLines {
    ghost use Rattle.std.specs.Prelude.{Some};
    ghost use Rattle.binary_decoder.specs.Summary.{first_lines};

    ghost output = { λ l. Some (first_lines l.types l.functions (or_word l.table.word.now l.table.number) (memory_text l.memory.0)) };

    fn fmt<W: fmt::Write>(&self, f: &mut fmt::Formatter<W>) -> fmt::Result {
        let types = self.types;
        let functions = self.functions;
        let table = self.table;
        let memory = self.memory;
        writeln!(
            f,
            "types {types}\nfunctions {functions}\ntable {table}\nmemory {memory}"
        )
    }
}

/// The last lines of the summary.
#[derive(Clone, Copy)]
struct LastLines {
    globals: usize,
    exports: usize,
    start: OrWord,
}

impl fmt::Display for LastLines {
    ghost use Rattle.std.specs.Prelude.{Some};
    ghost use Rattle.binary_decoder.specs.Summary.{last_lines};

    ghost output = { λ l. Some (last_lines l.globals l.exports (or_word l.start.word.now l.start.number)) };

    fn fmt<W: fmt::Write>(&self, f: &mut fmt::Formatter<W>) -> fmt::Result {
        let globals = self.globals;
        let exports = self.exports;
        let start = self.start;
        writeln!(f, "globals {globals}\nexports {exports}\nstart {start}")
    }
}

/// A number, or `none`.
fn or_none(number: Option<u32>) -> OrWord
    ensures number { result.number ≡ number }
    ensures word { result.word.now ≡ codes "none" }
{
    OrWord {
        number,
        word: "none",
    }
}

/// The summary of a module, a line each: `types N`, `functions N`, `table MIN` or `table none`, `memory MIN MAX shared`
/// or `unshared` (MAX is `-` where there is none) or `memory none`, `globals N`, `exports N`, `start N` or `start none`.
/// Functions, globals and exports are the module's own. It fails only where memory runs out.
pub fn summary(alloc: Global, module: &Module) -> Result<Vec<u8>, NoMemory>
    ensures { IfOk result (λ text. text.items ≡ summary_text module.now) }
{
    let table = table_of(module.tables.as_slice());
    let memory = first_memory(module);
    let first = FirstLines {
        types: module.types.as_slice().len(),
        functions: module.functions.as_slice().len(),
        table: or_none(table),
        memory: MemoryLine(memory),
    };
    let last = LastLines {
        globals: module.globals.as_slice().len(),
        exports: module.exports.as_slice().len(),
        start: or_none(module.start),
    };
    let text = format!(in alloc; "{first}{last}")?;
    Ok(text.into_bytes())
}
