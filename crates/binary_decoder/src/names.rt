//! The names of functions.

ghost use Rattle.std.specs.Prelude.{◌≡◌, ℕ, None, IfOk, OnOk, Some, option_copied, cond};
ghost use Rattle.std.specs.Prelude.{◌==◌};
ghost use Rattle.binary_decoder.specs.Names.{function_name, entries_of, named_or};
ghost use Rattle.binary_decoder.specs.Kept.{name_of};

use crate::cursor::Cursor;
use crate::entries::next_entry;
use crate::name_parts::{Wanted, first_content, sections};
use std::alloc::Global;
use std::collections::BTreeMap;
use wasm_types::NoMemory;

/// The names of a module's functions.
#[derive(Drop)]
pub struct FunctionNames {
    names: BTreeMap<u32, String>,
}

impl FunctionNames {
    /// The names that the name section of a module's bytes gives to functions (WebAssembly Core, appendix, name section).
    /// Where the section is damaged, those that stand before the damage. Time is near linear in the bytes.
    pub fn new(alloc: Global, bytes: &[u8]) -> Result<FunctionNames, NoMemory>
        ensures { IfOk result (λ names. (function : ℕ) → name_of names function ≡ function_name bytes.now function) }
    {
        let mut names = FunctionNames {
            names: BTreeMap::new(alloc),
        };
        let Some(section) = first_content(Wanted::NameSection, &sections(bytes)) else {
            return Ok(names);
        };
        let Some(mut map) = first_content(Wanted::FunctionNames, &section) else {
            return Ok(names);
        };
        names.read(alloc, &mut map)?;
        Ok(names)
    }

    /// The name of a function, if it has one.
    pub fn get(&self, function: u32) -> Option<&str>
        ensures { option_copied result ≡ name_of self.now function }
    {
        match self.names.get(&function) {
            Some(name) => Some(name.as_str()),
            None => None,
        }
    }

    /// Gives a function a name, in place of the one that it had.
    fn put(&mut self, alloc: Global, function: u32, name: &str) -> Result<(), NoMemory>
        ensures { OnOk result ((other : ℕ) → name_of self.new other ≡ cond (function == other) (Some name.now) (name_of self.old other)) }
    {
        let name = String::from_str(alloc, name)?;
        self.names.insert(function, name)?;
        Ok(())
    }

    /// Reads a name map, up to the first damage.
    fn read(&mut self, alloc: Global, cursor: &mut Cursor<'_>) -> Result<(), NoMemory>
        ensures { OnOk result ((function : ℕ) → name_of self.new function ≡ named_or (name_of self.old function) function (entries_of cursor.old.rest.now)) }
    {
        let Ok(count) = cursor.unsigned_32() else {
            return Ok(());
        };
        for _ in 0..count {
            let Ok(entry) = next_entry(cursor) else {
                return Ok(());
            };
            self.put(alloc, entry.function, entry.name)?;
        }
        Ok(())
    }
}
