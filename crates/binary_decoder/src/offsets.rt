//! The offsets of instructions.

ghost use Rattle.std.specs.Prelude.{◌≡◌, ℕ, ◌≤◌, ◌++◌, ◌∷◌, [], length, IfOk, OnOk};
ghost use Rattle.binary_decoder.specs.Names.{whole_items};
ghost use Rattle.binary_decoder.specs.Offsets.{instruction_offset, body_offsets_at, locals_of, offsets_behind};
ghost use Rattle.binary_decoder.specs.Kept.{offset_of, Holds};

use crate::code_parts::{code_section, push_content};
use crate::cursor::Cursor;
use std::alloc::Global;
use wasm_types::NoMemory;

/// The offsets of a module's instructions: eight bytes for each instruction and each body, and what growth left free.
#[derive(Drop)]
pub struct InstructionOffsets {
    /// The offset of each instruction, body by body.
    offsets: Vec<usize>,
    /// How many instructions stand before each body, and how many there are.
    starts: Vec<usize>,
}

impl InstructionOffsets {
    /// The offset of each instruction of a module: that of its first byte in these bytes, counted from 0. Where bytes
    /// are damaged, those of the instructions that stand before the damage, in each body. Time is linear in the bytes.
    pub fn of(alloc: Global, bytes: &[u8]) -> Result<InstructionOffsets, NoMemory>
        ensures { IfOk result (λ kept. (function instruction : ℕ) → offset_of kept function instruction ≡ instruction_offset bytes.now function instruction) }
    {
        let mut kept = InstructionOffsets::empty(alloc)?;
        let Some(code) = code_section(bytes) else {
            return Ok(kept);
        };
        let mut cursor = code.content;
        let Ok(count) = cursor.unsigned_32() else {
            return Ok(kept);
        };
        kept.push_bodies(alloc, code.end, count, &mut cursor)?;
        Ok(kept)
    }

    /// The offset of an instruction of a function, if there is such an instruction. Both are counted from 0, functions
    /// as the module's bodies are: no function is imported in this profile. Time is constant.
    pub fn offset(&self, function: u32, instruction: u32) -> Option<usize>
        ensures { result ≡ offset_of self.now function instruction }
    {
        let start = *self.starts.get(function as usize)?;
        let end = *self.starts.get(function as usize + 1)?;
        let index = start.checked_add(instruction as usize)?;
        if index < end {
            self.offsets.get(index).copied()
        } else {
            None
        }
    }

    /// No offsets, of no bodies.
    fn empty(alloc: Global) -> Result<InstructionOffsets, NoMemory>
        ensures { IfOk result (λ kept. Holds kept []) }
    {
        let mut starts = Vec::new(alloc);
        starts.push(0)?;
        Ok(InstructionOffsets {
            offsets: Vec::new(alloc),
            starts,
        })
    }

    /// Puts a body behind the others. Its content ends at the offset `end`.
    fn push_body(&mut self, alloc: Global, end: usize, content: &Cursor) -> Result<(), NoMemory>
        requires { length content.now.rest.now ≤ end }
        ensures offsets { OnOk result (self.new.offsets.items ≡ self.old.offsets.items ++ offsets_behind end (locals_of content.now.rest.now)) }
        ensures starts { OnOk result (self.new.starts.items ≡ self.old.starts.items ++ length self.new.offsets.items ∷ []) }
    {
        push_content(alloc, end, content, &mut self.offsets)?;
        self.starts.push(self.offsets.len())?;
        Ok(())
    }

    /// Puts so many bodies, up to the first damage, where none is yet. The text ends at the offset `end`.
    fn push_bodies(
        &mut self,
        alloc: Global,
        end: usize,
        count: u32,
        cursor: &mut Cursor,
    ) -> Result<(), NoMemory>
        requires empty { Holds self.old [] }
        requires within { length cursor.now.rest.now ≤ end }
        ensures { OnOk result (Holds self.new (whole_items (body_offsets_at end) count cursor.old.rest.now)) }
    {
        for _ in 0..count {
            let Ok(content) = cursor.sized() else {
                return Ok(());
            };
            let content_end = end - cursor.rest().len();
            self.push_body(alloc, content_end, &content)?;
        }
        Ok(())
    }
}
