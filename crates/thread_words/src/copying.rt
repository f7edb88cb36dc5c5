//! Copies of a thread's stacks and of its instance.

ghost use Rattle.std.specs.Prelude.{◌≡◌, IfOk};
ghost use Rattle.thread_words.specs.Words.{instance_at};
ghost use Rattle.thread_words.specs.Copies.{AreCopied};

use crate::instance::Instance;
use crate::stacks::Stacks;
use std::alloc::Global;
use wasm_types::NoMemory;

/// How many more items a copied list has room for at the least: of the smallest, of 8 bytes, two lines of memory. So
/// what two threads write into lists of their own, at their tops, lies in lines apart, wherever the lists lie.
const ROOM: usize = 16;

/// The same items once more, with room for others.
fn with_room<T: Copy>(alloc: Global, items: &[T]) -> Result<Vec<T>, NoMemory>
    ensures { IfOk result (λ copy. copy.items ≡ items.now) }
{
    let mut copy = Vec::with_capacity(alloc, items.len().saturating_add(ROOM))?;
    copy.extend_from_slice(items)?;
    Ok(copy)
}

impl Stacks {
    /// The same stacks once more, with some room left in each list.
    pub fn copied(&self, alloc: Global) -> Result<Stacks, NoMemory>
        ensures { IfOk result (AreCopied self.now) }
    {
        Ok(Stacks {
            stage: self.stage,
            here: self.here,
            callers: with_room(alloc, &self.callers)?,
            starting: self.starting,
            words: with_room(alloc, &self.words)?,
            labels: with_room(alloc, &self.labels)?,
            globals: with_room(alloc, &self.globals)?,
        })
    }
}

impl Instance {
    /// The same once more.
    pub fn copied(&self, alloc: Global) -> Result<Instance, NoMemory>
        ensures { IfOk result (λ copy. instance_at copy ≡ instance_at self.now) }
    {
        Ok(Instance {
            table: self.table.to_vec(alloc)?,
            extent: self.extent,
            capacity: self.capacity,
            shared: self.shared,
            thread: self.thread,
        })
    }
}
