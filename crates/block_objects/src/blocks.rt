//! A memory's bytes.

ghost use Rattle.std.specs.Prelude.{◌≡◌, ℕ, ◌*◌, ◌^◌, ◌≤◌, true, length, IfOk, Some, None};
ghost use Rattle.std.specs.Int.{byte_len};
ghost use Rattle.std.specs.List.{All};
ghost use Rattle.wasm_types.specs.declared.operation.Reply.TheVariants as replies;
ghost use Rattle.block_objects.specs.Objects.{blocks_in};
ghost use Rattle.wasm_types.specs.Values.{value_of};
ghost use Rattle.wasm_types.specs.Accesses.{access_type, access_width, load_width, type_width};
ghost use Rattle.block_objects.specs.Access.{is_within, loaded, modified, exchanged, number_at};
ghost use Rattle.block_objects.specs.Effects.{grow_reply};
ghost use Rattle.block_objects.specs.Memory.{MemoryAt, IsSound, access_answer, after_access, after_grow, opening_memory, segment_fits, present_bytes};

use crate::bounds::ends_within;
use crate::limits::MemoryLimits;
use crate::loads::{access_value, load_value};
use crate::numbers::{read_number, write_number};
use crate::segments::write_segment;
use std::alloc::Global;
use std::marker::Model;
use wasm_types::{
    Access, Data, Load, MOST_PAGES, NoMemory, PAGE_SIZE, Reply, RmwOp, Trap, ValType, Value,
};

/// The bytes of a memory up to its capacity, made once, and its length in pages. Contracts see `MemoryAt`.
#[derive(Drop)]
pub struct Blocks {
    bytes: Vec<u8>,
    pages: u32,
    limits: MemoryLimits,
}

impl Model for Blocks {
    ghost use Rattle.std.specs.Prelude.{◌≡◌, ◌*◌, ◌≤◌, length};
    ghost use Rattle.wasm_types.specs.declared.sizes.TheConstants.{MOST_PAGES, PAGE_SIZE};
    ghost use Rattle.block_objects.specs.Memory.{MemoryAt};

    ghost Value = { MemoryAt };

    ghost view = { λ b. record { limits = b.limits; pages = b.pages; bytes = b.bytes.items } };

    ghost invariant = { λ b. record {
      all_bytes : length b.bytes.items ≡ b.limits.capacity * PAGE_SIZE;
      from_initial : b.limits.initial ≤ b.pages;
      to_capacity : b.pages ≤ b.limits.capacity;
      in_limit : b.limits.capacity ≤ MOST_PAGES;
    } };
}

impl Blocks {
    /// A memory as it opens: all bytes up to the capacity are made and zero, and then the segments are written, in
    /// order. Nothing later takes memory.
    pub fn new(alloc: Global, limits: MemoryLimits, segments: &[Data]) -> Result<Blocks, NoMemory>
        requires order { limits.initial ≤ limits.capacity }
        requires limit { limits.capacity ≤ MOST_PAGES }
        requires fit { All (segment_fits limits.initial) segments.now }
        ensures { IfOk result (λ blocks. blocks ≡ opening_memory limits segments.now) }
    {
        let size = limits.capacity as usize * PAGE_SIZE as usize;
        let mut bytes = vec![in alloc; 0u8; size]?;
        for segment in segments {
            write_segment(&mut bytes, segment);
        }
        Ok(Blocks {
            bytes,
            pages: limits.initial,
            limits,
        })
    }

    /// A memory of this length with these bytes.
    pub fn of(limits: MemoryLimits, pages: u32, bytes: Vec<u8>) -> Blocks
        requires all_bytes { length bytes.items ≡ limits.capacity * PAGE_SIZE }
        requires from_initial { limits.initial ≤ pages }
        requires to_capacity { pages ≤ limits.capacity }
        requires in_limit { limits.capacity ≤ 65536 }
        ensures { result ≡ record { limits = limits; pages = pages; bytes = bytes.items } }
    {
        Blocks {
            bytes,
            pages,
            limits,
        }
    }

    /// The same memory once more.
    pub fn copied(&self, alloc: Global) -> Result<Blocks, NoMemory>
        ensures { IfOk result (λ copy. copy ≡ self.now) }
    {
        let bytes = self.bytes.as_slice().to_vec(alloc)?;
        Ok(Blocks {
            bytes,
            pages: self.pages,
            limits: self.limits,
        })
    }

    /// All bytes, up to the capacity.
    pub fn bytes(&self) -> &[u8]
        ensures bytes { result.now ≡ self.now.bytes }
        ensures all { length self.now.bytes ≡ self.now.limits.capacity * PAGE_SIZE }
    {
        &self.bytes
    }

    /// The numbers that stay.
    pub fn limits(&self) -> MemoryLimits
        ensures limits { result ≡ self.now.limits }
        ensures sound { IsSound self.now }
    {
        let _from_6_to_12 = self.limits.block.power();
        self.limits
    }

    /// How many blocks there are, up to the capacity.
    pub fn count(&self) -> u32
        ensures count { result ≡ blocks_in self.now.limits.block self.now.limits.capacity }
        ensures few { result ≤ 2 ^ 26 }
    {
        let bytes = u64::from(self.limits.capacity) * PAGE_SIZE;
        (bytes >> self.limits.block.power()) as u32
    }

    /// The length in pages.
    pub fn pages(&self) -> u32
        ensures pages { result ≡ self.now.pages }
        ensures from_initial { self.now.limits.initial ≤ self.now.pages }
        ensures to_capacity { self.now.pages ≤ self.now.limits.capacity }
    {
        self.pages
    }

    /// Loads a number, or traps where the access ends past the length.
    pub fn load(&self, load: Load, address: u32) -> Reply
        ensures { result ≡ access_answer self.now address (load_width load) (λ n. replies.Value (loaded load n)) }
    {
        if !ends_within(self.pages, address, load.width().bytes()) {
            return Reply::Trap(Trap::OutOfBounds);
        }
        self.load_within(load, address)
    }

    /// Loads a number that ends within the length.
    #[inline(always)]
    pub fn load_within(&self, load: Load, address: u32) -> Reply
        requires { is_within self.now.pages address (byte_len (load_width load)) ≡ true }
        ensures { result ≡ access_answer self.now address (load_width load) (λ n. replies.Value (loaded load n)) }
    {
        Reply::Value(load_value(&self.bytes, load, address as usize))
    }

    /// Stores the low bits of an operand, or traps and changes nothing.
    pub fn store(&mut self, access: Access, address: u32, operand: u64) -> Reply
        ensures reply { result ≡ access_answer self.old address (access_width access) (λ n. replies.Stored) }
        ensures memory { self.new ≡ after_access self.old address (access_width access) (λ n. Some operand) }
    {
        let width = access.width();
        if !ends_within(self.pages, address, width.bytes()) {
            return Reply::Trap(Trap::OutOfBounds);
        }
        self.store_within(access, address, operand)
    }

    /// Stores the low bits of an operand where they end within the length.
    #[inline(always)]
    pub fn store_within(&mut self, access: Access, address: u32, operand: u64) -> Reply
        requires { is_within self.old.pages address (byte_len (access_width access)) ≡ true }
        ensures reply { result ≡ access_answer self.old address (access_width access) (λ n. replies.Stored) }
        ensures memory { self.new ≡ after_access self.old address (access_width access) (λ n. Some operand) }
    {
        let width = access.width();
        write_number(&mut self.bytes, width, address as usize, operand);
        Reply::Stored
    }

    /// Modifies a number by an operand and answers the old one extended by zeros, or traps and changes nothing.
    pub fn rmw(&mut self, op: RmwOp, access: Access, address: u32, operand: u64) -> Reply
        ensures reply { result ≡ access_answer self.old address (access_width access) (λ n. replies.Value (value_of (access_type access) n)) }
        ensures memory { self.new ≡ after_access self.old address (access_width access) (λ n. Some (modified op n operand)) }
    {
        let width = access.width();
        if !ends_within(self.pages, address, width.bytes()) {
            return Reply::Trap(Trap::OutOfBounds);
        }
        let old = read_number(&self.bytes, width, address as usize);
        let new = modify(op, old, operand);
        write_number(&mut self.bytes, width, address as usize, new);
        Reply::Value(access_value(access, old))
    }

    /// Stores the low bits of a replacement where the old number, extended by zeros, is the whole expected operand.
    /// Answers the old number extended by zeros, or traps and changes nothing.
    pub fn compare_exchange(
        &mut self,
        access: Access,
        address: u32,
        expected: u64,
        replacement: u64,
    ) -> Reply
        ensures reply { result ≡ access_answer self.old address (access_width access) (λ n. replies.Value (value_of (access_type access) n)) }
        ensures memory { self.new ≡ after_access self.old address (access_width access) (exchanged expected replacement) }
    {
        let width = access.width();
        if !ends_within(self.pages, address, width.bytes()) {
            return Reply::Trap(Trap::OutOfBounds);
        }
        let old = read_number(&self.bytes, width, address as usize);
        if old == expected {
            write_number(&mut self.bytes, width, address as usize, replacement);
        }
        Reply::Value(access_value(access, old))
    }

    /// The number of a type at an address, which ends within the length.
    pub fn number_at(&self, of: ValType, address: u32) -> u64
        requires { is_within self.now.pages address (byte_len (type_width of)) ≡ true }
        ensures { result ≡ number_at (type_width of) address self.now.bytes }
    {
        read_number(&self.bytes, of.width(), address as usize)
    }

    /// Grows by so many pages and answers the old length, or answers -1 and changes nothing where the new length would
    /// pass the capacity. It takes no memory.
    pub fn grow(&mut self, by: u32) -> Reply
        ensures reply { result ≡ grow_reply self.old.limits.capacity self.old.pages by }
        ensures memory { self.new ≡ after_grow self.old by }
    {
        let old = self.pages;
        if by > self.limits.capacity - old {
            return Reply::Value(Value::I32(u32::MAX));
        }
        self.pages = old + by;
        Reply::Value(Value::I32(old))
    }

    /// The bytes at the present length.
    pub fn image(&self, alloc: Global) -> Result<Vec<u8>, NoMemory>
        ensures { IfOk result (λ image. image.items ≡ present_bytes self.now) }
    {
        let end = self.pages as usize * PAGE_SIZE as usize;
        Ok(self.bytes[..end].to_vec(alloc)?)
    }
}

/// What a read-modify-write stores; only the low bits of the access count.
pub fn modify(op: RmwOp, old: u64, operand: u64) -> u64
    ensures { result ≡ modified op old operand }
{
    match op {
        RmwOp::Add => old.wrapping_add(operand),
        RmwOp::Subtract => old.wrapping_sub(operand),
        RmwOp::And => old & operand,
        RmwOp::Or => old | operand,
        RmwOp::Xor => old ^ operand,
        RmwOp::Exchange => operand,
    }
}
