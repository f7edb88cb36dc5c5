//! A shared memory with its waiter queues.

ghost use Rattle.std.specs.Prelude.{◌≡◌, ◌+◌, ◌*◌, ◌%◌, ◌<◌, ◌≤◌, ◌==◌, ◌&&◌, cond, true, [], ◌∷◌, length, slice_set, IfOk, IfSome, Some};
ghost use Rattle.std.specs.List.{All};
ghost use Rattle.std.specs.Int.{byte_len};
ghost use Rattle.block_objects.specs.Objects.{block_of, blocks_in};
ghost use Rattle.rw_objects.specs.declared.touch.Mode.TheVariants.{Read, Write};
ghost use Rattle.rw_objects.specs.declared.entry.Kind.TheVariants as kinds;
ghost use Rattle.rw_objects.specs.Space.{Fits, RisesFrom, AllBelow, is_ready, reply_of, values_after};
ghost use Rattle.rw_objects.specs.Counts.{count_at, counts_after, CanCountAll, all_found};
ghost use Rattle.wasm_types.specs.declared.operation.Reply.TheVariants as replies;
ghost use Rattle.block_objects.specs.Touches.{touch_of, access_touches, op_touches, op_kind};
ghost use Rattle.wasm_types.specs.Accesses.{access_width, load_width, type_width};
ghost use Rattle.wasm_types.specs.Widths.{width_of};
ghost use Rattle.block_objects.specs.Access.{is_within, number_at, loaded};
ghost use Rattle.block_objects.specs.Queues.{after_wait, after_notify, after_resume, after_time_out};
ghost use Rattle.block_objects.specs.Effects.{i32_reply, wait_reply, notify_reply};
ghost use Rattle.block_objects.specs.Memory.{IsSound, access_answer, after_access, segment_fits};
ghost use Rattle.block_objects.specs.SharedMemory.{image_of, shared_memory};
ghost use Rattle.block_objects.proofs.Laws.{memory_laws};
ghost use Rattle.waiter_queues.specs.Shared.{queue_at, shared_values, opening_values};
ghost use Rattle.waiter_queues.specs.Acts.{CanAct, Acts};

use crate::queues::Queues;
use block_objects::{Blocks, MemoryLimits, ObjectValue, block_number, ends_within, lone_block};
use rw_objects::{CopiedSpace, Entry, Kind, Mode, ObjectSpace, Touch, Touches, Versions};
use std::alloc::Global;
use wasm_types::{
    Access, Action, Block, Data, Extent, Load, MOST_PAGES, NoMemory, Op, PAGE_SIZE, Reply, Trap,
    ValType, Value, Width,
};

/// A shared memory as a space of objects: object 0 is its length in pages, object `1 + 2b` is block `b`, and object
/// `2 + 2b` is the waiter queue of block `b`. All objects up to the capacity exist from the start. The image is the
/// bytes at the present length.
#[derive(Drop)]
pub struct SharedSpace {
    blocks: Blocks,
    queues: Queues,
    ghost sized: { length queues ≡ blocks_in blocks.limits.block blocks.limits.capacity },
}

impl SharedSpace {
    /// A memory as it opens: all bytes up to the capacity are zero, then the segments are written, in order, and nobody
    /// waits. Nothing later takes memory.
    pub fn new(
        alloc: Global,
        limits: MemoryLimits,
        segments: &[Data],
    ) -> Result<SharedSpace, NoMemory>
        requires order { limits.initial ≤ limits.capacity }
        requires limit { limits.capacity ≤ MOST_PAGES }
        requires fit { All (segment_fits limits.initial) segments.now }
        ensures fixed { IfOk result (λ space. space.blocks.limits ≡ limits) }
        ensures values { IfOk result (λ space. shared_values space.blocks space.queues ≡ opening_values limits segments.now) }
    {
        let blocks = Blocks::new(alloc, limits, segments)?;
        let queues = Queues::new(alloc, blocks.count())?;
        Ok(SharedSpace { blocks, queues })
    }

    /// A memory of these blocks and queues.
    pub fn of(blocks: Blocks, queues: Queues) -> SharedSpace
        requires { length queues ≡ blocks_in blocks.limits.block blocks.limits.capacity }
        ensures blocks { result.blocks ≡ blocks }
        ensures queues { result.queues ≡ queues }
    {
        SharedSpace { blocks, queues }
    }

    /// The same memory once more.
    fn copy(&self, alloc: Global) -> Result<SharedSpace, NoMemory>
        ensures blocks { IfOk result (λ copy. copy.blocks ≡ self.now.blocks) }
        ensures queues { IfOk result (λ copy. copy.queues ≡ self.now.queues) }
    {
        let blocks = self.blocks.copied(alloc)?;
        let queues = self.queues.copied(alloc)?;
        Ok(SharedSpace { blocks, queues })
    }

    /// Its blocks and its queues.
    pub fn into_parts(self) -> (Blocks, Queues)
        ensures blocks { result.0 ≡ self.blocks }
        ensures queues { result.1 ≡ self.queues }
        ensures sized { length self.queues ≡ blocks_in self.blocks.limits.block self.blocks.limits.capacity }
    {
        let SharedSpace { blocks, queues } = self;
        (blocks, queues)
    }

    /// The numbers that stay.
    pub fn limits(&self) -> MemoryLimits
        ensures { result ≡ self.now.blocks.limits }
    {
        self.blocks.limits()
    }

    /// The length in pages.
    pub fn pages(&self) -> u32
        ensures { result ≡ self.now.blocks.pages }
    {
        self.blocks.pages()
    }

    /// The bytes at the present length. It takes no memory.
    pub fn bytes(&self) -> &[u8]
        ensures { result.now ≡ image_of self.now.blocks.limits (shared_values self.now.blocks self.now.queues) }
    {
        // A fact for the prover: the blocks are sound.
        let _sound = self.blocks.limits();
        let end = self.blocks.pages() as usize * PAGE_SIZE as usize;
        &self.blocks.bytes()[..end]
    }

    /// A load that touches one object, of a block: counts it, and makes the load and its entry.
    #[inline(always)]
    fn load_alone(
        &self,
        versions: &mut Versions,
        object: u32,
        load: Load,
        address: u32,
    ) -> (Reply, Entry)
        requires within { is_within self.now.blocks.pages address (byte_len (load_width load)) ≡ true }
        requires below { AllBelow (length versions.old) (touch_of Read object ∷ []) }
        requires room { CanCountAll (touch_of Read object ∷ []) versions.old }
        ensures reply { result.0 ≡ access_answer self.now.blocks address (load_width load) (λ n. replies.Value (loaded load n)) }
        ensures entry { result.1 ≡ record { kind = kinds.Access; found = all_found (touch_of Read object ∷ []) (count_at versions.old) } }
        ensures counts { count_at versions.new ≡ counts_after (touch_of Read object ∷ []) (count_at versions.old) }
        ensures len { length versions.new ≡ length versions.old }
    {
        let mode = Mode::Read;
        let found = versions.touch_one(Touch { object, mode });
        let kind = Kind::Access;
        (
            self.blocks.load_within(load, address),
            Entry { kind, found },
        )
    }

    /// A store that touches one object, of a block: counts it, and makes the store and its entry.
    #[inline(always)]
    fn store_alone(
        &mut self,
        versions: &mut Versions,
        object: u32,
        access: Access,
        address: u32,
        operand: u64,
    ) -> (Reply, Entry)
        requires within { is_within self.old.blocks.pages address (byte_len (access_width access)) ≡ true }
        requires below { AllBelow (length versions.old) (touch_of Write object ∷ []) }
        requires room { CanCountAll (touch_of Write object ∷ []) versions.old }
        ensures reply { result.0 ≡ access_answer self.old.blocks address (access_width access) (λ n. replies.Stored) }
        ensures entry { result.1 ≡ record { kind = kinds.Access; found = all_found (touch_of Write object ∷ []) (count_at versions.old) } }
        ensures blocks { self.new.blocks ≡ after_access self.old.blocks address (access_width access) (λ n. Some operand) }
        ensures queues { self.new.queues ≡ self.old.queues }
        ensures counts { count_at versions.new ≡ counts_after (touch_of Write object ∷ []) (count_at versions.old) }
        ensures len { length versions.new ≡ length versions.old }
    {
        let mode = Mode::Write;
        let found = versions.touch_one(Touch { object, mode });
        let reply = self.blocks.store_within(access, address, operand);
        let kind = Kind::Access;
        (reply, Entry { kind, found })
    }

    /// Compares the number at an address with the expected one, and queues the thread where they are equal.
    fn wait(
        &mut self,
        block: Block,
        width: ValType,
        thread: u32,
        address: u32,
        expected: u64,
    ) -> Reply
        requires { block_of block address < length self.old.queues }
        ensures reply { result ≡ wait_reply (address % byte_len (type_width width) == 0) (is_within self.old.blocks.pages address (byte_len (type_width width)))
            (number_at (type_width width) address self.old.blocks.bytes == expected) }
        ensures blocks { self.new.blocks ≡ self.old.blocks }
        ensures queues { self.new.queues ≡ cond (address % byte_len (type_width width) == 0 && is_within self.old.blocks.pages address (byte_len (type_width width))
            && number_at (type_width width) address self.old.blocks.bytes == expected)
            (slice_set self.old.queues (block_of block address) (after_wait thread address (queue_at self.old.queues (block_of block address)))) self.old.queues }
    {
        let len = width.width().bytes();
        if address % len != 0 {
            return Reply::Trap(Trap::UnalignedAtomic);
        }
        if !ends_within(self.blocks.pages(), address, len) {
            return Reply::Trap(Trap::OutOfBounds);
        }
        if self.blocks.number_at(width, address) != expected {
            return Reply::Value(Value::I32(1));
        }
        let at = block_number(block, address) as usize;
        self.queues.wait(at, thread, address);
        Reply::Sleeps
    }

    /// Wakes the first waiters at an address, at most `count` of them.
    fn notify(&mut self, block: Block, address: u32, count: u32) -> Reply
        requires { block_of block address < length self.old.queues }
        ensures reply { result ≡ notify_reply (is_within self.old.blocks.pages address 4) address count (queue_at self.old.queues (block_of block address)) }
        ensures blocks { self.new.blocks ≡ self.old.blocks }
        ensures queues { self.new.queues ≡ cond (is_within self.old.blocks.pages address 4)
            (slice_set self.old.queues (block_of block address) (after_notify address count (queue_at self.old.queues (block_of block address)))) self.old.queues }
    {
        if !ends_within(self.blocks.pages(), address, 4) {
            return Reply::Trap(Trap::OutOfBounds);
        }
        let at = block_number(block, address) as usize;
        Reply::Value(Value::I32(self.queues.notify(at, address, count)))
    }

    /// Any operation: finds its touches and counts them, and makes it and its entry. It stays a function of its own, so
    /// that the short ways can be compiled into the caller.
    #[inline(never)]
    fn act_by_touches(&mut self, versions: &mut Versions, op: &Op) -> (Reply, Entry)
        requires { CanAct self.old.blocks self.old.queues versions.old op.now }
        ensures reply { result.0 ≡ reply_of shared_memory self.old.blocks.limits (shared_values self.old.blocks self.old.queues) op.now }
        ensures entry { result.1 ≡ record { kind = op_kind op.now; found = all_found (op_touches op.now) (count_at versions.old) } }
        ensures after { Acts self.old.blocks self.old.queues versions.old op.now self.new.blocks self.new.queues versions.new }
    {
        let kind = block_objects::kind(op);
        let touches = block_objects::touches(versions.allocator(), op);
        let found = versions.touch_all(&touches);
        let reply = self.apply(op);
        (reply, Entry { kind, found })
    }

    /// The same, for an operation that goes no short way: the copy of the operation and the place for the answer, which
    /// `act_by_touches` reaches by their addresses, are made here, so the short ways do not pay for them.
    #[inline(always)]
    fn act_the_long_way(&mut self, versions: &mut Versions, op: &Op) -> (Reply, Entry)
        requires { CanAct self.old.blocks self.old.queues versions.old op.now }
        ensures reply { result.0 ≡ reply_of shared_memory self.old.blocks.limits (shared_values self.old.blocks self.old.queues) op.now }
        ensures entry { result.1 ≡ record { kind = op_kind op.now; found = all_found (op_touches op.now) (count_at versions.old) } }
        ensures after { Acts self.old.blocks self.old.queues versions.old op.now self.new.blocks self.new.queues versions.new }
    {
        let other = *op;
        let (reply, entry) = self.act_by_touches(versions, &other);
        (reply, entry)
    }

    /// A woken thread goes on: its wait answers 0.
    fn resume(&mut self, block: Block, thread: u32, address: u32) -> Reply
        requires { block_of block address < length self.old.queues }
        ensures reply { result ≡ i32_reply 0 }
        ensures blocks { self.new.blocks ≡ self.old.blocks }
        ensures queues { self.new.queues ≡ slice_set self.old.queues (block_of block address) (after_resume thread (queue_at self.old.queues (block_of block address))) }
    {
        let at = block_number(block, address) as usize;
        self.queues.resume(at, thread);
        Reply::Value(Value::I32(0))
    }

    /// A waiter that was not woken goes on: its wait answers 2.
    fn time_out(&mut self, block: Block, thread: u32, address: u32) -> Reply
        requires { block_of block address < length self.old.queues }
        ensures reply { result ≡ i32_reply 2 }
        ensures blocks { self.new.blocks ≡ self.old.blocks }
        ensures queues { self.new.queues ≡ slice_set self.old.queues (block_of block address) (after_time_out thread address (queue_at self.old.queues (block_of block address))) }
    {
        let at = block_number(block, address) as usize;
        self.queues.time_out(at, thread, address);
        Reply::Value(Value::I32(2))
    }
}

/// The touch of an access that lies in one block and within the initial length: it touches nothing else.
#[inline(always)]
fn lone_access(extent: &Extent, mode: Mode, address: u32, width: Width) -> Option<Touch>
    ensures { IfSome result (λ touch. access_touches extent.now mode address (byte_len (width_of width)) ≡ touch ∷ []) }
{
    match lone_block(extent, address, width.bytes()) {
        Some(object) => Some(Touch { object, mode }),
        None => None,
    }
}

/// The same of an operation, where it is a load or a store.
#[inline(always)]
fn lone_touch(op: &Op) -> Option<Touch>
    ensures touches { IfSome result (λ touch. op_touches op.now ≡ touch ∷ []) }
    ensures kind { IfSome result (λ touch. op_kind op.now ≡ kinds.Access) }
{
    match op.action {
        Action::Load { load, address } => {
            lone_access(&op.extent, Mode::Read, address, load.width())
        }
        Action::Store {
            access,
            address,
            ..
        } => lone_access(&op.extent, Mode::Write, address, access.width()),
        _ => None,
    }
}

impl CopiedSpace for SharedSpace {
    fn copied(&self, alloc: Global) -> Result<SharedSpace, NoMemory> {
        self.copy(alloc)
    }
}

impl ObjectSpace for SharedSpace {
    type Op = Op;

    type Reply = Reply;

    type Value = ObjectValue;

    type Fixed = MemoryLimits;

    ghost meaning = { shared_memory };

    ghost fixed = { λ s. s.blocks.limits };

    ghost values = { λ s. shared_values s.blocks s.queues };

    fn objects(&self) -> u32 {
        1 + 2 * self.blocks.count()
    }

    fn touches(alloc: Global, op: &Op) -> Touches {
        block_objects::touches(alloc, op)
    }

    fn kind(op: &Op) -> Kind {
        block_objects::kind(op)
    }

    fn ready(&self, op: &Op) -> bool {
        match op.action {
            Action::Resume { thread, address } => {
                let block = block_number(op.extent.block, address);
                self.queues.at(block as usize).is_woken(thread)
            }
            Action::TimeOut { thread, address } => {
                let block = block_number(op.extent.block, address);
                self.queues.at(block as usize).waits_at(thread, address)
            }
            _ => true,
        }
    }

    fn apply(&mut self, op: &Op) -> Reply {
        let limits = self.blocks.limits();
        match op.action {
            Action::Load { load, address } => self.blocks.load(load, address),
            Action::Store {
                access,
                address,
                operand,
            } => self.blocks.store(access, address, operand),
            Action::Rmw {
                op,
                access,
                address,
                operand,
            } => self.blocks.rmw(op, access, address, operand),
            Action::CompareExchange {
                access,
                address,
                expected,
                replacement,
            } => self
                .blocks
                .compare_exchange(access, address, expected, replacement),
            Action::Size => Reply::Value(Value::I32(self.blocks.pages())),
            Action::Grow { pages } => self.blocks.grow(pages),
            Action::Wait {
                width,
                thread,
                address,
                expected,
            } => self.wait(limits.block, width, thread, address, expected),
            Action::Notify { address, count } => self.notify(limits.block, address, count),
            Action::Resume { thread, address } => self.resume(limits.block, thread, address),
            Action::TimeOut { thread, address } => self.time_out(limits.block, thread, address),
        }
    }

    /// Of a load or a store that lies in one block and within the initial length no list of touches is made.
    #[inline(always)]
    fn logs(versions: &Versions, op: &Op, entry: &Entry) -> bool {
        if let Some(touch) = lone_touch(op) {
            return entry.kind == Kind::Access && versions.finds(&[touch], entry.found.as_slice());
        }
        let touches = block_objects::touches(versions.allocator(), op);
        block_objects::kind(op) == entry.kind
            && versions.finds(touches.as_slice(), entry.found.as_slice())
    }

    /// A load or a store that lies in one block and within the initial length goes a short way: a test of its bounds,
    /// one count, and the load or the store.
    #[inline(always)]
    fn act(&mut self, versions: &mut Versions, op: &Op) -> (Reply, Entry) {
        let _from_initial = self.blocks.limits();
        match op.action {
            Action::Load { load, address } => {
                if let Some(object) = lone_block(&op.extent, address, load.width().bytes()) {
                    return self.load_alone(versions, object, load, address);
                }
            }
            Action::Store {
                access,
                address,
                operand,
            } => {
                if let Some(object) = lone_block(&op.extent, address, access.width().bytes()) {
                    return self.store_alone(versions, object, access, address, operand);
                }
            }
            _ => {}
        }
        self.act_the_long_way(versions, op)
    }

    fn image(&self, alloc: Global) -> Result<Vec<u8>, NoMemory> {
        // A fact for the prover: the blocks are sound.
        let _sound = self.blocks.limits();
        self.blocks.image(alloc)
    }

    ghost laws = { memory_laws };
}
