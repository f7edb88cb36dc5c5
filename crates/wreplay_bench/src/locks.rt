//! Loads of a memory under locks by threads at once, beside locks that are taken and given back.

ghost use Rattle.std.specs.Prelude.{◌≡◌, ◌≤◌, IfSome, length};
ghost use Rattle.block_objects.specs.Bounds.{InBounds};
ghost use Rattle.wreplay_bench.specs.OnePage.{one_page};

use block_objects::{MemoryLimits, ObjectValue, operations_within_fit};
use shared_core::{Opened, Opening, Seat, Shared, Tried, Unkept};
use std::alloc::Global;
use std::marker::Brand;
use std::sync::{Mutex, RwLock, Wait};
use std::thread;
use std::thread::Threads;
use striped_memory::{SharedSpace, StripedMemory};
use wasm_types::{Action, Block, Extent, Load, NoMemory, Op, ValType};
use workers::{Work, run_threads};

/// One page in blocks of 64 bytes, which does not grow.
fn limits() -> MemoryLimits
    ensures { result ≡ one_page }
{
    MemoryLimits {
        initial: 1,
        capacity: 1,
        block: Block::least(),
    }
}

/// The load that a thread makes: of the first block, or of a block of its own.
fn load(apart: bool, thread: u32) -> Action
    ensures { InBounds 65536 result }
{
    let address = if apart { 64 * (thread % 16) } else { 0 };
    Action::Load {
        load: Load::Whole(ValType::I32),
        address,
    }
}

/// Makes the load of a thread. Answers whether it was made.
fn load_once<J: Opening<StripedMemory, ObjectValue, MemoryLimits>, R: Wait>(
    rt: &R,
    alloc: Global,
    shared: &Shared<StripedMemory, J>,
    seat: &mut Seat<StripedMemory, J>,
    apart: bool,
) -> bool
    requires { J.named.memory.fixed ≡ one_page }
    ensures { seat.new.thread ≡ seat.old.thread }
{
    operations_within_fit();
    let limits = limits();
    let extent = Extent {
        initial: limits.initial,
        block: limits.block,
    };
    let action = load(apart, seat.thread());
    let op = Op { extent, action };
    matches!(
        shared.access(rt, alloc, seat, op, &Unkept),
        Ok(Tried::Done(..))
    )
}

/// Each thread makes so many loads.
#[derive(Drop)]
struct Loads {
    apart: bool,
    count: u32,
}

impl Work<StripedMemory> for Loads {
    /// How many loads were made.
    type State = u32;

    ghost begins = { λ fixed _. fixed ≡ one_page };

    ghost leads = { λ _ _ _ _. Unit {0} };

    fn leave_out<J: Opening<StripedMemory, ObjectValue, MemoryLimits>>(
        &self,
        _seat: &Seat<StripedMemory, J>,
        state: u32,
    ) -> u32 {
        state
    }

    fn work<J: Opening<StripedMemory, ObjectValue, MemoryLimits>, R: Wait>(
        &self,
        rt: &R,
        alloc: Global,
        shared: &Shared<StripedMemory, J>,
        seat: &mut Seat<StripedMemory, J>,
        _state: u32,
    ) -> u32 {
        for made in 0..self.count {
            if !load_once(rt, alloc, shared, seat, self.apart) {
                return made;
            }
        }
        self.count
    }
}

/// How many were made by all.
fn added(made: &[u32]) -> u64 {
    let mut sum = 0u64;
    for count in made {
        sum = sum.wrapping_add(u64::from(*count));
    }
    sum
}

/// Runs so many threads, each with its loads, and answers how many they made.
fn run_loads<R: Threads + Wait + Sync>(
    rt: &R,
    alloc: Global,
    threads: u8,
    work: &Loads,
) -> Result<u64, NoMemory> {
    let space = SharedSpace::new(alloc, limits(), &[])?;
    let states = vec![in alloc; 0u32; usize::from(threads)]?;
    let opened = Opened::new(StripedMemory { space }, threads);
    let (_, made) = run_threads::<StripedMemory, Brand, u32, Loads, R>(
        rt, alloc, opened, states, work,
    )?;
    Ok(added(&made))
}

/// Takes a lock and gives it back so many times.
fn take_often<R: Wait>(rt: &R, lock: &Mutex<u64>, count: u32) {
    for _ in 0..count {
        let mut guard = lock.lock(rt);
        *guard = guard.wrapping_add(1);
    }
}

/// Has each of so many threads take one lock and give it back so many times, and answers how often they did.
fn run_locks<R: Threads + Wait + Sync>(
    rt: &R,
    alloc: Global,
    threads: u8,
    count: u32,
) -> Result<u64, NoMemory> {
    let lock = Mutex::new(0u64);
    let counts = vec![in alloc; count; usize::from(threads)]?;
    thread::map_vec(
        rt,
        counts,
        &|count: u32| -> () { take_often(rt, &lock, count) },
    )?;
    Ok(lock.into_inner())
}

/// Takes a lock for reading and gives it back so many times, and adds up what it reads.
fn read_often<R: Wait>(rt: &R, lock: &RwLock<u32>, count: u32) -> u32 {
    let mut sum = 0u32;
    for _ in 0..count {
        sum = sum.wrapping_add(*lock.read(rt));
    }
    sum
}

/// Has each of so many threads take one lock for reading and give it back so many times, and answers how often they
/// did.
fn run_readers<R: Threads + Wait + Sync>(
    rt: &R,
    alloc: Global,
    threads: u8,
    count: u32,
) -> Result<u64, NoMemory> {
    let lock = RwLock::new(1u32);
    let counts = vec![in alloc; count; usize::from(threads)]?;
    let made = thread::map_vec(
        rt,
        counts,
        &|count: u32| -> u32 { read_often(rt, &lock, count) },
    )?;
    Ok(added(&made))
}

/// Makes what the words ask for: the mode, how many threads, from 1 to 4, and how many loads each makes, or how often
/// it takes a lock. It answers how many were made, and nothing where the words ask for none.
pub(crate) fn locks_asked<R: Threads + Wait + Sync>(
    rt: &R,
    alloc: Global,
    [mode, threads, count]: [&str; 3],
) -> Result<Option<u64>, NoMemory> {
    let (Ok(threads), Ok(count)) = (threads.parse::<u8>(), count.parse::<u32>()) else {
        return Ok(None);
    };
    if threads == 0 || threads > 4 {
        return Ok(None);
    }
    match mode {
        "mutex" => Ok(Some(run_locks(rt, alloc, threads, count)?)),
        "readers" => Ok(Some(run_readers(rt, alloc, threads, count)?)),
        "apart" => {
            let apart = true;
            Ok(Some(run_loads(rt, alloc, threads, &Loads { apart, count })?))
        }
        "same" => {
            let apart = false;
            Ok(Some(run_loads(rt, alloc, threads, &Loads { apart, count })?))
        }
        _ => Ok(None),
    }
}
