//! Locks for which a thread looks for a while before it sleeps. What is done under the locks of a shared space takes
//! less time than to sleep and to be woken, and the standard library's own locks look for some tens of nanoseconds
//! only.

use std::hint;
use std::sync::{Mutex, MutexGuard, RwLock, RwLockReadGuard, RwLockWriteGuard, Wait};

/// How often a thread tries a lock that was not free before it sleeps: for some fifty microseconds.
const MOST_TRIES: u32 = 24;

/// The longest pause between two tries, in the processor's pauses: for some microseconds.
const LONGEST_PAUSE: u32 = 64;

/// Tries a lock that was not free again. Between tries the thread pauses, twice as long each time, so that threads that
/// wait leave the lock and what lies under it to the processor that has them.
fn try_again<G, F: Fn() -> Option<G>>(attempt: F) -> Option<G>
    requires { F.IsAlwaysCallable attempt }
{
    let mut pause = 1u32;
    for _ in 0..MOST_TRIES {
        for _ in 0..pause {
            hint::spin_loop();
        }
        if let Some(guard) = attempt() {
            return Some(guard);
        }
        pause = pause.saturating_mul(2).min(LONGEST_PAUSE);
    }
    None
}

/// Takes a lock.
#[inline(always)]
pub(crate) fn lock<'a, T, R: Wait>(rt: &R, lock: &'a Mutex<T>) -> MutexGuard<'a, T> {
    match lock.try_lock() {
        Some(guard) => guard,
        None => lock_later(rt, lock),
    }
}

/// Takes a lock that was not free.
#[inline(never)]
fn lock_later<'a, T, R: Wait>(rt: &R, lock: &'a Mutex<T>) -> MutexGuard<'a, T> {
    match try_again(|| lock.try_lock()) {
        Some(guard) => guard,
        None => lock.lock(rt),
    }
}

/// Takes a lock for reading.
#[inline(always)]
pub(crate) fn read<'a, T, R: Wait>(rt: &R, lock: &'a RwLock<T>) -> RwLockReadGuard<'a, T> {
    match lock.try_read() {
        Some(guard) => guard,
        None => read_later(rt, lock),
    }
}

/// Takes a lock for reading that was not free.
#[inline(never)]
fn read_later<'a, T, R: Wait>(rt: &R, lock: &'a RwLock<T>) -> RwLockReadGuard<'a, T> {
    match try_again(|| lock.try_read()) {
        Some(guard) => guard,
        None => lock.read(rt),
    }
}

/// Takes a lock for writing.
#[inline(always)]
pub(crate) fn write<'a, T, R: Wait>(rt: &R, lock: &'a RwLock<T>) -> RwLockWriteGuard<'a, T> {
    match lock.try_write() {
        Some(guard) => guard,
        None => write_later(rt, lock),
    }
}

/// Takes a lock for writing that was not free.
#[inline(never)]
fn write_later<'a, T, R: Wait>(rt: &R, lock: &'a RwLock<T>) -> RwLockWriteGuard<'a, T> {
    match try_again(|| lock.try_write()) {
        Some(guard) => guard,
        None => lock.write(rt),
    }
}
