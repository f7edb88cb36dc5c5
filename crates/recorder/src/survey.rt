//! What is found of many numbers, by threads at once.

ghost use Rattle.std.specs.Prelude.{◌≡◌, ◌+◌, ◌-◌, ◌*◌, ◌^◌, ◌<◌, ◌≤◌, ℕ, min, true, IfOk, OnOk, vec_len, slice_index_or};

use std::alloc::Global;
use std::thread::{Threads, map_indices};
use wasm_types::NoMemory;

/// The most numbers of a part: threads wait for one another behind so many.
const MOST_OF_PART: u64 = 64;

/// What is found of numbers that follow one another, number by number or part by part.
pub trait Survey {
    /// What is found.
    type Found: Send + Drop;

    /// What has to be so of the survey.
    ghost begins: { Self → Type 0 };

    /// This is what is found of so many numbers, from one on.
    ghost finds: { Self → ℕ → ℕ → Self.Found → Type 0 };

    /// What is found of no number.
    fn nothing(&self, alloc: Global) -> Self::Found
        ensures { (from : ℕ) → finds self.now from 0 result };

    /// Adds what is found of the next number.
    fn add(&self, found: &mut Self::Found, number: u64) -> Result<(), NoMemory>
        requires { begins self.now }
        ensures { OnOk result ((from count : ℕ) → number ≡ from + count → finds self.now from count found.old → finds self.now from (count + 1) found.new) };

    /// Adds what is found of the numbers behind.
    fn join(&self, found: &mut Self::Found, behind: Self::Found) -> Result<(), NoMemory>
        ensures { OnOk result ((from count more : ℕ) → finds self.now from count found.old → finds self.now (from + count) more behind → finds self.now from (count + more) found.new) };

    /// Whether no number behind adds anything.
    fn is_over(&self, found: &Self::Found) -> bool
        ensures { result ≡ true → (from count more : ℕ) → finds self.now from count found.now → finds self.now from (count + more) found.now };
}

/// What is found of so many numbers, one after the other.
fn survey_part<V: Survey>(
    alloc: Global,
    survey: &V,
    from: u64,
    count: u64,
) -> Result<V::Found, NoMemory>
    requires begins { V.begins survey.now }
    requires fits { from + count < 2 ^ 64 }
    ensures { IfOk result (V.finds survey.now from count) }
{
    let mut found = survey.nothing(alloc);
    for done in 0..count {
        if survey.is_over(&found) {
            return Ok(found);
        }
        survey.add(&mut found, from + done)?;
    }
    Ok(found)
}

/// How many of so many numbers stand before a part, of `size` numbers each.
fn before_part(size: u64, count: u64, part: u64) -> u64
    ensures { result ≡ min (part * size) count }
{
    part.saturating_mul(size).min(count)
}

/// What is found of a part of the numbers.
fn survey_part_of<V: Survey>(
    alloc: Global,
    survey: &V,
    from: u64,
    count: u64,
    size: u64,
    part: u64,
) -> Result<V::Found, NoMemory>
    requires begins { V.begins survey.now }
    requires fits { from + count < 2 ^ 64 }
    requires part { part + 1 < 2 ^ 64 }
    ensures { IfOk result (V.finds survey.now (from + min (part * size) count) (min ((part + 1) * size) count - min (part * size) count)) }
{
    let before = before_part(size, count, part);
    let behind = before_part(size, count, part + 1);
    survey_part(alloc, survey, from + before, behind.saturating_sub(before))
}

/// Joins what is found of parts, the last of which stands first.
fn join_parts<V: Survey>(
    alloc: Global,
    survey: &V,
    mut parts: Vec<Result<V::Found, NoMemory>>,
    from: u64,
    count: u64,
    size: u64,
) -> Result<V::Found, NoMemory>
    requires { (i : ℕ) (d : _) → i < vec_len parts → IfOk (slice_index_or parts.items i d) (V.finds survey.now (from + min ((vec_len parts - 1 - i) * size) count) (min ((vec_len parts - i) * size) count - min ((vec_len parts - 1 - i) * size) count)) }
    ensures { IfOk result (V.finds survey.now from (min (vec_len parts * size) count)) }
{
    let mut found = survey.nothing(alloc);
    while let Some(part) = parts.pop() {
        if survey.is_over(&found) {
            return Ok(found);
        }
        survey.join(&mut found, part?)?;
    }
    Ok(found)
}

/// What is found of the first numbers of a range, at most `size` for each of some jobs, which run at once.
fn survey_batch<V: Survey + Sync, R: Threads + Sync>(
    rt: &R,
    alloc: Global,
    survey: &V,
    from: u64,
    count: u64,
    size: u64,
    jobs: usize,
) -> Result<V::Found, NoMemory>
    requires begins { V.begins survey.now }
    requires fits { from + count < 2 ^ 64 }
    ensures { IfOk result (V.finds survey.now from (min (jobs * size) count)) }
{
    let one = move |index: usize| -> Result<V::Found, NoMemory>
        requires { (index < jobs) × (from + count < 2 ^ 64) × V.begins survey.now }
        ensures { IfOk result (V.finds survey.entry.now (from + min ((jobs - 1 - index) * size) count) (min ((jobs - index) * size) count - min ((jobs - 1 - index) * size) count)) }
    { survey_part_of(alloc, survey, from, count, size, (jobs - 1 - index) as u64) };
    let parts = map_indices(rt, alloc, jobs, &one)?;
    join_parts(alloc, survey, parts, from, count, size)
}

/// What is found of so many numbers from one on, by so many jobs at once: the same as by one.
pub fn survey_numbers<V: Survey + Sync, R: Threads + Sync>(
    rt: &R,
    alloc: Global,
    survey: &V,
    from: u64,
    count: u64,
    jobs: usize,
) -> Result<V::Found, NoMemory>
    requires begins { V.begins survey.now }
    requires fits { from + count < 2 ^ 64 }
    requires jobs { 0 < jobs }
    ensures { IfOk result (V.finds survey.now from count) }
{
    let mut found = survey.nothing(alloc);
    let mut done = 0;
    let mut size = 1;
    while done < count {
        if survey.is_over(&found) {
            return Ok(found);
        }
        let left = count - done;
        let more = survey_batch(rt, alloc, survey, from + done, left, size, jobs)?;
        survey.join(&mut found, more)?;
        done += before_part(size, left, jobs as u64);
        size = (2 * size).min(MOST_OF_PART);
    }
    Ok(found)
}
