//! Sizes and counts that several crates name.

ghost use Rattle.std.specs.Prelude.{◌≡◌, ◌+◌};
ghost use Rattle.wasm_types.specs.declared.sizes.TheConstants.{PAGE_SIZE, MOST_PAGES, MOST_STEPS, MOST_THREADS, LAST_THREAD};
ghost use Rattle.wasm_types.specs.Sizes.{bytes_of_a_page, pages_of_a_memory, steps_of_a_thread, threads_of_a_run};

/// The bytes of a page (WebAssembly Core 1.0, memory instances).
pub const PAGE_SIZE: u64 = 65_536;

/// The most pages that a memory may declare (WebAssembly Core 1.0, validation, memory types).
pub const MOST_PAGES: u32 = 65_536;

/// The most steps that a thread may make.
pub const MOST_STEPS: u32 = 1_000_000_000;

/// The most threads that a run may have.
pub const MOST_THREADS: usize = 16;

/// The last number that a thread may have.
pub const LAST_THREAD: u32 = MOST_THREADS as u32 - 1;

/// The constants are the numbers that stand in `specs/Sizes`: a law.
pub fn sizes_are_so()
    ensures page { PAGE_SIZE ≡ bytes_of_a_page }
    ensures pages { MOST_PAGES ≡ pages_of_a_memory }
    ensures steps { MOST_STEPS ≡ steps_of_a_thread }
    ensures threads { MOST_THREADS ≡ threads_of_a_run }
    ensures last { LAST_THREAD + 1 ≡ threads_of_a_run }
{}
