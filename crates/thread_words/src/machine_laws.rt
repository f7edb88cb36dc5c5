//! Laws of threads as machines.

ghost use Rattle.rw_objects.specs.Code.{CodeLaws};
ghost use Rattle.block_objects.specs.SharedMemory.{shared_memory};
ghost use Rattle.thread_words.specs.ThreadCode.{thread_code};

/// A thread is a machine over the shared memory: it asks for accesses that fit the memory it was made for, goes on by
/// what belongs to its wait, and each step counts one.
pub fn threads_are_machines()
    ensures { CodeLaws shared_memory thread_code }
{}
