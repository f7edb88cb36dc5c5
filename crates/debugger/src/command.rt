//! What lines ask a debugger for.

use crate::watching::WatchedNumber;
use crate::word::Word;
use wasm_types::ByteRange;

/// What the debugger can be asked for.
#[derive(Clone, Copy)]
pub enum Command {
    /// So many steps of a thread.
    Step { thread: u32, steps: u32 },
    /// Steps of a thread, up to behind so many events of it.
    Event { thread: u32, events: u32 },
    /// Steps of a thread, up to behind the return of the function that it is in.
    Finish { thread: u32 },
    /// Turns of all threads, up to a break.
    Continue,
    /// Turns of all threads, past so many breaks and up to the next.
    Again { passes: u32 },
    /// Back by so many steps.
    Back { steps: u32 },
    /// Back to the break before.
    Reverse,
    /// To where a thread has made so many events, from the beginning on.
    Goto { thread: u32, place: u32 },
    /// The same, to behind the event that wrote the block of this byte last.
    GotoWriter { address: u32 },
    /// A break behind the event of a thread that has then made so many.
    Place { thread: u32, place: u32 },
    /// A break behind a step after which a thread stands at this instruction of the function that is called so.
    Function { name: Word, instruction: u32 },
    /// A break behind the writes of a range of bytes.
    Write(ByteRange),
    /// A break behind a step that changes a number in memory.
    Watch(WatchedNumber),
    /// No more breaks.
    Delete,
    /// How threads stand.
    Threads,
    /// How a thread stands.
    Where { thread: u32 },
    /// The locals of the function that a thread runs, or of a caller of it by its number from 1.
    Locals { thread: u32, depth: u32 },
    /// Its operands.
    Stack { thread: u32, depth: u32 },
    /// Which events must come before a thread's next event.
    Waits { thread: u32 },
    /// What the log has of so many of a thread's last events, and of its next.
    Around { thread: u32, events: u32 },
    /// Which bytes an object is, its version, who wrote that, and who read it.
    Object { object: u32 },
    /// Which event wrote the block of this byte last.
    Writer { address: u32 },
    /// Which events read what was written there last.
    Readers { address: u32 },
    /// A range of bytes, and the versions of their blocks.
    Bytes(ByteRange),
    /// The way from the opening world to here.
    Way,
    /// A schedule by which a run comes here.
    Order,
    /// Which commands there are.
    Help,
    /// The end.
    Quit,
}

/// What a line is.
#[derive(Clone, Copy)]
pub enum Line {
    /// It has no bytes.
    Empty,
    /// It asks for this.
    Command(Command),
    /// It asks for nothing that there is.
    Unknown,
}
