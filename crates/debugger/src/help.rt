//! Which commands there are.

use std::alloc::Global;
use wasm_types::NoMemory;

/// What `help` answers.
const HELP: &str = "\
step T [N]      go on with thread T alone, by N steps (1)
event T [N]     go on with thread T alone, up to behind its Nth event (1) from here
finish T        go on with thread T alone, until the function that it is in returns
continue        go on with all threads, up to a break
again N         go on with all threads, past N breaks and up to the next
back [N]        go back by N steps (1), of whichever threads made them
reverse         go back to the break before, or to the beginning
goto T P        go to where thread T has made P events, from the beginning on
writer! FROM    go to behind the event that wrote the block of this byte last
break F [N]     break where a thread comes to instruction N (0) of function F
place T P       break behind the event of thread T after which it has made P
write FROM LEN  break behind a write of a block that holds one of these bytes
watch FROM LEN  break where the number in these 1, 2, 4 or 8 bytes changes;
      [N]       with N, where it comes to be N or is N no more
delete          forget all breaks
threads         how each thread stands, and where
where T         how thread T stands, and where
locals T [N]    the locals of the function that thread T runs, or of its Nth caller
stack T [N]     its operands, the topmost first
waits T         which events must come before the next event of thread T
bytes FROM LEN  these bytes, and the versions of their blocks
around T [N]    the last N events of thread T (5), and its next, as listed
object O        which bytes object O is, its version, who wrote and read that
writer FROM     which event wrote the block of this byte last, as T.P
readers FROM    which events have read what was written there last
way             the steps made so far, from the beginning on
order           a schedule by which a run comes here, as `record --schedule` takes it
help            these commands
quit            end
";

/// The commands, a line for each.
pub(crate) fn help_text(alloc: Global) -> Result<String, NoMemory> {
    let mut text = String::new(alloc);
    text.push_str(HELP)?;
    Ok(text)
}
