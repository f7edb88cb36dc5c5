//! What a world shows: the report of its end, its bytes, versions and threads, and the view of a replay.
//!
//! `report`, `view`, `thread_view`, `note_of`, `versions` and `bytes`: each by its definition; `fault`: the range
//! passes the memory, or memory is wanting. `view_log`: the view of the world at which the replay stops; on a log below a run's it
//! has recorded values alone (`shown`). `trace_log`: a line for each event on the way, told by worlds that have recorded
//! values alone, and that view (`traced`).
#![tactic(auto)]

mod blocks;
mod breaks;
mod ending;
mod fault;
mod hexadecimal;
mod memory_space;
mod notes;
mod numbers;
mod places;
mod replays;
mod report_text;
mod row;
mod text;
mod threads;
mod trace_choice;
mod trace_lines;
mod trace_seen;
mod trace_watch;
mod tracing;
mod values;
mod viewing;

pub use binary_decoder::{FunctionNames, fits_line};
pub use blocks::{BlockRange, blocks_of_range};
pub use breaks::write_break;
pub use ending::notes_of_end;
pub use event_core::Ended;
pub use fault::ViewFault;
pub use memory_space::MemorySpace;
pub use notes::{Notes, note_of};
pub use places::PlaceWriter;
pub use replay_gate::Break;
pub use report_text::{noted_report, put_row, report};
pub use text::{stop_words, view, write_objects, write_rows, write_thread};
pub use threads::{ThreadView, thread_view};
pub use trace_choice::TraceChoice;
pub use trace_seen::number_in;
pub use tracing::{TraceFault, trace_log};
pub use values::{bytes, is_in_view, versions};
pub use viewing::{ViewChoice, WasmViewFault, view_log};
