//! Sources that bytes come from and sinks that they go to: traits, the program's streams, both over memory.
//!
//! `Source::read` brings just the next bytes, `Sink::write` takes a beginning of those handed over, and a call that
//! fails none (`brought`, `taken`, `one_failed`). `StandardSource` and `StandardSink` do so over every stream.
//! `MemorySource` and `MemorySink` are fakes for tests; no clause says which of their calls fail.
#![tactic(auto)]

mod memory;
mod sink;
mod source;
mod standard_sink;
mod standard_source;
mod stop;

pub use memory::{MemorySink, MemorySource};
pub use sink::{Sink, write_all};
pub use source::{Failed, Source};
pub use standard_sink::StandardSink;
pub use standard_source::StandardSource;
