//! The Debug Adapter Protocol: its messages, each in a frame, and the exchange of requests for responses and events.
//!
//! `write_frame` writes a content behind its header, and `read_frame` reads just the bytes of one frame, or says what
//! came instead (`IsFrame`, `IsStopped`). `read_request` gives just the request that the JSON of a content is
//! (`request_of`), also where its command is unknown or its arguments do not fit, so that each is answered.
//! `response_text` and `event_text` are the JSON of their message (`response_json`, `event_json`), with no space.
//!
//! `exchange`: for each request that comes, its response goes and then its events, numbered one behind the other
//! (`Attend` says which), up to a request that ends the exchange, one that is held back, or the end of what comes
//! (`ended`); where no frame is had, or a message not sent, what was read and taken is said (`stopped`). `resume`
//! answers a request that was held back and goes on.
#![tactic(auto)]

mod answering;
mod argument_lists;
mod arguments;
mod attending;
mod body;
mod command_name;
mod commands;
mod content;
mod event;
mod exchanging;
mod fault;
mod fields;
mod header;
mod header_line;
mod json;
mod parts;
mod receiving;
mod reply;
mod replying;
mod request;
mod requests;
mod response;
mod resuming;
mod sending;
mod sent;
mod text;

pub use attending::Attend;
pub use body::Body;
pub use event::{Category, Event, EventKind, StopReason};
pub use exchanging::{Ended, ExchangeFault, exchange};
pub use fault::FrameFault;
pub use fields::LARGEST_CONTENT;
pub use parts::{Breakpoint, Capabilities, Instruction, Scope, StackFrame, Thread, Variable};
pub use receiving::read_frame;
pub use reply::{Reply, Told};
pub use replying::SendFault;
pub use request::{Command, InstructionBreakpoint, Motion, Request};
pub use requests::{RequestFault, read_request};
pub use response::{Outcome, Response};
pub use resuming::resume;
pub use sending::write_frame;
pub use sent::{event_text, response_text};
pub use text::{List, Text};
