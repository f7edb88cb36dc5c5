//! What the words of a command line ask for.
//!
//! `requested`: a request just where the parser takes the words and its values are found in them.
#![tactic(auto)]

mod command;
mod help;
mod numbers;
mod report_texts;
mod requests;
mod rows;
mod wanted;

pub use command::{Asked, requested};
pub use requests::{
    GatherForm, HuntForm, HuntRequest, RecordForm, RecordOrder, RecordRequest, ReplayRequest,
    Request, RunRange, ThreadCount, TraceRequest, ViewRequest,
};
