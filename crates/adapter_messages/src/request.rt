//! Requests: what a client asks for.

use crate::text::{List, Text};

/// A request: its number, the name of its command, and what it asks for.
#[derive(Drop)]
pub struct Request {
    pub seq: u64,
    pub name: Text,
    pub command: Command,
}

/// How a thread is to go on.
#[derive(Clone, Copy, Debug, PartialEq, Eq)]
pub enum Motion {
    Next,
    StepIn,
    StepOut,
    StepBack,
    Continue,
    ReverseContinue,
    Pause,
}

/// A breakpoint at an instruction: the place that a reference names, so many bytes further.
#[derive(Drop)]
pub struct InstructionBreakpoint {
    pub reference: Text,
    pub offset: i64,
}

/// What a request asks for. An argument that may be left out has the value then that the protocol gives it, or 0.
#[derive(Drop)]
pub enum Command {
    Initialize,
    /// Starts on these files.
    Launch {
        module: Text,
        plan: Text,
        pieces: List<Text>,
    },
    ConfigurationDone,
    Threads,
    /// Up to so many frames of a thread, all where `levels` is 0.
    StackTrace {
        thread: u64,
        start_frame: u64,
        levels: u64,
    },
    Scopes {
        frame: u64,
    },
    Variables {
        reference: u64,
    },
    ReadMemory {
        reference: Text,
        offset: i64,
        count: u64,
    },
    Disassemble {
        reference: Text,
        offset: i64,
        instruction_offset: i64,
        instruction_count: u64,
    },
    /// So many breakpoints in a source.
    SetBreakpoints {
        count: usize,
    },
    SetFunctionBreakpoints {
        names: List<Text>,
    },
    SetInstructionBreakpoints {
        breakpoints: List<InstructionBreakpoint>,
    },
    /// Whether there may be a breakpoint on a variable of a container, or of none where `reference` is 0.
    DataBreakpointInfo {
        name: Text,
        reference: u64,
    },
    SetDataBreakpoints {
        data_ids: List<Text>,
    },
    SetExceptionBreakpoints,
    /// That a thread goes on.
    Move {
        motion: Motion,
        thread: u64,
    },
    Evaluate {
        expression: Text,
    },
    Disconnect,
    Terminate,
    /// A command of another name.
    Unknown,
    /// A command of this list whose arguments do not fit.
    BadArguments,
}
