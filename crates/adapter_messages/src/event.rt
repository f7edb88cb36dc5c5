//! Events: what is told with no request.

ghost use Rattle.std.specs.Prelude.{◌≡◌, IfOk};
ghost use Rattle.serde_json.specs.View.{view};
ghost use Rattle.adapter_messages.specs.Events.{reason_name, category_name, event_name, event_body};

use crate::json::Json;
use crate::text::Text;
use serde_json::{Value, json};
use std::alloc::{AllocError, Global};

/// Why threads stand.
#[derive(Clone, Copy, Debug, PartialEq, Eq)]
pub enum StopReason {
    Entry,
    Step,
    Breakpoint,
    FunctionBreakpoint,
    DataBreakpoint,
    InstructionBreakpoint,
    Pause,
    Exception,
}

/// What a text that is put out is.
#[derive(Clone, Copy, Debug, PartialEq, Eq)]
pub enum Category {
    Console,
    Important,
    Stdout,
    Stderr,
}

/// What is told.
#[derive(Drop)]
pub enum EventKind {
    Initialized,
    /// A thread stands, or every thread.
    Stopped {
        reason: StopReason,
        thread: u64,
        all_threads: bool,
    },
    Terminated,
    Exited {
        exit_code: u64,
    },
    Output {
        category: Category,
        text: Text,
    },
}

/// An event: its number, and what it tells.
#[derive(Drop)]
pub struct Event {
    pub seq: u64,
    pub kind: EventKind,
}

fn reason_name(reason: StopReason) -> &'static str
    ensures { result.now ≡ reason_name reason }
{
    match reason {
        StopReason::Entry => "entry",
        StopReason::Step => "step",
        StopReason::Breakpoint => "breakpoint",
        StopReason::FunctionBreakpoint => "function breakpoint",
        StopReason::DataBreakpoint => "data breakpoint",
        StopReason::InstructionBreakpoint => "instruction breakpoint",
        StopReason::Pause => "pause",
        StopReason::Exception => "exception",
    }
}

fn category_name(category: Category) -> &'static str
    ensures { result.now ≡ category_name category }
{
    match category {
        Category::Console => "console",
        Category::Important => "important",
        Category::Stdout => "stdout",
        Category::Stderr => "stderr",
    }
}

fn event_name(event: &EventKind) -> &'static str
    ensures { result.now ≡ event_name event.now }
{
    match event {
        EventKind::Initialized => "initialized",
        EventKind::Stopped { .. } => "stopped",
        EventKind::Terminated => "terminated",
        EventKind::Exited { .. } => "exited",
        EventKind::Output { .. } => "output",
    }
}

fn event_body(alloc: Global, event: &EventKind) -> Result<Value, AllocError>
    ensures { IfOk result (λ v. view v ≡ event_body event.now) }
{
    match event {
        EventKind::Initialized | EventKind::Terminated => json!(in alloc; {}),
        EventKind::Stopped {
            reason,
            thread,
            all_threads,
        } => json!(in alloc; {
            "reason": reason_name(*reason),
            "threadId": *thread,
            "allThreadsStopped": *all_threads,
        }),
        EventKind::Exited { exit_code } => json!(in alloc; { "exitCode": *exit_code }),
        EventKind::Output { category, text } => json!(in alloc; {
            "category": category_name(*category),
            "output": text.as_str(),
        }),
    }
}

impl Json for Event {
    ghost use Rattle.adapter_messages.specs.Events.{event_json, event_no_float};

    ghost json = { event_json };

    fn to_value(&self, alloc: Global) -> Result<Value, AllocError> {
        let body = event_body(alloc, &self.kind)?;
        json!(in alloc; {
            "seq": self.seq,
            "type": "event",
            "event": event_name(&self.kind),
            "body": body,
        })
    }

    ghost no_float = { event_no_float };
}
