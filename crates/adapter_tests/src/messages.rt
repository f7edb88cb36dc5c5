//! Requests that come, responses and events that go.

use adapter_messages::{
    Body, Command, Event, EventKind, List, Motion, Outcome, RequestFault, Response, StopReason,
    Text, Thread, event_text, read_request, response_text,
};
use std::test::Fail;

const NEXT: &str = r#"{"seq":7,"type":"request","command":"next","arguments":{"threadId":3}}"#;

const LAUNCH: &str =
    r#"{"command":"launch","seq":2,"arguments":{"module":"m","plan":"p","pieces":["a","b"]}}"#;

const WITHOUT_PLAN: &str =
    r#"{"command":"launch","seq":2,"arguments":{"module":"m","pieces":["a","b"]}}"#;

const THREADS: &str =
    r#"{"body":{"threads":[{"id":1,"name":"a\"b"}]},"command":"threads","request_seq":7,"seq":8,"success":true,"type":"response"}"#;

const FAILED: &str =
    r#"{"command":"next","message":"no","request_seq":7,"seq":8,"success":false,"type":"response"}"#;

const STOPPED: &str =
    r#"{"body":{"allThreadsStopped":true,"reason":"data breakpoint","threadId":2},"event":"stopped","seq":9,"type":"event"}"#;

#[test]
fn a_motion_is_read(rt: HostRuntime) -> Result<(), Fail> {
    let request = read_request(rt.alloc(), NEXT.as_bytes())?;
    assert!(rt; request.seq == 7 && request.name.as_str() == "next");
    let is_read = match &request.command {
        Command::Move { motion, thread } => *motion == Motion::Next && *thread == 3,
        _ => false,
    };
    assert!(rt; is_read);
    Ok(())
}

#[test]
fn a_launch_is_read(rt: HostRuntime) -> Result<(), Fail> {
    let request = read_request(rt.alloc(), LAUNCH.as_bytes())?;
    let is_read = match &request.command {
        Command::Launch {
            module,
            plan,
            pieces,
        } => { module.as_str() == "m" && plan.as_str() == "p" && pieces.as_slice().len() == 2 }
        _ => false,
    };
    assert!(rt; is_read);
    let request = read_request(rt.alloc(), WITHOUT_PLAN.as_bytes())?;
    assert!(rt; matches!(&request.command, Command::BadArguments));
    let request = read_request(rt.alloc(), br#"{"seq":1,"command":"dance"}"#)?;
    assert!(rt; matches!(&request.command, Command::Unknown));
    Ok(())
}

#[test]
fn what_is_no_request_is_refused(rt: HostRuntime) {
    for text in [
        "",
        "[]",
        "{}",
        r#"{"seq":1.5,"command":"next"}"#,
        r#"{"seq":1}"#,
    ] {
        let fault = read_request(rt.alloc(), text.as_bytes()).err();
        assert!(rt; fault == Some(RequestFault::NotARequest), "{text}");
    }
}

#[test]
fn responses_are_written(rt: HostRuntime) -> Result<(), Fail> {
    let alloc = rt.alloc();
    let mut threads = List::new(alloc);
    let name = Text::new(alloc, "a\"b")?;
    threads.push(Thread { id: 1, name })?;
    let response = Response {
        seq: 8,
        request_seq: 7,
        command: Text::new(alloc, "threads")?,
        outcome: Outcome::Success(Body::Threads(threads)),
    };
    assert!(rt; response_text(alloc, &response)?.as_str() == THREADS);
    let response = Response {
        seq: 8,
        request_seq: 7,
        command: Text::new(alloc, "next")?,
        outcome: Outcome::Failure(Text::new(alloc, "no")?),
    };
    assert!(rt; response_text(alloc, &response)?.as_str() == FAILED);
    Ok(())
}

#[test]
fn events_are_written(rt: HostRuntime) -> Result<(), Fail> {
    let alloc = rt.alloc();
    let event = Event {
        seq: 9,
        kind: EventKind::Stopped {
            reason: StopReason::DataBreakpoint,
            thread: 2,
            all_threads: true,
        },
    };
    assert!(rt; event_text(alloc, &event)?.as_str() == STOPPED);
    Ok(())
}
