//! Exchanges: requests that come, each of a frame, and what goes for each.

ghost use Rattle.std.specs.Prelude.{◌-◌, ◌^◌, ◌<◌};

use crate::counting::{Counter, told_nothing};
use adapter_messages::{Body, Ended, ExchangeFault, FrameFault, Outcome, exchange, resume};
use byte_streams::{MemorySink, MemorySource};
use std::alloc::Global;
use std::test::Fail;

const THREADS: &str = r#"{"seq":7,"command":"threads"}"#;

const LAUNCH: &str =
    r#"{"seq":2,"command":"launch","arguments":{"module":"m","plan":"p","pieces":[]}}"#;

/// A content that is no request, a command that is not known, and a frame behind the end.
const REQUESTS: [&str; 6] = [
    THREADS,
    "[]",
    r#"{"seq":9,"command":"dance"}"#,
    r#"{"seq":8,"command":"next","arguments":{"threadId":3}}"#,
    r#"{"seq":30,"command":"disconnect"}"#,
    THREADS,
];

/// What goes for them, up to the end.
const ANSWERS: [&str; 7] = [
    r#"{"body":{},"command":"threads","request_seq":7,"seq":1,"success":true,"type":"response"}"#,
    r#"{"body":{"category":"important","output":"error: a message that is no request\n"},"event":"output","seq":2,"type":"event"}"#,
    r#"{"command":"dance","message":"no such command","request_seq":9,"seq":3,"success":false,"type":"response"}"#,
    r#"{"body":{},"command":"next","request_seq":8,"seq":4,"success":true,"type":"response"}"#,
    r#"{"body":{"allThreadsStopped":true,"reason":"step","threadId":3},"event":"stopped","seq":5,"type":"event"}"#,
    r#"{"body":{"exitCode":3},"event":"exited","seq":6,"type":"event"}"#,
    r#"{"body":{},"command":"disconnect","request_seq":30,"seq":7,"success":true,"type":"response"}"#,
];

const LAUNCHED: &str =
    r#"{"body":{},"command":"launch","request_seq":2,"seq":1,"success":true,"type":"response"}"#;

const BEHIND_LAUNCHED: &str =
    r#"{"body":{},"command":"threads","request_seq":7,"seq":2,"success":true,"type":"response"}"#;

/// What is no frame, and why.
const NO_FRAMES: [(&[u8], FrameFault); 4] = [
    (b"\r\n", FrameFault::Broken),
    (b"Content-Length: 9\r\n\r\n[]", FrameFault::Ended),
    (b"Content-Length: 9", FrameFault::Ended),
    (b"Content-Length: 1048577\r\n\r\n", FrameFault::TooLong),
];

/// The frames of contents.
fn framed(alloc: Global, contents: &[&str]) -> Result<Vec<u8>, Fail> {
    let mut text = Vec::new(alloc);
    for content in contents {
        let frame = format!(in alloc; "Content-Length: {}\r\n\r\n{}", content.len(), content)?;
        text.extend_from_slice(frame.as_bytes())?;
    }
    Ok(text)
}

/// How an exchange ends, or why it stops.
#[derive(Clone, Copy, Debug, PartialEq, Eq)]
enum Way {
    Asked,
    NothingMore,
    HeldBack,
    Stopped(ExchangeFault),
}

/// How much of what should go went.
#[derive(Clone, Copy, Debug, PartialEq, Eq)]
enum Sent {
    All,
    Beginning,
    Other,
}

/// What came of an exchange, whose first message has the number 1.
#[derive(Clone, Copy, Debug, PartialEq, Eq)]
struct Trial {
    way: Way,
    next: u64,
    sent: Sent,
}

/// Which call of the source and of the sink fails.
#[derive(Clone, Copy)]
struct Failing {
    source: Option<u64>,
    sink: Option<u64>,
}

const NONE_FAILS: Failing = Failing {
    source: None,
    sink: None,
};

fn way_of(ended: &Result<Ended, ExchangeFault>) -> Way {
    match ended {
        Ok(Ended::Asked) => Way::Asked,
        Ok(Ended::NothingMore) => Way::NothingMore,
        Ok(Ended::HeldBack(_)) => Way::HeldBack,
        Err(fault) => Way::Stopped(*fault),
    }
}

fn sent_of(taken: &[u8], answers: &[u8]) -> Sent {
    if !answers.starts_with(taken) {
        Sent::Other
    } else if taken.len() < answers.len() {
        Sent::Beginning
    } else {
        Sent::All
    }
}

/// Answers what comes, from this number on, by an attendant that has attended nothing yet.
fn answer_all(
    alloc: Global,
    number: &mut u64,
    source: &mut MemorySource<'_>,
    sink: &mut MemorySink,
) -> Way
    requires source { source.old.failures < 2 ^ 64 - 1 }
    requires sink { sink.old.failures < 2 ^ 64 - 1 }
{
    let mut counter = Counter { attended: 0 };
    let ended = exchange(alloc, &mut counter, number, source, sink);
    way_of(&ended)
}

/// Answers these bytes.
fn try_bytes(alloc: Global, requests: &[u8], answers: &[u8], failing: Failing) -> Trial {
    let mut source = MemorySource::new(requests, 7, failing.source);
    let mut sink = MemorySink::new(alloc, 7, failing.sink);
    let mut next = 1;
    let way = answer_all(alloc, &mut next, &mut source, &mut sink);
    Trial {
        way,
        next,
        sent: sent_of(sink.taken(), answers),
    }
}

/// Answers frames with these contents, of which the answers have those.
fn try_contents(
    alloc: Global,
    requests: &[&str],
    answers: &[&str],
    failing: Failing,
) -> Result<Trial, Fail> {
    let requests = framed(alloc, requests)?;
    let answers = framed(alloc, answers)?;
    Ok(try_bytes(alloc, &requests, &answers, failing))
}

/// Answers a request, and these bytes behind it.
fn try_behind(alloc: Global, text: &[u8]) -> Result<Trial, Fail> {
    let mut requests = framed(alloc, &[THREADS])?;
    requests.extend_from_slice(text)?;
    let answers = framed(alloc, &ANSWERS[..1])?;
    Ok(try_bytes(alloc, &requests, &answers, NONE_FAILS))
}

/// Answers the requests up to the end, and then those behind it.
fn try_twice(alloc: Global) -> Result<(Way, Way), Fail> {
    let requests = framed(alloc, &REQUESTS)?;
    let mut source = MemorySource::new(&requests, 1000, None);
    let mut sink = MemorySink::new(alloc, 1000, None);
    let mut counter = Counter { attended: 0 };
    let mut next = 1;
    let first = exchange(alloc, &mut counter, &mut next, &mut source, &mut sink);
    let second = match first {
        Ok(_) => exchange(alloc, &mut counter, &mut next, &mut source, &mut sink),
        Err(fault) => Err(fault),
    };
    Ok((way_of(&first), way_of(&second)))
}

/// Holds back a launch, answers it, and goes on.
fn try_launch(alloc: Global) -> Result<Trial, Fail> {
    let requests = framed(alloc, &[LAUNCH, THREADS])?;
    let answers = framed(alloc, &[LAUNCHED, BEHIND_LAUNCHED])?;
    let mut source = MemorySource::new(&requests, 1000, None);
    let mut sink = MemorySink::new(alloc, 1000, None);
    let mut counter = Counter { attended: 0 };
    let mut next = 1;
    let ended = match exchange(alloc, &mut counter, &mut next, &mut source, &mut sink) {
        Ok(Ended::HeldBack(request)) => {
            let reply = told_nothing(Outcome::Success(Body::Empty), true);
            resume(
                alloc,
                &mut counter,
                &mut next,
                request,
                reply,
                &mut source,
                &mut sink,
            )
        }
        ended => ended,
    };
    Ok(Trial {
        way: way_of(&ended),
        next,
        sent: sent_of(sink.taken(), &answers),
    })
}

#[test]
fn requests_are_answered_in_their_order(rt: HostRuntime) -> Result<(), Fail> {
    let trial = try_contents(rt.alloc(), &REQUESTS, &ANSWERS, NONE_FAILS)?;
    let wanted = Trial {
        way: Way::Asked,
        next: 8,
        sent: Sent::All,
    };
    assert!(rt; trial == wanted);
    Ok(())
}

#[test]
fn nothing_behind_the_end_is_read(rt: HostRuntime) -> Result<(), Fail> {
    let (first, second) = try_twice(rt.alloc())?;
    assert!(rt; first == Way::Asked && second == Way::NothingMore);
    Ok(())
}

#[test]
fn a_launch_is_held_back(rt: HostRuntime) -> Result<(), Fail> {
    let trial = try_contents(rt.alloc(), &[LAUNCH, THREADS], &[], NONE_FAILS)?;
    let wanted = Trial {
        way: Way::HeldBack,
        next: 1,
        sent: Sent::All,
    };
    assert!(rt; trial == wanted);
    Ok(())
}

#[test]
fn what_was_held_back_is_answered(rt: HostRuntime) -> Result<(), Fail> {
    let trial = try_launch(rt.alloc())?;
    let wanted = Trial {
        way: Way::NothingMore,
        next: 3,
        sent: Sent::All,
    };
    assert!(rt; trial == wanted);
    Ok(())
}

#[test]
fn what_is_no_frame_stops_it(rt: HostRuntime) -> Result<(), Fail> {
    for (text, fault) in &NO_FRAMES {
        let trial = try_behind(rt.alloc(), text)?;
        let wanted = Trial {
            way: Way::Stopped(ExchangeFault::Frame(*fault)),
            next: 2,
            sent: Sent::All,
        };
        assert!(rt; trial == wanted);
    }
    Ok(())
}

#[test]
fn a_source_that_fails_stops_it(rt: HostRuntime) -> Result<(), Fail> {
    let failing = Failing {
        source: Some(30),
        sink: None,
    };
    let trial = try_contents(rt.alloc(), &[THREADS, THREADS], &ANSWERS[..1], failing)?;
    let wanted = Trial {
        way: Way::Stopped(ExchangeFault::Frame(FrameFault::SourceFailed)),
        next: 2,
        sent: Sent::All,
    };
    assert!(rt; trial == wanted);
    Ok(())
}

#[test]
fn a_closed_sink_took_a_beginning(rt: HostRuntime) -> Result<(), Fail> {
    for call in 1..100 {
        let failing = Failing {
            source: None,
            sink: Some(call),
        };
        let trial = try_contents(rt.alloc(), &REQUESTS, &ANSWERS, failing)?;
        let failed = Way::Stopped(ExchangeFault::SinkFailed);
        assert!(rt;
            trial.way == failed && trial.sent == Sent::Beginning,
            "at {call}"
        );
    }
    Ok(())
}

/// Whether an exchange came to its end, or memory was wanting. A sink over memory fails where its own is refused.
fn is_allowed(trial: Trial) -> bool {
    match trial.way {
        Way::Asked => trial.sent == Sent::All,
        Way::NothingMore | Way::HeldBack => false,
        Way::Stopped(ExchangeFault::Frame(fault)) => {
            fault == FrameFault::NoMemory && trial.sent == Sent::Beginning
        }
        Way::Stopped(_) => trial.sent == Sent::Beginning,
    }
}

// Under `rt try --test --fail-alloc N` the Nth growth of this test is refused. Without it none is.
#[test]
fn a_refused_growth_is_answered(rt: HostRuntime) -> Result<(), Fail> {
    let trial = try_contents(rt.alloc(), &REQUESTS, &ANSWERS, NONE_FAILS)?;
    assert!(rt; is_allowed(trial));
    Ok(())
}
