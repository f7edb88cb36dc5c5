//! Frames that go and come.

use adapter_messages::{FrameFault, read_frame, write_frame};
use byte_streams::{MemorySink, MemorySource};
use std::test::Fail;

/// Two frames, as clients write them; the second has fields besides.
const TWO: &[u8] = b"Content-Length: 2\r\n\r\n{}Content-Type: x\r\ncontent-length: 3\r\n\r\n[1]";

/// Texts that are no frames, and why.
const BAD: [(&[u8], FrameFault); 8] = [
    (b"Content-Length: 3\r\n\r\n{}", FrameFault::Ended),
    (b"Content-Length: 3\r\n", FrameFault::Ended),
    (b"\r\n", FrameFault::Broken),
    (b"Content-Length: 3\n\r\n{}", FrameFault::Broken),
    (b"Content-Length: +3\r\n\r\n{}}", FrameFault::Broken),
    (
        b"Content-Length: 0\r\nContent-Length: 0\r\n\r\n",
        FrameFault::Broken,
    ),
    (b"Content-Length: 1048577\r\n\r\n", FrameFault::TooLong),
    (
        b"Content-Length: 99999999999999999999\r\n\r\n",
        FrameFault::TooLong,
    ),
];

/// Whether there is a content, and it is this one.
fn is_content(content: &Option<Vec<u8>>, wanted: &[u8]) -> bool {
    match content {
        Some(content) => content.as_slice() == wanted,
        None => false,
    }
}

#[test]
fn frames_come_one_by_one(rt: HostRuntime) -> Result<(), Fail> {
    let alloc = rt.alloc();
    let mut source = MemorySource::new(TWO, 1000, None);
    let first = read_frame(alloc, &mut source)?;
    let second = read_frame(alloc, &mut source)?;
    let none = read_frame(alloc, &mut source)?;
    assert!(rt; is_content(&first, b"{}") && is_content(&second, b"[1]") && none.is_none());
    Ok(())
}

#[test]
fn what_is_no_frame_is_refused(rt: HostRuntime) {
    for (text, wanted) in &BAD {
        let mut source = MemorySource::new(text, 7, None);
        let fault = read_frame(rt.alloc(), &mut source).err();
        assert!(rt; fault == Some(*wanted));
    }
}

#[test]
fn a_source_that_fails_is_told(rt: HostRuntime) {
    let mut source = MemorySource::new(TWO, 7, Some(21));
    let fault = read_frame(rt.alloc(), &mut source).err();
    assert!(rt; fault == Some(FrameFault::SourceFailed));
}

#[test]
fn a_content_is_framed(rt: HostRuntime) {
    let mut sink = MemorySink::new(rt.alloc(), 5, None);
    assert!(rt; write_frame(&mut sink, b"{}").is_ok());
    assert!(rt; sink.taken() == b"Content-Length: 2\r\n\r\n{}".as_slice());
}
