//! How a message is framed: a header with its length, and its content.

ghost use Rattle.std.specs.Prelude.{◌≡◌, ℕ, ◌+◌, ◌-◌, ◌^◌, ◌<◌, List, ◌++◌, OnOk, OnErr};
ghost use Rattle.adapter_messages.specs.Frames.{header_of, frame_of};

use arrayvec::ArrayString;
use byte_streams::{Failed, Sink, write_all};
use itoa::Buffer;

/// The header of a content of so many bytes, with the empty line behind it.
fn header_of(length: usize) -> ArrayString<64>
    ensures { result.bytes ≡ header_of length }
{
    let mut header = ArrayString::new();
    let mut buffer = Buffer::new();
    header.push_str("Content-Length: ");
    header.push_str(buffer.format(length));
    header.push_str("\r\n\r\n");
    header
}

/// Writes the frame of a content: its header, an empty line, and the content.
pub fn write_frame<W: Sink>(sink: &mut W, content: &[u8]) -> Result<(), Failed>
    requires { W.failed sink.old < 2 ^ 64 - 1 }
    ensures taken { OnOk result (W.takes sink.old (frame_of content.now) sink.new) }
    ensures none_failed { OnOk result (W.failed sink.new ≡ W.failed sink.old) }
    // After a failure a beginning of the frame was taken.
    ensures begun { OnErr result ((part rest : List ℕ) × (frame_of content.now ≡ part ++ rest) × W.takes sink.old part sink.new) }
    ensures one_failed { OnErr result (W.failed sink.new ≡ W.failed sink.old + 1) }
{
    let header = header_of(content.len());
    match write_all(sink, header.as_str().as_bytes()) {
        Ok(()) => write_all(sink, content),
        Err(Failed) => Err(Failed),
    }
}
