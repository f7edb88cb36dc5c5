//! Contents, out of a source.

ghost use Rattle.std.specs.Prelude.{◌-◌, ◌^◌, ◌<◌, ◌≤◌};
ghost use Rattle.adapter_messages.specs.Frames.{ContentSo};

use crate::fault::FrameFault;
use byte_streams::{Failed, Source};
use std::alloc::Global;

/// The most bytes that are read at a call.
const CHUNK: usize = 4096;

/// Reads a content of so many bytes, and nothing more. Memory is taken as its bytes come.
pub(crate) fn read_content<R: Source>(
    alloc: Global,
    source: &mut R,
    length: u32,
) -> Result<Vec<u8>, FrameFault>
    requires { R.failed source.old < 2 ^ 64 - 1 }
    ensures { ContentSo (λ text. R.brings source.old text source.new) (R.ended source.new) (R.calls source.new ≤ R.calls source.old) (R.failed source.old) (R.failed source.new) length result }
{
    let length = length as usize;
    let mut content = Vec::new(alloc);
    let mut chunk = [0; CHUNK];
    while content.len() < length {
        let most = CHUNK.min(length - content.len());
        let (room, _) = chunk.split_at_mut(most);
        let count = match source.read(room) {
            Err(Failed) => return Err(FrameFault::SourceFailed),
            Ok(0) => return Err(FrameFault::Ended),
            Ok(count) => count,
        };
        if content.extend_from_slice(&room[..count]).is_err() {
            return Err(FrameFault::NoMemory);
        }
    }
    Ok(content)
}
