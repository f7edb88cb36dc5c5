//! How a message comes: a header with its length, and its content.

ghost use Rattle.std.specs.Prelude.{◌≡◌, ℕ, ◌+◌, ◌-◌, ◌^◌, ◌<◌, List, [], None, Ok, IfOk, IfSome, IfErr};
ghost use Rattle.adapter_messages.specs.Frames.{IsFrame, IsStopped, failures_in};

use crate::content::read_content;
use crate::fault::FrameFault;
use crate::header::read_header;
use byte_streams::Source;
use std::alloc::Global;

/// Reads a frame, and nothing behind it: its content. None where nothing more comes.
pub fn read_frame<R: Source>(alloc: Global, source: &mut R) -> Result<Option<Vec<u8>>, FrameFault>
    requires { R.failed source.old < 2 ^ 64 - 1 }
    ensures frame { IfOk result (λ o. IfSome o (λ content. (text : List ℕ) × IsFrame text content.items × R.brings source.old text source.new)) }
    ensures fewer { IfOk result (λ o. IfSome o (λ content. R.calls source.new < R.calls source.old)) }
    ensures nothing { result ≡ Ok None → R.brings source.old [] source.new }
    ensures end { result ≡ Ok None → R.ended source.new }
    ensures stopped { IfErr result (λ fault. (text : List ℕ) × IsStopped (R.ended source.new) fault text × R.brings source.old text source.new) }
    ensures failures { R.failed source.new ≡ R.failed source.old + failures_in result }
{
    match read_header(source) {
        Err(fault) => Err(fault),
        Ok(None) => Ok(None),
        Ok(Some(length)) => match read_content(alloc, source, length) {
            Err(fault) => Err(fault),
            Ok(content) => Ok(Some(content)),
        },
    }
}
