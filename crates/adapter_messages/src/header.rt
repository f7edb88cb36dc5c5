//! Headers, out of a source.

ghost use Rattle.std.specs.Prelude.{◌-◌, ◌^◌, ◌<◌};
ghost use Rattle.adapter_messages.specs.Frames.{HeaderSo};

use crate::fault::FrameFault;
use crate::fields::{Field, field_in};
use crate::header_line::{Came, next_line};
use byte_streams::Source;

/// Reads a header, and the empty line behind it, and nothing more: how many bytes the content has. None where nothing
/// more comes.
pub(crate) fn read_header<R: Source>(source: &mut R) -> Result<Option<u32>, FrameFault>
    requires { R.failed source.old < 2 ^ 64 - 1 }
    ensures { HeaderSo (λ text. R.brings source.old text source.new) (R.ended source.new) (R.calls source.new < R.calls source.old) (R.failed source.old) (R.failed source.new) result }
{
    let mut announced: Option<u32> = None;
    let mut is_begun = false;
    loop {
        match next_line(source) {
            Came::Line(line) => match (field_in(&line), announced) {
                (Field::End, Some(length)) => return Ok(Some(length)),
                (Field::Length(length), None) => announced = Some(length),
                (Field::Other, _) => {}
                (Field::TooLong, _) => return Err(FrameFault::TooLong),
                (Field::End, None) => return Err(FrameFault::Broken),
                (Field::Length(_), Some(_)) => return Err(FrameFault::Broken),
                (Field::Broken, _) => return Err(FrameFault::Broken),
            },
            Came::Nothing if !is_begun => return Ok(None),
            Came::Nothing => return Err(FrameFault::Ended),
            Came::Part => return Err(FrameFault::Ended),
            Came::TooLong => return Err(FrameFault::TooLong),
            Came::Failed => return Err(FrameFault::SourceFailed),
        }
        is_begun = true;
    }
}
