//! The first eight bytes of a module.

ghost use Rattle.binary_decoder.specs.Moves.{IsRefusedAt};

use crate::cause::{Cause, HeaderFault};
use crate::fault::DecodeFault;
use crate::place::ModulePart;

/// What bytes are that do not begin as a module does.
fn header_fault(bytes: &[u8]) -> HeaderFault {
    match bytes {
        [0x00, 0x61, 0x73, 0x6D, _, 0x00, 0x01, 0x00, ..] => HeaderFault::Component,
        [0x00, 0x61, 0x73, 0x6D, ..] => HeaderFault::Version,
        [0x28, ..] => HeaderFault::TextFormat,
        _ => HeaderFault::NotBinary,
    }
}

/// The refusal at an offset of the first eight bytes, of bytes that do not begin as a module does.
#[cold]
pub(crate) fn header_refusal(offset: usize, bytes: &[u8]) -> DecodeFault
    ensures { IsRefusedAt offset result }
{
    let fault = header_fault(bytes);
    DecodeFault::refused(offset, Cause::Header(fault)).at(ModulePart::Header)
}
