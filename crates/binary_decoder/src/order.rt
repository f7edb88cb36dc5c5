//! Sections that stand where no section of their number may stand.

ghost use Rattle.std.specs.Prelude.{◌≡◌};
ghost use Rattle.binary_decoder.specs.Moves.{kind_of, IsRefusedAt};

use crate::cause::{Cause, SectionFault};
use crate::cursor::Cursor;
use crate::fault::DecodeFault;
use crate::place::ModulePart;

/// The last section of the profile.
const LAST: u8 = 11;

/// The refusal of a section that begins at the cursor, behind those that may stand before it. Behind which section it
/// stands is filled in by `ordered`.
#[cold]
pub(crate) fn unexpected(cursor: &Cursor) -> DecodeFault
    ensures { IsRefusedAt cursor.now.offset result }
{
    let section = match cursor.rest() {
        [section, ..] => *section,
        [] => 0,
    };
    let fault = if section > LAST {
        SectionFault::Unknown(section)
    } else {
        SectionFault::Misplaced { section, behind: 0 }
    };
    cursor
        .refusal(Cause::Section(fault))
        .at(ModulePart::Section(section))
}

/// The number of the last section before an offset that is no custom section; 0 where there is none. The cursor stands
/// at the first section.
fn last_before(offset: u32, sections: &Cursor) -> u8 {
    let mut left = *sections;
    let mut last = 0;
    for _ in 0..sections.rest().len() {
        if left.offset() >= offset as usize {
            return last;
        }
        let Ok(section) = left.byte() else {
            return last;
        };
        if left.sized().is_err() {
            return last;
        }
        if section != 0 {
            last = section;
        }
    }
    last
}

/// The same fault, which says of a misplaced section behind which one it stands. The cursor stands at the first
/// section.
#[cold]
pub(crate) fn ordered(fault: DecodeFault, sections: &Cursor) -> DecodeFault
    ensures { kind_of result ≡ kind_of fault }
{
    let DecodeFault::Refused {
        offset,
        cause: Cause::Section(SectionFault::Misplaced { section, .. }),
        ..
    } = fault
    else {
        return fault;
    };
    let behind = last_before(offset, sections);
    if behind == section {
        fault.because(Cause::Section(SectionFault::Repeated(section)))
    } else {
        fault.because(Cause::Section(SectionFault::Misplaced { section, behind }))
    }
}
