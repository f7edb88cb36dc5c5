//! A cursor's calls.

use binary_decoder::{Cause, Cursor, DecodeFault, Expected, Integer, Limit, SpellingFault};

static BYTES: [u8; 16] = [
    7, 0xE5, 0x8E, 0x26, 0x7F, 0x7E, 3, 2, 0xC3, 0xA9, 1, 0xFF, 9, 1, 5, 0x80,
];

fn is_accented(name: Result<&[u8], DecodeFault>) -> bool {
    match name {
        Ok(name) => name == "\u{e9}".as_bytes(),
        Err(_) => false,
    }
}

/// Whether the first ten bytes are read, each kind of number among them and a name.
fn goes_on(cursor: &mut Cursor<'_>) -> bool {
    cursor.is_at(7)
        && cursor.byte() == Ok(7)
        && cursor.unsigned_32() == Ok(624485)
        && cursor.signed_32() == Ok(-1)
        && cursor.signed_64() == Ok(-2)
        && cursor.limited(3, 0, Limit::Pages) == Ok(3)
        && is_accented(cursor.name())
        && cursor.offset() == 110
}

/// Whether a reading was refused at an offset, for this cause.
fn is_refused<T: Drop>(found: Result<T, DecodeFault>, at: u32, why: SpellingFault) -> bool {
    match found {
        Err(DecodeFault::Refused { offset, cause, .. }) => {
            offset == at && cause == Cause::Spelling(why)
        }
        _ => false,
    }
}

/// What is said of the end of the next part.
fn part_end(cursor: &mut Cursor<'_>) -> Result<(), DecodeFault> {
    cursor.sized()?.finish()
}

/// Whether the others are refused where they stand: a name, another byte, what is left of a part, and a number without
/// its end.
fn refuses(cursor: &mut Cursor<'_>) -> bool {
    let past_end = SpellingFault::NumberPastEnd(Integer::Unsigned32);
    cursor.name().is_err()
        && cursor.expect(8, Expected::FenceByte).is_err()
        && cursor.expect(9, Expected::FenceByte) == Ok(())
        && is_refused(part_end(cursor), 114, SpellingFault::LeftOver(1))
        && is_refused(cursor.unsigned_32(), 115, past_end)
        && is_refused(cursor.limited(2, 0, Limit::Pages), 115, past_end)
        && cursor.rest().len() == 1
}

// Each call once, with the offsets of what it leaves and refuses.
#[test]
fn a_cursor_goes_on_and_refuses(rt: HostRuntime) {
    let mut cursor = Cursor::new(&BYTES, 100);
    assert!(rt; goes_on(&mut cursor));
    assert!(rt; refuses(&mut cursor));
}
