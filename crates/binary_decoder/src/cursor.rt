//! Cursors over bytes.

ghost use Rattle.std.specs.Prelude.{◌≡◌, IfOk, IfErr, ◌<◌, ◌≤◌, ◌+◌, ◌^◌, length, drop, true};
ghost use Rattle.binary_decoder.specs.Reading.{begins, byte_at, u32_at, s32_at, s64_at, limited_at, byte_vector_at, end_at, first_at, name_at};
ghost use Rattle.binary_decoder.specs.Moves.{Moves, MovesBy, Gives, IsRefusedAt};

use crate::cause::{Cause, Expected, Integer, Limit, OpCode, SpellingFault};
use crate::fault::{DecodeFault, clamped};
use crate::place::ModulePart;
use wasm_types::{leb_signed, leb_unsigned};

/// The bytes that are left, and the offset of the first of them. After a fault it stands anywhere.
#[derive(Clone, Copy, Debug)]
pub struct Cursor<'a> {
    rest: &'a [u8],
    offset: usize,
}

impl<'a> Cursor<'a> {
    /// A cursor at the first of these bytes, which has this offset.
    pub fn new(bytes: &'a [u8], offset: usize) -> Cursor<'a>
        ensures bytes { result.rest.now ≡ bytes.now }
        ensures offset { result.offset ≡ offset }
    {
        Cursor {
            rest: bytes,
            offset,
        }
    }

    /// The offset of the next byte.
    pub fn offset(&self) -> usize
        ensures { result ≡ self.now.offset }
    {
        self.offset
    }

    /// The bytes that are left.
    pub fn rest(&self) -> &'a [u8]
        ensures { result.now ≡ self.now.rest.now }
    {
        self.rest
    }

    /// The refusal at the next byte, for a cause.
    #[cold]
    pub fn refusal(&self, cause: Cause) -> DecodeFault
        ensures { IsRefusedAt self.now.offset result }
    {
        DecodeFault::refused(self.offset, cause)
    }

    /// The refusal at the next byte, where a number should stand.
    #[cold]
    fn no_number(&self, integer: Integer) -> DecodeFault
        ensures { IsRefusedAt self.now.offset result }
    {
        if self.rest.len() < integer.most_bytes() && goes_on(self.rest) {
            self.refusal(Cause::Spelling(SpellingFault::NumberPastEnd(integer)))
        } else {
            self.refusal(Cause::Spelling(SpellingFault::Number(integer)))
        }
    }

    /// The refusal at the next byte, where another one should stand.
    #[cold]
    fn other_byte(&self, expected: Expected) -> DecodeFault
        ensures { IsRefusedAt self.now.offset result }
    {
        match self.rest {
            [byte, rest @ ..] => {
                let code = Cursor::new(rest, self.offset).op_code(*byte);
                self.refusal(expected.cause(*byte, code))
            }
            [] => self.refusal(Cause::Spelling(SpellingFault::ByteMissing)),
        }
    }

    /// The code of the instruction that begins with this byte, which stands before the next one.
    #[cold]
    pub fn op_code(&self, byte: u8) -> OpCode {
        let mut behind = *self;
        let Ok(number) = behind.unsigned_32() else {
            return OpCode::Byte(byte);
        };
        match byte {
            0xFB => OpCode::Collected(number),
            0xFC => OpCode::Bulk(number),
            0xFD => OpCode::Vector(number),
            0xFE => OpCode::Atomic(number),
            _ => OpCode::Byte(byte),
        }
    }

    /// Whether the next byte is this one; false where none is left.
    pub fn is_at(&self, byte: u8) -> bool
        ensures { result ≡ begins byte self.now.rest.now }
    {
        match self.rest {
            [first, ..] => *first == byte,
            [] => false,
        }
    }

    /// Goes so many bytes on.
    fn skip(&mut self, count: usize)
        requires { count ≤ length self.now.rest.now }
        ensures { self.new.rest.now ≡ drop count self.old.rest.now }
    {
        let (_, rest) = self.rest.split_at(count);
        self.rest = rest;
        self.offset = self.offset.wrapping_add(count);
    }

    /// The next byte; refused where none is left.
    #[inline(always)]
    pub fn byte(&mut self) -> Result<u8, DecodeFault>
        ensures value { Moves result self.new.rest.now (first_at self.old.rest.now) }
        ensures refusal { IfErr result (IsRefusedAt self.old.offset) }
    {
        let [byte, ..] = self.rest else {
            return Err(self.refusal(Cause::Spelling(SpellingFault::ByteMissing)));
        };
        let byte = *byte;
        self.skip(1);
        Ok(byte)
    }

    /// This very byte, which stands for something; refused at the byte that stands in its place.
    #[inline(always)]
    pub fn expect(&mut self, byte: u8, expected: Expected) -> Result<(), DecodeFault>
        ensures value { MovesBy (λ _. tt) result self.new.rest.now (byte_at byte self.old.rest.now) }
        ensures refusal { IfErr result (IsRefusedAt self.old.offset) }
    {
        match self.rest {
            [first, ..] if *first == byte => {
                self.skip(1);
                Ok(())
            }
            _ => Err(self.other_byte(expected)),
        }
    }

    /// An unsigned number of 32 bits; refused at its first byte.
    #[inline(always)]
    pub fn unsigned_32(&mut self) -> Result<u32, DecodeFault>
        ensures value { Moves result self.new.rest.now (u32_at self.old.rest.now) }
        ensures refusal { IfErr result (IsRefusedAt self.old.offset) }
    {
        match leb_unsigned(self.rest, 0, 32) {
            Some((number, end)) => {
                self.skip(end);
                Ok(number as u32)
            }
            None => Err(self.no_number(Integer::Unsigned32)),
        }
    }

    /// A signed number of 32 bits; refused at its first byte.
    pub fn signed_32(&mut self) -> Result<i32, DecodeFault>
        ensures value { Moves result self.new.rest.now (s32_at self.old.rest.now) }
        ensures refusal { IfErr result (IsRefusedAt self.old.offset) }
    {
        match leb_signed(self.rest, 0, 32) {
            Some((number, end)) => {
                self.skip(end);
                Ok(number as i32)
            }
            None => Err(self.no_number(Integer::Signed32)),
        }
    }

    /// A signed number of 64 bits; refused at its first byte.
    pub fn signed_64(&mut self) -> Result<i64, DecodeFault>
        ensures value { Moves result self.new.rest.now (s64_at self.old.rest.now) }
        ensures refusal { IfErr result (IsRefusedAt self.old.offset) }
    {
        match leb_signed(self.rest, 0, 64) {
            Some((number, end)) => {
                self.skip(end);
                Ok(number)
            }
            None => Err(self.no_number(Integer::Signed64)),
        }
    }

    /// An unsigned number of 32 bits that, with what was used before, is at most what the limit allows.
    pub fn limited(&mut self, most: u32, used: u32, limit: Limit) -> Result<u32, DecodeFault>
        requires { used ≤ most }
        ensures value { Moves result self.new.rest.now (limited_at true most used self.old.rest.now) }
        ensures fits { IfOk result (λ n. used + n ≤ most) }
    {
        let number = self.unsigned_32()?;
        if most - used < number {
            return Err(DecodeFault::TooLarge {
                limit,
                count: u64::from(used) + u64::from(number),
                place: ModulePart::Unknown,
            });
        }
        Ok(number)
    }

    /// A count, and a cursor over that many bytes; refused at the count where not so many are left.
    pub fn sized(&mut self) -> Result<Cursor<'a>, DecodeFault>
        ensures value { MovesBy (λ c. c.rest.now) result self.new.rest.now (byte_vector_at self.old.rest.now) }
        ensures refusal { IfErr result (IsRefusedAt self.old.offset) }
        ensures fits { IfOk result (λ c. length c.rest.now < 2 ^ 32) }
    {
        let start = self.offset;
        let length = self.unsigned_32()?;
        let count = length as usize;
        if self.rest.len() < count {
            return Err(too_long(start, length, self.rest.len()));
        }
        let (content, _) = self.rest.split_at(count);
        let offset = self.offset;
        self.skip(count);
        Ok(Cursor {
            rest: content,
            offset,
        })
    }

    /// A count, and that many bytes, which are UTF-8; refused at the count where they are not.
    pub fn name(&mut self) -> Result<&'a [u8], DecodeFault>
        ensures value { MovesBy (λ bytes. bytes.now) result self.new.rest.now (name_at self.old.rest.now) }
        ensures refusal { IfErr result (IsRefusedAt self.old.offset) }
    {
        let start = self.offset;
        let content = self.sized()?;
        match str::from_utf8(content.rest) {
            Ok(_) => Ok(content.rest),
            Err(_) => Err(DecodeFault::refused(start, Cause::Spelling(SpellingFault::NotText))),
        }
    }

    /// Nothing is left; refused at the next byte where something is.
    pub fn finish(&self) -> Result<(), DecodeFault>
        ensures value { Gives (λ _. tt) result (end_at self.now.rest.now) }
        ensures refusal { IfErr result (IsRefusedAt self.now.offset) }
    {
        if self.rest.is_empty() {
            Ok(())
        } else {
            let left = clamped(self.rest.len());
            Err(self.refusal(Cause::Spelling(SpellingFault::LeftOver(left))))
        }
    }
}

/// The refusal at the offset of a length, behind which fewer bytes are left.
#[cold]
fn too_long(offset: usize, length: u32, left: usize) -> DecodeFault
    ensures { IsRefusedAt offset result }
{
    let left = clamped(left);
    DecodeFault::refused(
        offset,
        Cause::Spelling(SpellingFault::TooLong { length, left }),
    )
}

/// Whether each byte says that another one follows.
fn goes_on(bytes: &[u8]) -> bool {
    for byte in bytes {
        if *byte < 128 {
            return false;
        }
    }
    true
}
