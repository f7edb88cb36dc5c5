//! The fields of a piece that stand before its entries and behind them: each function puts its field behind what is
//! there.

ghost use Rattle.std.specs.Prelude.{◌≡◌, ◌+◌, ◌≤◌, ◌++◌, length};
ghost use Rattle.hex.specs.Hex.{IsBytes};
ghost use Rattle.arrayvec.specs.ArrayVec.{array_vec_len};
ghost use Rattle.log_pieces.specs.Widths.{FitsOutcome, FitsEnd, FitsProfile, FitsKey};
ghost use Rattle.log_pieces.specs.Spelling.{u8, u16, u32, outcome_bytes, end_flag, end_bytes, format_byte, block_bytes, key_bytes};

use crate::end::End;
use arrayvec::ArrayVec;
use wasm_types::{Outcome, Profile, RunKey, Value};

fn put<const MOST: usize>(fields: &mut ArrayVec<u8, MOST>, field: &[u8])
    requires { array_vec_len fields.old + length field.now ≤ MOST }
    ensures put { fields.new.items ≡ fields.old.items ++ field.now }
    ensures len { array_vec_len fields.new ≡ array_vec_len fields.old + length field.now }
{
    // There is room for them.
    let _fits = fields.try_extend_from_slice(field);
}

fn format_byte(profile: &Profile) -> u8
    ensures { result ≡ format_byte profile.now }
{
    match profile {
        Profile::One => 1,
        Profile::Two(_) => 2,
    }
}

fn put_block<const MOST: usize>(fields: &mut ArrayVec<u8, MOST>, profile: &Profile)
    requires { array_vec_len fields.old + 1 ≤ MOST }
    ensures put { fields.new.items ≡ fields.old.items ++ block_bytes profile.now }
    ensures len { array_vec_len fields.new ≤ array_vec_len fields.old + 1 }
    ensures fits { FitsProfile profile.now }
{
    if let Profile::Two(block) = profile {
        put(fields, &[block.power()]);
    }
}

fn put_digest<const MOST: usize>(fields: &mut ArrayVec<u8, MOST>, digest: &[u8; 32])
    requires { array_vec_len fields.old + 32 ≤ MOST }
    ensures put { fields.new.items ≡ fields.old.items ++ digest.now }
    ensures len { array_vec_len fields.new ≡ array_vec_len fields.old + 32 }
    ensures digest { length digest.now ≡ 32 }
    ensures bytes { IsBytes digest.now }
{
    put(fields, digest);
}

fn put_key<const MOST: usize>(fields: &mut ArrayVec<u8, MOST>, key: &RunKey)
    requires { array_vec_len fields.old + 45 ≤ MOST }
    ensures put { fields.new.items ≡ fields.old.items ++ key_bytes key.now }
    ensures len { array_vec_len fields.new ≤ array_vec_len fields.old + 45 }
    ensures fits { FitsKey key.now }
{
    put(fields, b"IRP");
    put(fields, &[format_byte(&key.profile)]);
    put_digest(fields, &key.digest);
    put(fields, &key.run.to_le_bytes());
    put_block(fields, &key.profile);
}

/// What stands before a piece's entries, of which there are `count`; `end` is what stands behind them.
pub fn head_bytes(
    key: &RunKey,
    thread: u8,
    first: u32,
    count: u16,
    end: &Option<End>,
) -> ArrayVec<u8, 53>
    ensures bytes { result.items ≡ key_bytes key.now ++ u8 thread ++ u32 first ++ u16 count ++ u8 (end_flag end.now) }
    ensures fits { FitsKey key.now }
{
    let mut fields = ArrayVec::new();
    put_key(&mut fields, key);
    put(&mut fields, &[thread]);
    put(&mut fields, &first.to_le_bytes());
    put(&mut fields, &count.to_le_bytes());
    put(&mut fields, &[u8::from(end.is_some())]);
    fields
}

fn put_outcome<const MOST: usize>(fields: &mut ArrayVec<u8, MOST>, outcome: &Outcome)
    requires { array_vec_len fields.old + 9 ≤ MOST }
    ensures put { fields.new.items ≡ fields.old.items ++ outcome_bytes outcome.now }
    ensures fits { FitsOutcome outcome.now }
{
    match *outcome {
        Outcome::Running => put(fields, &[0]),
        Outcome::Waiting => put(fields, &[1]),
        Outcome::Done(None) => put(fields, &[2]),
        Outcome::Done(Some(Value::I32(bits))) => {
            put(fields, &[3]);
            put(fields, &bits.to_le_bytes());
        }
        Outcome::Done(Some(Value::I64(bits))) => {
            put(fields, &[4]);
            put(fields, &bits.to_le_bytes());
        }
        Outcome::Trapped(trap) => put(fields, &[5, trap.number()]),
    }
}

/// What stands behind a piece's entries.
pub fn end_bytes(end: &Option<End>) -> ArrayVec<u8, 17>
    ensures bytes { result.items ≡ end_bytes end.now }
    ensures fits { FitsEnd end.now }
{
    let mut fields = ArrayVec::new();
    if let Some(end) = end {
        put(&mut fields, &end.steps.to_le_bytes());
        put(&mut fields, &end.places.to_le_bytes());
        put_outcome(&mut fields, &end.outcome);
    }
    fields
}
