//! Numbers in LEB128 (WebAssembly Core 1.0, binary format, integers).

ghost use Rattle.std.specs.Prelude.{◌≡◌, ℕ, ℤ, pos, negsuc, ◌+ℤ◌, ◌*ℤ◌, ◌-◌, ◌<◌, ◌≤◌, ◌^◌, ◌⊎◌, length, slice_range, option_map, IfSome, IfNone, nat_lt};
ghost use Rattle.wasm_types.specs.Leb128.{unsigned, signed, FitsBits};
ghost use Rattle.wasm_types.specs.Leb128Reading.{unsigned_at, signed_at, fits_signed};

/// Whether a last byte is within so many bits.
fn is_within(byte: u8, bits: u32) -> bool
    requires { byte < 128 }
    ensures { result ≡ nat_lt byte (2 ^ bits) }
{
    bits >= 7 || byte < 1 << bits
}

/// The unsigned number of so many bits at the front of the bytes, and the bytes behind it. It calls itself nine times
/// at most.
#[tactic(auto, unfolding(crate::specs::Leb128Reading::unsigned_at))]
fn unsigned_front(bytes: &[u8], bits: u32) -> Option<(u64, &[u8])>
    requires { bits ≤ 64 }
    ensures value { option_map (λ x. (x.0, x.1.now)) result ≡ unsigned_at bits bytes.now }
    ensures fits { IfSome result (λ x. x.0 < 2 ^ bits) }
{
    let [byte, rest @ ..] = bytes else {
        return None;
    };
    if *byte < 128 {
        if is_within(*byte, bits) {
            return Some((u64::from(*byte), rest));
        }
        return None;
    }
    if bits <= 7 {
        return None;
    }
    let (high, behind) = unsigned_front(rest, bits - 7)?;
    Some((u64::from(*byte - 128) + 128 * high, behind))
}

/// Whether a last byte, of a number that has a sign, is within so many bits.
fn is_within_signed(byte: u8, bits: u32) -> bool
    requires byte { byte < 128 }
    requires bits { 0 < bits }
    ensures { result ≡ fits_signed byte bits }
{
    bits >= 7
        || (if byte < 64 {
            byte < 1 << (bits - 1)
        } else {
            128 - byte <= 1 << (bits - 1)
        })
}

/// The signed number of so many bits at the front of the bytes, and the bytes behind it. It calls itself nine times at
/// most.
#[tactic(auto, unfolding(crate::specs::Leb128Reading::signed_at))]
fn signed_front(bytes: &[u8], bits: u32) -> Option<(i64, &[u8])>
    requires low { 0 < bits }
    requires high { bits ≤ 64 }
    ensures value { option_map (λ x. (x.0, x.1.now)) result ≡ signed_at bits bytes.now }
    ensures fits { IfSome result (λ x. FitsBits bits x.0) }
{
    let [byte, rest @ ..] = bytes else {
        return None;
    };
    if *byte < 128 {
        if is_within_signed(*byte, bits) {
            let low = i64::from(*byte);
            return Some((if low < 64 { low } else { low - 128 }, rest));
        }
        return None;
    }
    if bits <= 7 {
        return None;
    }
    let (high, behind) = signed_front(rest, bits - 7)?;
    Some((below_high(*byte, high, bits), behind))
}

/// The low seven bits of a byte below a number of seven bits less.
fn below_high(byte: u8, high: i64, bits: u32) -> i64
    requires byte { 128 ≤ byte }
    requires bits { 7 < bits }
    requires most { bits ≤ 64 }
    requires fits { FitsBits (bits - 7) high }
    ensures value { result ≡ pos byte +ℤ negsuc 127 +ℤ (pos 128 *ℤ high) }
    ensures fits { FitsBits bits result }
{
    i64::from(byte) - 128 + 128 * high
}

/// The unsigned number of 32 or 64 bits that stands at a place, and the place behind it; none where no such number
/// stands there. It takes no memory.
pub fn leb_unsigned(bytes: &[u8], at: usize, bits: u32) -> Option<(u64, usize)>
    requires { (bits ≡ 32) ⊎ (bits ≡ 64) }
    ensures found { IfSome result (λ x. (at ≤ x.1) × (x.1 ≤ length bytes.now) × unsigned bits x.0 (slice_range bytes.now at x.1)) }
    ensures fits { IfSome result (λ x. x.0 < 2 ^ bits) }
    ensures none { IfNone result ((n : ℕ) (end : ℕ) → at ≤ end → end ≤ length bytes.now → unsigned bits n (slice_range bytes.now at end) → ⊥) }
{
    if at > bytes.len() {
        return None;
    }
    let (_, from) = bytes.split_at(at);
    let (number, rest) = unsigned_front(from, bits)?;
    Some((number, bytes.len() - rest.len()))
}

/// The signed number of 32 or 64 bits that stands at a place, and the place behind it; none where no such number stands
/// there. It takes no memory.
pub fn leb_signed(bytes: &[u8], at: usize, bits: u32) -> Option<(i64, usize)>
    requires { (bits ≡ 32) ⊎ (bits ≡ 64) }
    ensures found { IfSome result (λ x. (at ≤ x.1) × (x.1 ≤ length bytes.now) × signed bits x.0 (slice_range bytes.now at x.1)) }
    ensures fits { IfSome result (λ x. FitsBits bits x.0) }
    ensures none { IfNone result ((z : ℤ) (end : ℕ) → at ≤ end → end ≤ length bytes.now → signed bits z (slice_range bytes.now at end) → ⊥) }
{
    if at > bytes.len() {
        return None;
    }
    let (_, from) = bytes.split_at(at);
    let (number, rest) = signed_front(from, bits)?;
    Some((number, bytes.len() - rest.len()))
}
