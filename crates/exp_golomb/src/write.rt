ghost use Rattle.std.specs.Prelude.{◌≡◌, ◌≤◌, ◌<◌, ◌^◌, pos, negsuc, ◌≤ℤ◌, List, Bool};
ghost use Rattle.bit_texts.specs.Bits.{binary};
ghost use Rattle.bit_texts.specs.Texts.{Appends};
ghost use Rattle.exp_golomb.specs.Code.{ue, te, se, place_of};

use crate::sink::BitSink;
use std::alloc::AllocError as Memory;

/// u(n) (7.2): appends the n bits of a value below 2^n. Want of memory leaves a front of them appended.
pub fn write_u<B: BitSink>(b: &mut B, value: u32, n: u8) -> Result<(), Memory>
    requires count { n ≤ 32 }
    requires fits { value < 2 ^ n }
    ensures { Appends (B.bits b.old) (B.bits b.new) (binary n value) result }
{
    b.put_bits(u64::from(value), n)
}

/// ue(v) (9.1): appends the code of a value of at most 2^32 - 2. Want of memory leaves a front of it appended.
pub fn write_ue<B: BitSink>(b: &mut B, value: u32) -> Result<(), Memory>
    requires { value ≤ 4294967294 }
    ensures { Appends (B.bits b.old) (B.bits b.new) (ue value) result }
{
    let more = value + 1;
    let zeros = more.ilog2() as u8;
    b.put_bits(u64::from(more), 2 * zeros + 1)
}

/// te(v) (9.1), of values from 0 to `max`: appends the code. Want of memory leaves a front of it appended.
pub fn write_te<B: BitSink>(b: &mut B, value: u32, max: u32) -> Result<(), Memory>
    requires least { 1 ≤ max }
    requires most { max ≤ 4294967294 }
    requires in_range { value ≤ max }
    ensures { Appends (B.bits b.old) (B.bits b.new) (te max value) result }
{
    if max == 1 {
        return b.put(value == 0);
    }
    write_ue(b, value)
}

/// se(v) (9.1): appends the code of a value. Want of memory leaves a front of it appended.
pub fn write_se<B: BitSink>(b: &mut B, value: i32) -> Result<(), Memory>
    requires { negsuc 2147483646 ≤ℤ value }
    ensures { Appends (B.bits b.old) (B.bits b.new) (se value) result }
{
    write_ue(b, place_of_value(value))
}

/// The place of a signed value in 0, 1, -1, 2, -2 .. (Table 9-3)
fn place_of_value(value: i32) -> u32
    requires { negsuc 2147483646 ≤ℤ value }
    ensures place { result ≡ place_of value }
    ensures most { result ≤ 4294967294 }
{
    let twice = 2 * value.unsigned_abs();
    if value > 0 { twice - 1 } else { twice }
}
