ghost use Rattle.std.specs.Prelude.{◌≡◌, ◌+◌, ◌-◌, ◌<◌, ◌≤◌, ◌++◌, length, take, drop, nat_lt, option_map};
ghost use Rattle.arrayvec.specs.ArrayVec.{array_vec_len};
ghost use Rattle.bit_texts.specs.Texts.{Reads, Appends};
ghost use Rattle.cavlc_residual.specs.Level.{level_word};
ghost use Rattle.cavlc_residual.specs.Coefficients.{magnitude, code_of, next_suffix_length, coefficient_text, IsCoefficient, coefficients_text, AreCoefficients};

use crate::level::{code_of_level, level_of_code, read_level, write_level};
use arrayvec::ArrayVec;
use exp_golomb::{BitSink, BitSource};
use std::alloc::AllocError as Memory;

/// Levels other than 0, from the highest frequency down.
pub type Coefficients = ArrayVec<i32, 16>;

/// The greatest levelCode of a level in range, that of -65535.
const MAX_CODE: u32 = 131_069;

/// The level of a levelCode.
fn level_value(code: u32) -> i32
    requires { code ≤ MAX_CODE }
    ensures code { code_of result ≡ code }
    ensures nonzero { 0 < magnitude result }
    ensures small { magnitude result ≤ 65535 }
{
    let half = (code / 2) as i32;
    if code % 2 == 0 { half + 1 } else { -half - 1 }
}

/// The levelCode of a level.
fn level_code_of(level: i32) -> u32
    requires nonzero { 0 < magnitude level }
    requires small { magnitude level ≤ 65535 }
    ensures { result ≡ code_of level }
{
    if level > 0 {
        2 * level.unsigned_abs() - 2
    } else {
        2 * level.unsigned_abs() - 1
    }
}

/// suffixLength after a level.
pub fn suffix_length_after(suffix_length: u8, level: i32) -> u8
    requires small { suffix_length ≤ 6 }
    ensures next { result ≡ next_suffix_length suffix_length level }
    ensures small { result ≤ 6 }
{
    let length = suffix_length.max(1);
    if level.unsigned_abs() > 3 << (length - 1) && length < 6 {
        length + 1
    } else {
        length
    }
}

/// Reads a level, whose levelCode has `extra` taken off.
pub fn read_coefficient<B: BitSource>(
    b: &mut B,
    suffix_length: u8,
    extra: u8,
    bound: u8,
) -> Option<i32>
    requires small { suffix_length ≤ 6 }
    requires within { bound ≤ 20 }
    ensures reads { Reads (IsCoefficient suffix_length extra bound) (coefficient_text suffix_length extra) (B.left b.old) result (B.left b.new) }
    ensures kept { B.taken b.new ++ B.left b.new ≡ B.taken b.old ++ B.left b.old }
{
    let (prefix, suffix) = read_level(b, suffix_length, bound)?;
    let code = code_of_level(suffix_length, prefix, suffix) + u32::from(extra);
    if code > MAX_CODE {
        return None;
    }
    Some(level_value(code))
}

/// Whether a level, whose levelCode has `extra` taken off, needs a level_prefix above the bound.
pub fn is_prefix_above(level: i32, suffix_length: u8, extra: u8, bound: u8) -> bool
    requires nonzero { 0 < magnitude level }
    requires level_small { magnitude level ≤ 65535 }
    requires small { suffix_length ≤ 6 }
    requires within { bound ≤ 20 }
    ensures { result ≡ nat_lt bound (level_word suffix_length (code_of level - extra)).0 }
{
    let code = level_code_of(level).saturating_sub(u32::from(extra));
    level_of_code(suffix_length, code, bound).is_none()
}

/// Appends a level, whose levelCode has `extra` taken off.
pub fn write_coefficient<B: BitSink>(
    b: &mut B,
    level: i32,
    suffix_length: u8,
    extra: u8,
) -> Result<(), Memory>
    requires small { suffix_length ≤ 6 }
    requires level { IsCoefficient suffix_length extra 20 level }
    ensures { Appends (B.bits b.old) (B.bits b.new) (coefficient_text suffix_length extra level) result }
{
    write_level(b, suffix_length, level_code_of(level) - u32::from(extra))
}

/// Reads `count` levels, the first of which has `extra` taken off its levelCode, and appends them to a list.
#[inline(never)]
pub fn read_coefficients<B: BitSource>(
    b: &mut B,
    count: u8,
    suffix_length: u8,
    extra: u8,
    bound: u8,
    levels: &mut Coefficients,
) -> Option<()>
    requires room { array_vec_len levels.old + count ≤ 16 }
    requires small { suffix_length ≤ 6 }
    requires within { bound ≤ 20 }
    ensures reads { Reads (λ ls. (length ls ≡ count) × AreCoefficients bound suffix_length extra ls) (coefficients_text suffix_length extra) (B.left b.old) (option_map (λ _. drop (array_vec_len levels.old) levels.new.items) result) (B.left b.new) }
    ensures before { take (array_vec_len levels.old) levels.new.items ≡ levels.old.items }
    ensures kept { B.taken b.new ++ B.left b.new ≡ B.taken b.old ++ B.left b.old }
{
    let mut suffix_length = suffix_length;
    let mut extra = extra;
    for _i in 0..count {
        let level = read_coefficient(b, suffix_length, extra, bound)?;
        levels.push(level);
        suffix_length = suffix_length_after(suffix_length, level);
        extra = 0;
    }
    Some(())
}
