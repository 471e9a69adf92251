ghost use Rattle.std.specs.Prelude.{◌≡◌, ◌<◌, ◌≤◌, ◌++◌, IfSome, IfNone};
ghost use Rattle.bit_texts.specs.Texts.{Reads, Appends};
ghost use Rattle.cavlc_residual.specs.Level.{prefix_bits, suffix_size, level_code, level_word, word_bits, IsLevelWord};

use exp_golomb::{BitSink, BitSource};
use std::alloc::AllocError as Memory;

/// The number of bits of level_suffix.
fn size_of_suffix(suffix_length: u8, prefix: u8) -> u8
    requires small { suffix_length ≤ 6 }
    requires within { prefix ≤ 20 }
    ensures size { result ≡ suffix_size suffix_length prefix }
    ensures small { result ≤ 17 }
{
    if prefix < 14 {
        return suffix_length;
    }
    size_of_long_suffix(suffix_length, prefix)
}

/// The number of bits of level_suffix behind a level_prefix from 14 on.
#[cold]
#[inline(never)]
fn size_of_long_suffix(suffix_length: u8, prefix: u8) -> u8
    requires small { suffix_length ≤ 6 }
    requires within { prefix ≤ 20 }
    ensures size { result ≡ suffix_size suffix_length prefix }
    ensures small { result ≤ 17 }
{
    if prefix >= 15 {
        prefix - 3
    } else if prefix == 14 && suffix_length == 0 {
        4
    } else {
        suffix_length
    }
}

/// Reads level_prefix and level_suffix.
pub fn read_level<B: BitSource>(b: &mut B, suffix_length: u8, bound: u8) -> Option<(u8, u32)>
    requires small { suffix_length ≤ 6 }
    requires within { bound ≤ 20 }
    ensures reads { Reads (IsLevelWord suffix_length bound) (word_bits suffix_length) (B.left b.old) result (B.left b.new) }
    ensures kept { B.taken b.new ++ B.left b.new ≡ B.taken b.old ++ B.left b.old }
{
    let window = b.window();
    let prefix = window.leading_zeros() as u8;
    if prefix > bound {
        return None;
    }
    let size = size_of_suffix(suffix_length, prefix);
    let length = prefix + 1 + size;
    if !b.skip(length) {
        return None;
    }
    let suffix = (window >> (64 - length)) % (1 << size);
    Some((prefix, suffix as u32))
}

/// levelCode of a level_prefix and a level_suffix.
pub fn code_of_level(suffix_length: u8, prefix: u8, suffix: u32) -> u32
    requires small { suffix_length ≤ 6 }
    requires is_word { IsLevelWord suffix_length 20 (prefix, suffix) }
    ensures { result ≡ level_code suffix_length prefix suffix }
{
    if prefix < 15 {
        return (u32::from(prefix) << suffix_length) + suffix;
    }
    code_of_escape(suffix_length, prefix, suffix)
}

/// levelCode of a level_prefix from 15 on and a level_suffix.
#[cold]
#[inline(never)]
fn code_of_escape(suffix_length: u8, prefix: u8, suffix: u32) -> u32
    requires small { suffix_length ≤ 6 }
    requires is_word { IsLevelWord suffix_length 20 (prefix, suffix) }
    requires long { 15 ≤ prefix }
    ensures { result ≡ level_code suffix_length prefix suffix }
{
    let mut code = (15 << suffix_length) + suffix;
    if suffix_length == 0 {
        code += 15;
    }
    if prefix >= 16 {
        code += (1 << (prefix - 3)) - 4096;
    }
    code
}

/// The level_prefix and level_suffix of a levelCode. None exactly where the prefix would be
/// above `bound`. Each prefix below 14 is that of 2^suffix_length codes; those from 14 on are searched.
pub fn level_of_code(suffix_length: u8, code: u32, bound: u8) -> Option<(u8, u32)>
    requires small { suffix_length ≤ 6 }
    requires within { bound ≤ 20 }
    ensures found { IfSome result (λ w. (w ≡ level_word suffix_length code) × IsLevelWord suffix_length bound w) }
    ensures beyond { IfNone result (bound < (level_word suffix_length code).0) }
{
    if code < 14 << suffix_length {
        let prefix = (code >> suffix_length) as u8;
        if prefix > bound {
            return None;
        }
        return Some((prefix, code % (1 << suffix_length)));
    }
    let mut rest = code - (14 << suffix_length);
    for prefix in 14..bound + 1 {
        let codes = 1 << size_of_suffix(suffix_length, prefix);
        if rest < codes {
            return Some((prefix, rest));
        }
        rest -= codes;
    }
    None
}

/// Appends level_prefix and level_suffix of a levelCode. Each prefix below 14 is that of 2^suffix_length codes.
pub fn write_level<B: BitSink>(b: &mut B, suffix_length: u8, code: u32) -> Result<(), Memory>
    requires small { suffix_length ≤ 6 }
    requires within { (level_word suffix_length code).0 ≤ 20 }
    ensures { Appends (B.bits b.old) (B.bits b.new) (word_bits suffix_length (level_word suffix_length code)) result }
{
    let prefix = code >> suffix_length;
    if prefix > 13 {
        return write_long_level(b, suffix_length, code);
    }
    let codes = 1u32 << suffix_length;
    b.put_bits(
        u64::from(codes + code % codes),
        prefix as u8 + 1 + suffix_length,
    )
}

/// The same of a levelCode whose level_prefix is 14 or more.
#[cold]
#[inline(never)]
fn write_long_level<B: BitSink>(b: &mut B, suffix_length: u8, code: u32) -> Result<(), Memory>
    requires small { suffix_length ≤ 6 }
    requires within { (level_word suffix_length code).0 ≤ 20 }
    ensures { Appends (B.bits b.old) (B.bits b.new) (word_bits suffix_length (level_word suffix_length code)) result }
{
    let Some((prefix, suffix)) = level_of_code(suffix_length, code, 20) else {
        unreachable!();
    };
    let size = size_of_suffix(suffix_length, prefix);
    b.put_bits((1 << size) + u64::from(suffix), prefix + 1 + size)
}
