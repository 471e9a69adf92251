ghost use Rattle.std.specs.Prelude.{◌≡◌, ◌<◌, ◌≤◌, ◌+◌, ◌-◌, ◌*◌, ◌^◌, ℕ, false, true, OnOk, OnSome, IfSome, OnErr, length};
ghost use Rattle.std.specs.List.{AllByRecursion};
ghost use Rattle.binarisation.specs.BinString.{Reads, Writes};
ghost use Rattle.binarisation.specs.Codes.{unary, up_to_two, low_bits, suffix};

use cabac_engine::{BinSink, BinSource};
use std::alloc::AllocError as Memory;

/// Reads 0, 10 or 11, for 0 to 2.
#[tactic(auto, unfolding(crate::specs::Codes::up_to_two))]
pub fn read_up_to_two<S: BinSource>(s: &mut S, first: u16, second: u16) -> Option<u8>
    requires going { S.over s.old ≡ false }
    requires first { first < 460 }
    requires second { second < 460 }
    ensures reads { Reads S.step (up_to_two first second) result s.old s.new }
    ensures going { OnSome result (S.over s.new ≡ false) }
    ensures value { IfSome result (λ value. value ≤ 2) }
{
    if !s.bin(first)? {
        return Some(0);
    }
    Some(if s.bin(second)? { 2 } else { 1 })
}

/// Writes 0, 10 or 11.
#[tactic(auto, unfolding(crate::specs::Codes::up_to_two))]
pub fn write_up_to_two<S: BinSink>(
    s: &mut S,
    first: u16,
    second: u16,
    value: u8,
) -> Result<(), Memory>
    requires going { S.over s.old ≡ false }
    requires first { first < 460 }
    requires second { second < 460 }
    requires value { value ≤ 2 }
    ensures writes { OnOk result (Writes S.step (up_to_two first second) value s.old s.new) }
    ensures going { OnOk result (S.over s.new ≡ false) }
    ensures err { OnErr result (S.over s.new ≡ true) }
{
    s.bin(first, value != 0)?;
    if value == 0 {
        return Ok(());
    }
    s.bin(second, value == 2)
}

/// Reads ones, at most `most`, and a zero if there are fewer (9.3.2.2). The last context is that of all further bins.
#[inline(always)]
pub fn read_unary<S: BinSource>(s: &mut S, contexts: &[u16; 5], most: u8) -> Option<u8>
    requires going { S.over s.old ≡ false }
    requires contexts { AllByRecursion (λ ctx. ctx < 460) contexts.now }
    ensures reads { Reads S.step (unary contexts.now most) result s.old s.new }
    ensures going { OnSome result (S.over s.new ≡ false) }
    ensures most { IfSome result (λ count. count ≤ most) }
{
    for count in 0..most {
        if !s.bin(contexts[usize::from(count.min(4))])? {
            return Some(count);
        }
    }
    Some(most)
}

/// Writes that many ones, and a zero if there are fewer than `most`.
#[inline(always)]
pub fn write_unary<S: BinSink>(
    s: &mut S,
    contexts: &[u16; 5],
    most: u8,
    count: u8,
) -> Result<(), Memory>
    requires going { S.over s.old ≡ false }
    requires contexts { AllByRecursion (λ ctx. ctx < 460) contexts.now }
    requires count { count ≤ most }
    ensures writes { OnOk result (Writes S.step (unary contexts.now most) count s.old s.new) }
    ensures going { OnOk result (S.over s.new ≡ false) }
    ensures err { OnErr result (S.over s.new ≡ true) }
{
    for place in 0..count {
        s.bin(contexts[usize::from(place.min(4))], true)?;
    }
    if count < most {
        s.bin(contexts[usize::from(count.min(4))], false)?;
    }
    Ok(())
}

/// Reads n bits in bypass, the highest first.
fn read_low_bits<S: BinSource>(s: &mut S, n: u8) -> Option<u32>
    requires going { S.over s.old ≡ false }
    requires n { n ≤ 16 }
    ensures reads { Reads S.step (low_bits 0 n) result s.old s.new }
    ensures going { OnSome result (S.over s.new ≡ false) }
    ensures small { IfSome result (λ value. value < 2 ^ n) }
{
    let mut value = 0u32;
    for _i in 0..n {
        let one = s.bypass()?;
        value = 2 * value + u32::from(one);
    }
    Some(value)
}

/// Writes the lowest n bits in bypass, the highest first.
fn write_low_bits<S: BinSink>(s: &mut S, n: u8, value: u32) -> Result<(), Memory>
    requires going { S.over s.old ≡ false }
    requires n { n ≤ 16 }
    requires value { value < 2 ^ n }
    ensures writes { OnOk result (Writes S.step (low_bits 0 n) value s.old s.new) }
    ensures going { OnOk result (S.over s.new ≡ false) }
    ensures err { OnErr result (S.over s.new ≡ true) }
{
    for i in 0..n {
        s.bypass((value >> (n - 1 - i)) % 2 == 1)?;
    }
    Ok(())
}

fn power_of_two(k: u8) -> u32
    requires { k ≤ 16 }
    ensures { result ≡ 2 ^ k }
{
    1 << k
}

/// Reads an Exp-Golomb suffix of this order with fewer than `most` ones (9.3.2.3). None is also answered at more ones.
#[cold]
pub fn read_suffix<S: BinSource>(s: &mut S, order: u8, most: u8) -> Option<u32>
    requires going { S.over s.old ≡ false }
    requires most { order + most ≤ 16 }
    ensures reads { Reads S.step (suffix order most) result s.old s.new }
    ensures going { OnSome result (S.over s.new ≡ false) }
    ensures small { IfSome result (λ value. value + 2 ^ order < 2 ^ (order + most)) }
{
    let mut base = 0u32;
    for k in order..order + most {
        let one = s.bypass()?;
        if !one {
            let low = read_low_bits(s, k)?;
            return Some(base + low);
        }
        base += power_of_two(k);
    }
    None
}

/// Writes an Exp-Golomb suffix of this order.
#[cold]
pub fn write_suffix<S: BinSink>(s: &mut S, order: u8, most: u8, value: u32) -> Result<(), Memory>
    requires going { S.over s.old ≡ false }
    requires most { order + most ≤ 16 }
    requires value { value + 2 ^ order < 2 ^ (order + most) }
    ensures writes { OnOk result (Writes S.step (suffix order most) value s.old s.new) }
    ensures going { OnOk result (S.over s.new ≡ false) }
    ensures err { OnErr result (S.over s.new ≡ true) }
{
    let mut base = 0u32;
    for k in order..order + most {
        if value - base < power_of_two(k) {
            s.bypass(false)?;
            return write_low_bits(s, k, value - base);
        }
        s.bypass(true)?;
        base += power_of_two(k);
    }
    unreachable!()
}
