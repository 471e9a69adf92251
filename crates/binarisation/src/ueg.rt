ghost use Rattle.std.specs.Prelude.{◌≡◌, ◌<◌, ◌≤◌, ◌+◌, ◌^◌, false, true, IfSome, OnOk, OnSome, OnErr};
ghost use Rattle.std.specs.List.{AllByRecursion};
ghost use Rattle.binarisation.specs.BinString.{Reads, Writes};
ghost use Rattle.binarisation.specs.Codes.{ueg_behind, ueg, signed_of, signed};

use crate::codes::{read_suffix, read_unary, write_suffix, write_unary};
use cabac_engine::{BinSink, BinSource};
use std::alloc::AllocError as Memory;

/// Reads ones, at most `prefix`, and behind all of them a suffix of this order with fewer than `most` ones (9.3.2.3).
#[inline(always)]
pub fn read_ueg<S: BinSource>(
    s: &mut S,
    contexts: &[u16; 5],
    prefix: u8,
    order: u8,
    most: u8,
) -> Option<u32>
    requires going { S.over s.old ≡ false }
    requires contexts { AllByRecursion (λ ctx. ctx < 460) contexts.now }
    requires prefix { prefix ≤ 14 }
    requires most { order + most ≤ 16 }
    ensures reads { Reads S.step (ueg contexts.now prefix order most) result s.old s.new }
    ensures going { OnSome result (S.over s.new ≡ false) }
    ensures small { IfSome result (λ value. value < 2 ^ 17) }
{
    let count = read_unary(s, contexts, prefix)?;
    read_ueg_behind(s, prefix, order, most, count)
}

/// Reads what follows so many ones.
#[inline(always)]
fn read_ueg_behind<S: BinSource>(
    s: &mut S,
    prefix: u8,
    order: u8,
    most: u8,
    count: u8,
) -> Option<u32>
    requires going { S.over s.old ≡ false }
    requires prefix { prefix ≤ 14 }
    requires most { order + most ≤ 16 }
    ensures reads { Reads S.step (ueg_behind prefix order most count) result s.old s.new }
    ensures going { OnSome result (S.over s.new ≡ false) }
    ensures small { IfSome result (λ value. value < 2 ^ 17) }
{
    if count < prefix {
        return Some(u32::from(count));
    }
    let more = read_suffix(s, order, most)?;
    Some(u32::from(prefix) + more)
}

/// Writes a number as ones, at most `prefix`, and behind all of them a suffix of this order.
#[inline(always)]
pub fn write_ueg<S: BinSink>(
    s: &mut S,
    contexts: &[u16; 5],
    prefix: u8,
    order: u8,
    most: u8,
    value: u32,
) -> Result<(), Memory>
    requires going { S.over s.old ≡ false }
    requires contexts { AllByRecursion (λ ctx. ctx < 460) contexts.now }
    requires prefix { prefix ≤ 14 }
    requires most { order + most ≤ 16 }
    requires value { value + 2 ^ order < prefix + 2 ^ (order + most) }
    ensures writes { OnOk result (Writes S.step (ueg contexts.now prefix order most) value s.old s.new) }
    ensures going { OnOk result (S.over s.new ≡ false) }
    ensures err { OnErr result (S.over s.new ≡ true) }
{
    if value < u32::from(prefix) {
        return write_unary(s, contexts, prefix, value as u8);
    }
    write_unary(s, contexts, prefix, prefix)?;
    write_suffix(s, order, most, value - u32::from(prefix))
}

/// Reads the sign of a number of this magnitude, which 0 doesn't have. Magnitudes above the greatest are of no value.
#[tactic(auto, unfolding(crate::specs::Codes::signed))]
#[inline(always)]
pub fn read_signed<S: BinSource>(s: &mut S, magnitude: u32, greatest: u32) -> Option<i32>
    requires going { S.over s.old ≡ false }
    requires greatest { greatest ≤ 65535 }
    ensures reads { Reads S.step (signed greatest magnitude) result s.old s.new }
    ensures going { OnSome result (S.over s.new ≡ false) }
{
    if magnitude == 0 {
        return Some(0);
    }
    if magnitude > greatest {
        return None;
    }
    let value = magnitude as i32;
    Some(if s.bypass()? { -value } else { value })
}

/// Writes the sign of a number of this magnitude, which 0 doesn't have.
#[tactic(auto, unfolding(crate::specs::Codes::signed))]
#[inline(always)]
pub fn write_signed<S: BinSink>(
    s: &mut S,
    magnitude: u32,
    greatest: u32,
    minus: bool,
) -> Result<(), Memory>
    requires going { S.over s.old ≡ false }
    requires magnitude { magnitude ≤ greatest }
    ensures writes { OnOk result (Writes S.step (signed greatest magnitude) (signed_of magnitude minus) s.old s.new) }
    ensures going { OnOk result (S.over s.new ≡ false) }
    ensures err { OnErr result (S.over s.new ≡ true) }
{
    if magnitude == 0 {
        return Ok(());
    }
    s.bypass(minus)
}
