ghost use Rattle.std.specs.Prelude.{◌≡◌, ◌<◌, ◌≤◌, ◌+◌, unsigned_abs, false, true, OnOk, OnSome, IfSome, OnErr};
ghost use Rattle.std.specs.List.{AllByRecursion};
ghost use Rattle.binarisation.specs.BinString.{Reads, Writes};
ghost use Rattle.cabac_residual.specs.Block.{is_nonzero, level, level_at, after};
ghost use Rattle.cabac_residual.specs.Contexts.{level_contexts};

use crate::contexts::LEVEL_BASES;
use binarisation::{read_signed, read_ueg, write_signed, write_ueg};
use cabac_engine::{BinSink, BinSource};
use std::alloc::AllocError as Memory;

/// How many levels were met: of magnitude 1, and of a greater one.
#[derive(Clone, Copy)]
pub struct Counts {
    pub ones: u8,
    pub above: u8,
}

/// The counts after a level.
#[inline(always)]
pub fn after(counts: Counts, level: i32) -> Counts
    requires { counts.ones + counts.above < 255 }
    ensures { result ≡ after counts level }
{
    match level.unsigned_abs() {
        0 => counts,
        1 => Counts {
            ones: counts.ones + 1,
            above: counts.above,
        },
        _ => Counts {
            ones: counts.ones,
            above: counts.above + 1,
        },
    }
}

/// The contexts of the bins of coeff_abs_level_minus1.
#[inline(always)]
fn level_contexts(cat: u8, counts: Counts) -> [u16; 5]
    requires cat { cat < 6 }
    requires counts { counts.ones + counts.above < 255 }
    ensures contexts { result ≡ level_contexts cat counts }
    ensures small { AllByRecursion (λ ctx. ctx < 460) result }
{
    let base = LEVEL_BASES[usize::from(cat)];
    let first = if counts.above == 0 {
        u16::from(4.min(1 + counts.ones))
    } else {
        0
    };
    let most = if cat == 3 { 3 } else { 4 };
    let other = base + 5 + u16::from(counts.above.min(most));
    [base + first, other, other, other, other]
}

/// Reads a level other than 0.
#[inline(always)]
pub fn read_level<S: BinSource>(s: &mut S, cat: u8, counts: Counts) -> Option<i32>
    requires going { S.over s.old ≡ false }
    requires cat { cat < 6 }
    requires counts { counts.ones + counts.above < 255 }
    ensures reads { Reads S.step (level cat counts) result s.old s.new }
    ensures going { OnSome result (S.over s.new ≡ false) }
{
    let less = read_ueg(s, &level_contexts(cat, counts), 14, 0, 16)?;
    read_signed(s, less + 1, 65535)
}

/// Writes a level other than 0.
#[inline(always)]
fn write_level<S: BinSink>(s: &mut S, cat: u8, counts: Counts, value: i32) -> Result<(), Memory>
    requires going { S.over s.old ≡ false }
    requires cat { cat < 6 }
    requires counts { counts.ones + counts.above < 255 }
    requires some { 0 < unsigned_abs value }
    requires small { unsigned_abs value ≤ 65535 }
    ensures writes { OnOk result (Writes S.step (level cat counts) value s.old s.new) }
    ensures going { OnOk result (S.over s.new ≡ false) }
    ensures err { OnErr result (S.over s.new ≡ true) }
{
    let magnitude = value.unsigned_abs();
    write_ueg(s, &level_contexts(cat, counts), 14, 0, 16, magnitude - 1)?;
    write_signed(s, magnitude, 65535, value < 0)
}

/// Writes the level at a place, which has no bins where it is 0.
#[inline(always)]
pub fn write_level_at<S: BinSink>(
    s: &mut S,
    cat: u8,
    counts: Counts,
    value: i32,
) -> Result<(), Memory>
    requires going { S.over s.old ≡ false }
    requires cat { cat < 6 }
    requires counts { counts.ones + counts.above < 255 }
    requires small { unsigned_abs value ≤ 65535 }
    ensures writes { OnOk result (Writes S.step (level_at cat counts (is_nonzero value)) value s.old s.new) }
    ensures going { OnOk result (S.over s.new ≡ false) }
    ensures err { OnErr result (S.over s.new ≡ true) }
{
    if value.unsigned_abs() == 0 {
        return Ok(());
    }
    write_level(s, cat, counts, value)
}
