ghost use Rattle.std.specs.Prelude.{◌≡◌, ◌<◌, ◌≤◌, ◌≤ℤ◌, ℕ, ◌+◌, pos, negsuc, ◌==◌, false, true, IfSome, OnOk, OnSome, OnErr};
ghost use Rattle.binarisation.specs.BinString.{Reads, Writes};
ghost use Rattle.exp_golomb.specs.Code.{place_of};
ghost use Rattle.binarisation.specs.Elements.{mode, chroma_mode, index_of, ref_idx, delta, qp_delta, pattern_chroma};

use crate::codes::{read_unary, read_up_to_two, write_unary, write_up_to_two};
use cabac_engine::{BinSink, BinSource};
use std::alloc::AllocError as Memory;

/// Reads rem_intra4x4_pred_mode, 0 to 7.
pub fn read_mode<S: BinSource>(s: &mut S) -> Option<u8>
    requires going { S.over s.old ≡ false }
    ensures reads { Reads S.step mode result s.old s.new }
    ensures going { OnSome result (S.over s.new ≡ false) }
    ensures mode { IfSome result (λ value. value ≤ 7) }
{
    let low = s.bin(69)?;
    let middle = s.bin(69)?;
    let high = s.bin(69)?;
    Some(u8::from(low) + 2 * u8::from(middle) + 4 * u8::from(high))
}

/// Writes rem_intra4x4_pred_mode.
pub fn write_mode<S: BinSink>(s: &mut S, value: u8) -> Result<(), Memory>
    requires going { S.over s.old ≡ false }
    requires value { value ≤ 7 }
    ensures writes { OnOk result (Writes S.step mode value s.old s.new) }
    ensures going { OnOk result (S.over s.new ≡ false) }
    ensures err { OnErr result (S.over s.new ≡ true) }
{
    s.bin(69, value % 2 == 1)?;
    s.bin(69, value / 2 % 2 == 1)?;
    s.bin(69, value / 4 == 1)
}

/// Reads intra_chroma_pred_mode, 0 to 3.
pub fn read_chroma_mode<S: BinSource>(s: &mut S, inc: u8) -> Option<u8>
    requires going { S.over s.old ≡ false }
    requires inc { inc ≤ 2 }
    ensures reads { Reads S.step (chroma_mode inc) result s.old s.new }
    ensures going { OnSome result (S.over s.new ≡ false) }
    ensures mode { IfSome result (λ value. value ≤ 3) }
{
    read_unary(s, &[64 + u16::from(inc), 67, 67, 67, 67], 3)
}

/// Writes intra_chroma_pred_mode.
pub fn write_chroma_mode<S: BinSink>(s: &mut S, inc: u8, value: u8) -> Result<(), Memory>
    requires going { S.over s.old ≡ false }
    requires inc { inc ≤ 2 }
    requires value { value ≤ 3 }
    ensures writes { OnOk result (Writes S.step (chroma_mode inc) value s.old s.new) }
    ensures going { OnOk result (S.over s.new ≡ false) }
    ensures err { OnErr result (S.over s.new ≡ true) }
{
    write_unary(s, &[64 + u16::from(inc), 67, 67, 67, 67], 3, value)
}

/// Reads ref_idx_l0 or ref_idx_l1, 0 to 31. More ones are of no value.
pub fn read_ref_idx<S: BinSource>(s: &mut S, inc: u8) -> Option<u8>
    requires going { S.over s.old ≡ false }
    requires inc { inc ≤ 3 }
    ensures reads { Reads S.step (ref_idx inc) result s.old s.new }
    ensures going { OnSome result (S.over s.new ≡ false) }
    ensures value { IfSome result (λ value. value ≤ 31) }
{
    let count = read_unary(s, &[54 + u16::from(inc), 58, 59, 59, 59], 32)?;
    index_of(count)
}

/// The ref_idx of so many ones.
fn index_of(count: u8) -> Option<u8>
    ensures value { result ≡ index_of count }
    ensures most { IfSome result (λ value. value ≤ 31) }
{
    if count < 32 { Some(count) } else { None }
}

/// Writes ref_idx_l0 or ref_idx_l1.
pub fn write_ref_idx<S: BinSink>(s: &mut S, inc: u8, value: u8) -> Result<(), Memory>
    requires going { S.over s.old ≡ false }
    requires inc { inc ≤ 3 }
    requires value { value ≤ 31 }
    ensures writes { OnOk result (Writes S.step (ref_idx inc) value s.old s.new) }
    ensures going { OnOk result (S.over s.new ≡ false) }
    ensures err { OnErr result (S.over s.new ≡ true) }
{
    write_unary(s, &[54 + u16::from(inc), 58, 59, 59, 59], 32, value)
}

/// Reads mb_qp_delta, -26 to 25.
pub fn read_qp_delta<S: BinSource>(s: &mut S, inc: u8) -> Option<i8>
    requires going { S.over s.old ≡ false }
    requires inc { inc ≤ 1 }
    ensures reads { Reads S.step (qp_delta inc) result s.old s.new }
    ensures going { OnSome result (S.over s.new ≡ false) }
{
    let count = read_unary(s, &[60 + u16::from(inc), 62, 63, 63, 63], 53)?;
    delta_of(count)
}

/// The mb_qp_delta that has this number among 0, 1, -1, 2, -2 and so on (9.1.1).
fn delta_of(count: u8) -> Option<i8>
    requires { count ≤ 53 }
    ensures { result ≡ delta count }
{
    if count == 51 || count == 53 {
        return None;
    }
    let half = (count / 2) as i8;
    Some(if count % 2 == 1 { half + 1 } else { -half })
}

/// The place of an mb_qp_delta among 0, 1, -1, 2, -2 and so on.
fn place_of(value: i8) -> u8
    requires least { negsuc 25 ≤ℤ value }
    requires greatest { value ≤ℤ pos 25 }
    ensures { result ≡ place_of value }
{
    let twice = 2 * value.unsigned_abs();
    if value > 0 { twice - 1 } else { twice }
}

/// Writes mb_qp_delta.
pub fn write_qp_delta<S: BinSink>(s: &mut S, inc: u8, value: i8) -> Result<(), Memory>
    requires going { S.over s.old ≡ false }
    requires inc { inc ≤ 1 }
    requires least { negsuc 25 ≤ℤ value }
    requires greatest { value ≤ℤ pos 25 }
    ensures writes { OnOk result (Writes S.step (qp_delta inc) value s.old s.new) }
    ensures going { OnOk result (S.over s.new ≡ false) }
    ensures err { OnErr result (S.over s.new ≡ true) }
{
    write_unary(
        s,
        &[60 + u16::from(inc), 62, 63, 63, 63],
        53,
        place_of(value),
    )
}

/// Reads the chroma of coded_block_pattern, 0 to 2; `first` and `second` are the increments of its bins.
pub fn read_pattern_chroma<S: BinSource>(s: &mut S, first: u8, second: u8) -> Option<u8>
    requires going { S.over s.old ≡ false }
    requires first { first ≤ 3 }
    requires second { second ≤ 3 }
    ensures reads { Reads S.step (pattern_chroma first second) result s.old s.new }
    ensures going { OnSome result (S.over s.new ≡ false) }
    ensures value { IfSome result (λ value. value ≤ 2) }
{
    read_up_to_two(s, 77 + u16::from(first), 81 + u16::from(second))
}

/// Writes the chroma of coded_block_pattern.
pub fn write_pattern_chroma<S: BinSink>(
    s: &mut S,
    first: u8,
    second: u8,
    value: u8,
) -> Result<(), Memory>
    requires going { S.over s.old ≡ false }
    requires first { first ≤ 3 }
    requires second { second ≤ 3 }
    requires value { value ≤ 2 }
    ensures writes { OnOk result (Writes S.step (pattern_chroma first second) value s.old s.new) }
    ensures going { OnOk result (S.over s.new ≡ false) }
    ensures err { OnErr result (S.over s.new ≡ true) }
{
    write_up_to_two(s, 77 + u16::from(first), 81 + u16::from(second), value)
}
