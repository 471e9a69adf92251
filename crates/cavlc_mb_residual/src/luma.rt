ghost use Rattle.std.specs.Prelude.{◌≡◌, ◌≢◌, ◌⊎◌, ◌+◌, ◌<◌, ◌≤◌, ◌/◌, ◌++◌, ℕ, length, option_map, IfSome};
ghost use Rattle.arrayvec.specs.ArrayVec.{array_vec_len};
ghost use Rattle.bit_texts.specs.Bits.{bit};
ghost use Rattle.bit_texts.specs.Texts.{Reads, Appends};
ghost use Rattle.h264_types.specs.Macroblock.{luma_block};
ghost use Rattle.cavlc_mb_residual.specs.Counts.{AreSides, AreSmall};
ghost use Rattle.cavlc_mb_residual.specs.Residual.{counted, IsLumaBlock, luma_block_text, AreLumaBlocks, luma_text};
ghost use Rattle.cavlc_mb_residual.specs.LumaBlocks.{sixteen, sent_block, luma_blocks};

use crate::counts::{Sides, count_levels};
use crate::lists::{read_list, write_counted};
use crate::nc::nc;
use crate::transform_8x8::{every_fourth, place_lists};
use arrayvec::ArrayVec;
use exp_golomb::{BitSink, BitSource};
use h264_types::Mb;
use mb_neighbours::At;
use std::alloc::AllocError as Memory;

/// What the luma blocks so far count.
type LumaCounts = ArrayVec<u8, 16>;

/// Whether luma block n is sent under this pattern.
fn is_block_coded(luma: u8, n: u8) -> bool
    requires { n < 16 }
    ensures { result ≡ bit luma (n / 4) }
{
    luma >> (n / 4) & 1 == 1
}

/// Reads the luma block that follows those of `counts`.
fn read_luma_block<B: BitSource>(
    bits: &mut B,
    sides: &Sides,
    luma: u8,
    max: u8,
    bound: u8,
    counts: &mut LumaCounts,
    mb: &mut Mb,
) -> Option<()>
    requires sides { AreSides sides.now }
    requires max { (max ≡ 15) ⊎ (max ≡ 16) }
    requires within { bound ≤ 20 }
    requires room { array_vec_len counts.old < 16 }
    requires small { AreSmall counts.old.items }
    ensures reads { Reads (IsLumaBlock luma max bound counts.old.items) (luma_block_text sides.now luma max counts.old.items) (B.left bits.old) (option_map (λ _. luma_block mb.new (array_vec_len counts.old)) result) (B.left bits.new) }
    ensures counts { IfSome result (λ _. counts.new.items ≡ counted counts.old.items (luma_block mb.new (array_vec_len counts.old))) }
    ensures small { IfSome result (λ _. AreSmall counts.new.items) }
    ensures len { IfSome result (λ _. array_vec_len counts.new ≡ array_vec_len counts.old + 1) }
    ensures others { (m : ℕ) → m < 16 → m ≢ array_vec_len counts.old → luma_block mb.new m ≡ luma_block mb.old m }
    ensures rest { mb.new ≡ record mb.old { luma = mb.new.luma } }
    ensures kept { B.taken bits.new ++ B.left bits.new ≡ B.taken bits.old ++ B.left bits.old }
{
    let n = counts.len() as u8;
    let coded = is_block_coded(luma, n);
    let mut block = [0i32; 16];
    if !coded {
        mb.set_block(n, &block);
        counts.push(0);
        return Some(());
    }
    let nc = nc(sides, counts.as_slice(), At::Luma4(n));
    let total = read_list(bits, coded, nc, &mut block[..usize::from(max)], bound)?;
    mb.set_block(n, &block);
    counts.push(total);
    Some(())
}

/// Reads the lists of the luma blocks, of `max` levels each, one after another.
fn read_luma_lists<B: BitSource>(
    bits: &mut B,
    sides: &Sides,
    luma: u8,
    max: u8,
    bound: u8,
    mb: &mut Mb,
) -> Option<()>
    requires sides { AreSides sides.now }
    requires max { (max ≡ 15) ⊎ (max ≡ 16) }
    requires within { bound ≤ 20 }
    ensures reads { Reads (AreLumaBlocks luma max bound) (luma_text sides.now luma max) (B.left bits.old) (option_map (λ _. sixteen (luma_block mb.new)) result) (B.left bits.new) }
    ensures rest { mb.new ≡ record mb.old { luma = mb.new.luma } }
    ensures kept { B.taken bits.new ++ B.left bits.new ≡ B.taken bits.old ++ B.left bits.old }
{
    let mut counts = LumaCounts::new();
    for _n in 0..16u8 {
        read_luma_block(bits, sides, luma, max, bound, &mut counts, mb)?;
    }
    Some(())
}

/// Reads the luma blocks, of lists of `max` levels. Those of quarter q are sent where bit q of `luma` is 1.
pub fn read_luma<B: BitSource>(
    bits: &mut B,
    sides: &Sides,
    luma: u8,
    max: u8,
    bound: u8,
    mb: &mut Mb,
) -> Option<()>
    requires sides { AreSides sides.now }
    requires max { (max ≡ 15) ⊎ (max ≡ 16) }
    requires within { bound ≤ 20 }
    ensures reads { Reads (AreLumaBlocks luma max bound) (luma_text sides.now luma max) (B.left bits.old) (option_map (λ _. luma_blocks mb.new) result) (B.left bits.new) }
    ensures rest { mb.new ≡ record mb.old { luma = mb.new.luma } }
    ensures kept { B.taken bits.new ++ B.left bits.new ≡ B.taken bits.old ++ B.left bits.old }
{
    if luma == 0 {
        mb.luma = [[0; 64]; 4];
        return Some(());
    }
    read_luma_lists(bits, sides, luma, max, bound, mb)?;
    place_lists(mb);
    Some(())
}

/// Appends the text of this list of the luma block that follows those of `counts`.
fn write_luma_list<B: BitSink>(
    bits: &mut B,
    sides: &Sides,
    luma: u8,
    max: u8,
    counts: &mut LumaCounts,
    block: &[i32],
) -> Result<(), Memory>
    requires sides { AreSides sides.now }
    requires max { (max ≡ 15) ⊎ (max ≡ 16) }
    requires room { array_vec_len counts.old < 16 }
    requires small { AreSmall counts.old.items }
    requires size { length block.now ≡ 16 }
    requires block { IsLumaBlock luma max 20 counts.old.items block.now }
    ensures text { Appends (B.bits bits.old) (B.bits bits.new) (luma_block_text sides.now luma max counts.old.items block.now) result }
    ensures counts { counts.new.items ≡ counted counts.old.items block.now }
    ensures small { AreSmall counts.new.items }
    ensures len { array_vec_len counts.new ≡ array_vec_len counts.old + 1 }
{
    let n = counts.len() as u8;
    let coded = is_block_coded(luma, n);
    if !coded {
        counts.push(0);
        return Ok(());
    }
    let nc = nc(sides, counts.as_slice(), At::Luma4(n));
    let total = count_levels(block);
    counts.push(total);
    write_counted(bits, coded, nc, total, &block[..usize::from(max)])
}

/// Appends the text of the luma block that follows those of `counts`.
fn write_luma_block<B: BitSink>(
    bits: &mut B,
    sides: &Sides,
    luma: u8,
    max: u8,
    counts: &mut LumaCounts,
    mb: &Mb,
) -> Result<(), Memory>
    requires sides { AreSides sides.now }
    requires max { (max ≡ 15) ⊎ (max ≡ 16) }
    requires room { array_vec_len counts.old < 16 }
    requires small { AreSmall counts.old.items }
    requires block { IsLumaBlock luma max 20 counts.old.items (sent_block mb.now (array_vec_len counts.old)) }
    ensures text { Appends (B.bits bits.old) (B.bits bits.new) (luma_block_text sides.now luma max counts.old.items (sent_block mb.now (array_vec_len counts.old))) result }
    ensures counts { counts.new.items ≡ counted counts.old.items (sent_block mb.now (array_vec_len counts.old)) }
    ensures small { AreSmall counts.new.items }
    ensures len { array_vec_len counts.new ≡ array_vec_len counts.old + 1 }
{
    let n = counts.len() as u8;
    if mb.t8 {
        let block = every_fourth(&mb.luma[usize::from(n / 4)], usize::from(n % 4));
        return write_luma_list(bits, sides, luma, max, counts, &block);
    }
    write_luma_list(bits, sides, luma, max, counts, mb.block(n))
}

/// Appends the text of the luma blocks.
pub fn write_luma<B: BitSink>(
    bits: &mut B,
    sides: &Sides,
    luma: u8,
    max: u8,
    mb: &Mb,
) -> Result<(), Memory>
    requires sides { AreSides sides.now }
    requires max { (max ≡ 15) ⊎ (max ≡ 16) }
    requires blocks { AreLumaBlocks luma max 20 (luma_blocks mb.now) }
    ensures { Appends (B.bits bits.old) (B.bits bits.new) (luma_text sides.now luma max (luma_blocks mb.now)) result }
{
    if luma == 0 {
        return Ok(());
    }
    let mut counts = LumaCounts::new();
    for _n in 0..16u8 {
        write_luma_block(bits, sides, luma, max, &mut counts, mb)?;
    }
    Ok(())
}
