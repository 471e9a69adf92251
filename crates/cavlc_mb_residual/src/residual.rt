ghost use Rattle.std.specs.Prelude.{◌≡◌, ◌≤◌, ◌++◌, negsuc, option_map};
ghost use Rattle.bit_texts.specs.Texts.{Reads, Appends};
ghost use Rattle.h264_types.specs.Kind.{is_i_16x16};
ghost use Rattle.h264_types.specs.Macroblock.{pattern_of};
ghost use Rattle.cavlc_mb_residual.specs.Counts.{IsAround};
ghost use Rattle.cavlc_mb_residual.specs.Residual.{IsList, list_text};
ghost use Rattle.cavlc_mb_residual.specs.MacroblockResidual as layer;

use crate::chroma::{read_chroma, write_chroma};
use crate::counts::Around;
use crate::lists::{read_list, write_list};
use crate::luma::{read_luma, write_luma};
use crate::nc::nc;
use exp_golomb::{BitSink, BitSource};
use h264_types::{Mb, has_sizes};
use mb_neighbours::At;
use std::alloc::AllocError as Memory;

/// Reads Intra16x16DCLevel where it is sent, and else puts levels 0.
fn read_luma_dc<B: BitSource>(
    bits: &mut B,
    around: &Around,
    is_16x16: bool,
    bound: u8,
    levels: &mut [i32; 16],
) -> Option<()>
    requires around { IsAround around.now }
    requires within { bound ≤ 20 }
    ensures reads { Reads (IsList is_16x16 16 bound) (layer.luma_dc_text around.now is_16x16) (B.left bits.old) (option_map (λ _. levels.new) result) (B.left bits.new) }
    ensures kept { B.taken bits.new ++ B.left bits.new ≡ B.taken bits.old ++ B.left bits.old }
{
    *levels = [0; 16];
    if !is_16x16 {
        return Some(());
    }
    let nc = nc(&around.luma, &[], At::Luma4(0));
    read_list(bits, is_16x16, nc, levels, bound)?;
    Some(())
}

/// Reads a chroma DC list where it is sent, and else puts levels 0.
fn read_chroma_dc<B: BitSource>(
    bits: &mut B,
    coded: bool,
    bound: u8,
    levels: &mut [i32; 4],
) -> Option<()>
    requires within { bound ≤ 20 }
    ensures reads { Reads (IsList coded 4 bound) (list_text coded (negsuc 0)) (B.left bits.old) (option_map (λ _. levels.new) result) (B.left bits.new) }
    ensures kept { B.taken bits.new ++ B.left bits.new ≡ B.taken bits.old ++ B.left bits.old }
{
    *levels = [0; 4];
    read_list(bits, coded, -1, levels, bound)?;
    Some(())
}

/// How many levels a list of a luma block has.
fn max_levels(is_16x16: bool) -> u8
    ensures { result ≡ layer.max_of is_16x16 }
{
    if is_16x16 { 15 } else { 16 }
}

/// Reads the residual of a macroblock that has its type and pattern (7.3.5.3).
pub fn read_residual<B: BitSource>(
    bits: &mut B,
    around: &Around,
    bound: u8,
    mb: &mut Mb,
) -> Option<()>
    requires around { IsAround around.now }
    requires within { bound ≤ 20 }
    ensures reads { Reads (λ m. layer.IsResidual (is_i_16x16 mb.old.kind) (pattern_of mb.old) bound m × (m ≡ layer.with_residual mb.old m)) (layer.residual_text around.now (is_i_16x16 mb.old.kind) (pattern_of mb.old)) (B.left bits.old) (option_map (λ _. mb.new) result) (B.left bits.new) }
    ensures kept { B.taken bits.new ++ B.left bits.new ≡ B.taken bits.old ++ B.left bits.old }
{
    let is_16x16 = mb.kind.is_i_16x16();
    let pattern = mb.coded_pattern();
    let has_dc = pattern.chroma > 0;
    let has_ac = pattern.chroma == 2;
    let max = max_levels(is_16x16);
    read_luma_dc(bits, around, is_16x16, bound, &mut mb.dc)?;
    read_luma(bits, &around.luma, pattern.luma, max, bound, mb)?;
    read_chroma_dc(bits, has_dc, bound, &mut mb.chroma_dc[0])?;
    read_chroma_dc(bits, has_dc, bound, &mut mb.chroma_dc[1])?;
    read_chroma(bits, &around.cb, has_ac, bound, &mut mb.chroma_ac[0])?;
    read_chroma(bits, &around.cr, has_ac, bound, &mut mb.chroma_ac[1])?;
    has_sizes(mb);
    Some(())
}

/// Appends a chroma DC list where it is sent.
fn write_chroma_dc<B: BitSink>(bits: &mut B, coded: bool, levels: &[i32; 4]) -> Result<(), Memory>
    requires { IsList coded 4 20 levels.now }
    ensures { Appends (B.bits bits.old) (B.bits bits.new) (list_text coded (negsuc 0) levels.now) result }
{
    write_list(bits, coded, -1, levels)
}

/// Appends Intra16x16DCLevel where it is sent.
fn write_luma_dc<B: BitSink>(
    bits: &mut B,
    around: &Around,
    is_16x16: bool,
    levels: &[i32; 16],
) -> Result<(), Memory>
    requires around { IsAround around.now }
    requires list { IsList is_16x16 16 20 levels.now }
    ensures { Appends (B.bits bits.old) (B.bits bits.new) (layer.luma_dc_text around.now is_16x16 levels.now) result }
{
    if !is_16x16 {
        return Ok(());
    }
    let nc = nc(&around.luma, &[], At::Luma4(0));
    write_list(bits, is_16x16, nc, levels)
}

/// Appends the residual of a macroblock.
pub fn write_residual<B: BitSink>(bits: &mut B, around: &Around, mb: &Mb) -> Result<(), Memory>
    requires around { IsAround around.now }
    requires residual { layer.IsResidual (is_i_16x16 mb.now.kind) (pattern_of mb.now) 20 mb.now }
    ensures { Appends (B.bits bits.old) (B.bits bits.new) (layer.residual_text around.now (is_i_16x16 mb.now.kind) (pattern_of mb.now) mb.now) result }
{
    let is_16x16 = mb.kind.is_i_16x16();
    let pattern = mb.coded_pattern();
    let has_dc = pattern.chroma > 0;
    let has_ac = pattern.chroma == 2;
    let max = max_levels(is_16x16);
    write_luma_dc(bits, around, is_16x16, &mb.dc)?;
    write_luma(bits, &around.luma, pattern.luma, max, mb)?;
    write_chroma_dc(bits, has_dc, &mb.chroma_dc[0])?;
    write_chroma_dc(bits, has_dc, &mb.chroma_dc[1])?;
    write_chroma(bits, &around.cb, has_ac, &mb.chroma_ac[0])?;
    write_chroma(bits, &around.cr, has_ac, &mb.chroma_ac[1])
}
