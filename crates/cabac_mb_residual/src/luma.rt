ghost use Rattle.std.specs.Prelude.{◌≡◌, ◌<◌, ◌+◌, ◌*◌, ◌/◌, false, true, option_map, OnOk, OnSome, OnErr, List};
ghost use Rattle.binarisation.specs.BinString.{Reads, Writes};
ghost use Rattle.binarisation.specs.Each.{each};
ghost use Rattle.cabac_contexts.specs.Terms as terms;
ghost use Rattle.h264_types.specs.Sizes.{HasSizes};
ghost use Rattle.h264_types.specs.Slice.{IsInPicture};
ghost use Rattle.cabac_contexts.specs.Terms.{IsReadAt};
ghost use Rattle.h264_types.specs.declared.macroblock.Mb.{Mb};
ghost use Rattle.cabac_mb_residual.specs.MacroblockResidual as layer;
ghost use Rattle.cabac_mb_residual.specs.Levels.{IsResidual, so_far};

use cabac_contexts::ctx_inc_block;
use cabac_engine::{BinSink, BinSource};
use cabac_residual::{read_levels, write_levels};
use h264_types::{Mb, MbKind, Rows, SliceShape};
use std::alloc::AllocError as Memory;

/// Whether the contexts are those of field coding (Table 9-34).
pub fn is_field(shape: &SliceShape, mb: &Mb) -> bool
    ensures { result ≡ layer.is_field shape.now mb.now }
{
    shape.field_pic || mb.field
}

/// Whether the pattern has a bit for a quarter.
fn has_luma(mb: &Mb, quarter: u8) -> bool
    requires { quarter < 4 }
    ensures { result ≡ terms.has_luma mb.now quarter }
{
    (mb.coded_pattern().luma >> quarter) % 2 == 1
}

/// ctxBlockCat of a 4x4 luma block.
fn luma_cat(kind: MbKind) -> u8
    ensures { result ≡ layer.luma_cat kind }
{
    if kind.is_i_16x16() { 1 } else { 2 }
}

/// How many levels the list of a 4x4 luma block has.
fn luma_max(kind: MbKind) -> u8
    ensures { result ≡ layer.luma_max kind }
{
    if kind.is_i_16x16() { 15 } else { 16 }
}

/// Puts the 16 places of 4x4 luma block n.
fn put_luma4(mb: &mut Mb, n: u8, block: &[i32; 16])
    requires { n < 16 }
    ensures { mb.new ≡ layer.with_luma4 n mb.old block.now }
{
    let start = 16 * usize::from(n % 4);
    mb.luma[usize::from(n / 4)][start..start + 16].copy_from_slice(block);
}

/// Reads Intra16x16DCLevel, which I_16x16 alone has.
pub fn read_luma_dc<S: BinSource>(
    s: &mut S,
    shape: &SliceShape,
    done: &Rows<Mb>,
    at: u32,
    mb: &mut Mb,
) -> Option<()>
    requires going { S.over s.old ≡ false }
    requires picture { IsInPicture shape.now at }
    ensures reads { (mbs : List Mb) → IsReadAt shape.now done.now mbs at → Reads S.step (layer.luma_dc shape.now mbs at mb.old) (option_map (λ _. mb.new) result) s.old s.new }
    ensures going { OnSome result (S.over s.new ≡ false) }
    ensures kind { mb.new.kind ≡ mb.old.kind }
{
    if !mb.kind.is_i_16x16() {
        return Some(());
    }
    let inc = ctx_inc_block(shape, done, at, mb.field, mb, 0, 0, 0);
    let field = is_field(shape, mb);
    read_levels(s, 0, field, inc, &mut mb.dc)
}

/// Reads 4x4 luma block n.
fn read_luma4<S: BinSource>(
    s: &mut S,
    shape: &SliceShape,
    done: &Rows<Mb>,
    at: u32,
    n: u8,
    mb: &mut Mb,
) -> Option<()>
    requires going { S.over s.old ≡ false }
    requires picture { IsInPicture shape.now at }
    requires n { n < 16 }
    ensures reads { (mbs : List Mb) → IsReadAt shape.now done.now mbs at → Reads S.step (layer.luma4 shape.now mbs at n mb.old) (option_map (λ _. mb.new) result) s.old s.new }
    ensures going { OnSome result (S.over s.new ≡ false) }
    ensures kind { mb.new.kind ≡ mb.old.kind }
{
    let cat = luma_cat(mb.kind);
    let max = luma_max(mb.kind);
    let inc = ctx_inc_block(shape, done, at, mb.field, mb, cat, 0, n);
    let field = is_field(shape, mb);
    let mut block = [0; 16];
    read_levels(s, cat, field, inc, &mut block[..usize::from(max)])?;
    put_luma4(mb, n, &block);
    Some(())
}

/// Reads the four 4x4 blocks of a quarter.
fn read_blocks<S: BinSource>(
    s: &mut S,
    shape: &SliceShape,
    done: &Rows<Mb>,
    at: u32,
    quarter: u8,
    mb: &mut Mb,
) -> Option<()>
    requires going { S.over s.old ≡ false }
    requires picture { IsInPicture shape.now at }
    requires quarter { quarter < 4 }
    ensures reads { (mbs : List Mb) → IsReadAt shape.now done.now mbs at → Reads S.step (each 4 (layer.luma4 shape.now mbs at) (4 * quarter) mb.old) (option_map (λ _. mb.new) result) s.old s.new }
    ensures going { OnSome result (S.over s.new ≡ false) }
    ensures kind { mb.new.kind ≡ mb.old.kind }
{
    for k in 0..4u8 {
        read_luma4(s, shape, done, at, 4 * quarter + k, mb)?;
    }
    Some(())
}

/// Reads a quarter, if the pattern has it: 64 levels of the 8x8 transform, or four 4x4 blocks.
fn read_quarter<S: BinSource>(
    s: &mut S,
    shape: &SliceShape,
    done: &Rows<Mb>,
    at: u32,
    quarter: u8,
    mb: &mut Mb,
) -> Option<()>
    requires going { S.over s.old ≡ false }
    requires picture { IsInPicture shape.now at }
    requires quarter { quarter < 4 }
    ensures reads { (mbs : List Mb) → IsReadAt shape.now done.now mbs at → Reads S.step (layer.quarter shape.now mbs at quarter mb.old) (option_map (λ _. mb.new) result) s.old s.new }
    ensures going { OnSome result (S.over s.new ≡ false) }
    ensures kind { mb.new.kind ≡ mb.old.kind }
{
    if !has_luma(mb, quarter) {
        return Some(());
    }
    if mb.t8 {
        let field = is_field(shape, mb);
        return read_levels(s, 5, field, 0, &mut mb.luma[usize::from(quarter)]);
    }
    read_blocks(s, shape, done, at, quarter, mb)
}

/// Reads the quarters.
pub fn read_luma<S: BinSource>(
    s: &mut S,
    shape: &SliceShape,
    done: &Rows<Mb>,
    at: u32,
    mb: &mut Mb,
) -> Option<()>
    requires going { S.over s.old ≡ false }
    requires picture { IsInPicture shape.now at }
    ensures reads { (mbs : List Mb) → IsReadAt shape.now done.now mbs at → Reads S.step (each 4 (layer.quarter shape.now mbs at) 0 mb.old) (option_map (λ _. mb.new) result) s.old s.new }
    ensures going { OnSome result (S.over s.new ≡ false) }
    ensures kind { mb.new.kind ≡ mb.old.kind }
{
    for quarter in 0..4u8 {
        read_quarter(s, shape, done, at, quarter, mb)?;
    }
    Some(())
}

/// Writes Intra16x16DCLevel, which I_16x16 alone has.
pub fn write_luma_dc<S: BinSink>(
    s: &mut S,
    shape: &SliceShape,
    done: &Rows<Mb>,
    at: u32,
    mb: &Mb,
) -> Result<(), Memory>
    requires going { S.over s.old ≡ false }
    requires picture { IsInPicture shape.now at }
    requires sizes { HasSizes mb.now }
    requires residual { IsResidual mb.now }
    ensures writes { (mbs : List Mb) → IsReadAt shape.now done.now mbs at → OnOk result (Writes S.step (layer.luma_dc shape.now mbs at (so_far 0 0 0 0 mb.now)) (so_far 16 0 0 0 mb.now) s.old s.new) }
    ensures going { OnOk result (S.over s.new ≡ false) }
    ensures err { OnErr result (S.over s.new ≡ true) }
{
    if !mb.kind.is_i_16x16() {
        return Ok(());
    }
    let inc = ctx_inc_block(shape, done, at, mb.field, mb, 0, 0, 0);
    write_levels(s, 0, is_field(shape, mb), inc, &mb.dc)
}

/// Writes 4x4 luma block n.
fn write_luma4<S: BinSink>(
    s: &mut S,
    shape: &SliceShape,
    done: &Rows<Mb>,
    at: u32,
    n: u8,
    mb: &Mb,
) -> Result<(), Memory>
    requires going { S.over s.old ≡ false }
    requires picture { IsInPicture shape.now at }
    requires n { n < 16 }
    requires sizes { HasSizes mb.now }
    requires residual { IsResidual mb.now }
    requires coded { terms.has_luma mb.now (n / 4) ≡ true }
    ensures writes { (mbs : List Mb) → IsReadAt shape.now done.now mbs at → OnOk result (Writes S.step (layer.luma4 shape.now mbs at n (so_far 16 (16 * n) 0 0 mb.now)) (so_far 16 (16 * (n + 1)) 0 0 mb.now) s.old s.new) }
    ensures going { OnOk result (S.over s.new ≡ false) }
    ensures err { OnErr result (S.over s.new ≡ true) }
{
    let cat = luma_cat(mb.kind);
    let max = luma_max(mb.kind);
    let inc = ctx_inc_block(shape, done, at, mb.field, mb, cat, 0, n);
    let levels = &mb.block(n)[..usize::from(max)];
    write_levels(s, cat, is_field(shape, mb), inc, levels)
}

/// Writes the four 4x4 blocks of a quarter.
fn write_blocks<S: BinSink>(
    s: &mut S,
    shape: &SliceShape,
    done: &Rows<Mb>,
    at: u32,
    quarter: u8,
    mb: &Mb,
) -> Result<(), Memory>
    requires going { S.over s.old ≡ false }
    requires picture { IsInPicture shape.now at }
    requires quarter { quarter < 4 }
    requires sizes { HasSizes mb.now }
    requires residual { IsResidual mb.now }
    requires coded { terms.has_luma mb.now quarter ≡ true }
    ensures writes { (mbs : List Mb) → IsReadAt shape.now done.now mbs at → OnOk result (Writes S.step (each 4 (layer.luma4 shape.now mbs at) (4 * quarter) (so_far 16 (64 * quarter) 0 0 mb.now)) (so_far 16 (64 * (quarter + 1)) 0 0 mb.now) s.old s.new) }
    ensures going { OnOk result (S.over s.new ≡ false) }
    ensures err { OnErr result (S.over s.new ≡ true) }
{
    for k in 0..4u8 {
        write_luma4(s, shape, done, at, 4 * quarter + k, mb)?;
    }
    Ok(())
}

/// Writes a quarter, if the pattern has it.
fn write_quarter<S: BinSink>(
    s: &mut S,
    shape: &SliceShape,
    done: &Rows<Mb>,
    at: u32,
    quarter: u8,
    mb: &Mb,
) -> Result<(), Memory>
    requires going { S.over s.old ≡ false }
    requires picture { IsInPicture shape.now at }
    requires quarter { quarter < 4 }
    requires sizes { HasSizes mb.now }
    requires residual { IsResidual mb.now }
    ensures writes { (mbs : List Mb) → IsReadAt shape.now done.now mbs at → OnOk result (Writes S.step (layer.quarter shape.now mbs at quarter (so_far 16 (64 * quarter) 0 0 mb.now)) (so_far 16 (64 * (quarter + 1)) 0 0 mb.now) s.old s.new) }
    ensures going { OnOk result (S.over s.new ≡ false) }
    ensures err { OnErr result (S.over s.new ≡ true) }
{
    if !has_luma(mb, quarter) {
        return Ok(());
    }
    if mb.t8 {
        return write_levels(s, 5, is_field(shape, mb), 0, &mb.luma[usize::from(quarter)]);
    }
    write_blocks(s, shape, done, at, quarter, mb)
}

/// Writes the quarters.
pub fn write_luma<S: BinSink>(
    s: &mut S,
    shape: &SliceShape,
    done: &Rows<Mb>,
    at: u32,
    mb: &Mb,
) -> Result<(), Memory>
    requires going { S.over s.old ≡ false }
    requires picture { IsInPicture shape.now at }
    requires sizes { HasSizes mb.now }
    requires residual { IsResidual mb.now }
    ensures writes { (mbs : List Mb) → IsReadAt shape.now done.now mbs at → OnOk result (Writes S.step (each 4 (layer.quarter shape.now mbs at) 0 (so_far 16 0 0 0 mb.now)) (so_far 16 256 0 0 mb.now) s.old s.new) }
    ensures going { OnOk result (S.over s.new ≡ false) }
    ensures err { OnErr result (S.over s.new ≡ true) }
{
    for quarter in 0..4u8 {
        write_quarter(s, shape, done, at, quarter, mb)?;
    }
    Ok(())
}
