ghost use Rattle.std.specs.Prelude.{◌≡◌, ◌<◌, ◌+◌, ◌*◌, false, true, option_map, OnOk, OnSome, OnErr, List};
ghost use Rattle.binarisation.specs.BinString.{Reads, Writes};
ghost use Rattle.binarisation.specs.Each.{each};
ghost use Rattle.h264_types.specs.Macroblock.{pattern_of};
ghost use Rattle.h264_types.specs.Sizes.{HasSizes};
ghost use Rattle.h264_types.specs.Slice.{IsInPicture};
ghost use Rattle.cabac_contexts.specs.Terms.{IsReadAt};
ghost use Rattle.h264_types.specs.declared.macroblock.Mb.{Mb};
ghost use Rattle.cabac_mb_residual.specs.MacroblockResidual as layer;
ghost use Rattle.cabac_mb_residual.specs.Levels.{IsResidual, so_far};

use crate::luma::is_field;
use cabac_contexts::ctx_inc_block;
use cabac_engine::{BinSink, BinSource};
use cabac_residual::{read_levels, write_levels};
use h264_types::{Mb, Rows, SliceShape};
use std::alloc::AllocError as Memory;

/// Reads ChromaDCLevel of a component, if the pattern has chroma.
fn read_dc_of<S: BinSource>(
    s: &mut S,
    shape: &SliceShape,
    done: &Rows<Mb>,
    at: u32,
    comp: u8,
    mb: &mut Mb,
) -> Option<()>
    requires going { S.over s.old ≡ false }
    requires picture { IsInPicture shape.now at }
    requires comp { comp < 2 }
    ensures reads { (mbs : List Mb) → IsReadAt shape.now done.now mbs at → Reads S.step (layer.chroma_dc shape.now mbs at comp mb.old) (option_map (λ _. mb.new) result) s.old s.new }
    ensures going { OnSome result (S.over s.new ≡ false) }
    ensures kind { mb.new.kind ≡ mb.old.kind }
{
    if mb.coded_pattern().chroma == 0 {
        return Some(());
    }
    let inc = ctx_inc_block(shape, done, at, mb.field, mb, 3, comp, 0);
    let field = is_field(shape, mb);
    read_levels(s, 3, field, inc, &mut mb.chroma_dc[usize::from(comp)])
}

/// Reads ChromaDCLevel of Cb and Cr.
pub fn read_chroma_dc<S: BinSource>(
    s: &mut S,
    shape: &SliceShape,
    done: &Rows<Mb>,
    at: u32,
    mb: &mut Mb,
) -> Option<()>
    requires going { S.over s.old ≡ false }
    requires picture { IsInPicture shape.now at }
    ensures reads { (mbs : List Mb) → IsReadAt shape.now done.now mbs at → Reads S.step (each 2 (layer.chroma_dc shape.now mbs at) 0 mb.old) (option_map (λ _. mb.new) result) s.old s.new }
    ensures going { OnSome result (S.over s.new ≡ false) }
    ensures kind { mb.new.kind ≡ mb.old.kind }
{
    for comp in 0..2u8 {
        read_dc_of(s, shape, done, at, comp, mb)?;
    }
    Some(())
}

/// Reads ChromaACLevel of block n of a component.
fn read_block<S: BinSource>(
    s: &mut S,
    shape: &SliceShape,
    done: &Rows<Mb>,
    at: u32,
    comp: u8,
    n: u8,
    mb: &mut Mb,
) -> Option<()>
    requires going { S.over s.old ≡ false }
    requires picture { IsInPicture shape.now at }
    requires comp { comp < 2 }
    requires n { n < 4 }
    ensures reads { (mbs : List Mb) → IsReadAt shape.now done.now mbs at → Reads S.step (layer.chroma_block shape.now mbs at comp n mb.old) (option_map (λ _. mb.new) result) s.old s.new }
    ensures going { OnSome result (S.over s.new ≡ false) }
    ensures kind { mb.new.kind ≡ mb.old.kind }
{
    let inc = ctx_inc_block(shape, done, at, mb.field, mb, 4, comp, n);
    let field = is_field(shape, mb);
    let block = &mut mb.chroma_ac[usize::from(comp)][usize::from(n)];
    read_levels(s, 4, field, inc, block)
}

/// Reads the AC blocks of a component, if the pattern has them.
fn read_ac_of<S: BinSource>(
    s: &mut S,
    shape: &SliceShape,
    done: &Rows<Mb>,
    at: u32,
    comp: u8,
    mb: &mut Mb,
) -> Option<()>
    requires going { S.over s.old ≡ false }
    requires picture { IsInPicture shape.now at }
    requires comp { comp < 2 }
    ensures reads { (mbs : List Mb) → IsReadAt shape.now done.now mbs at → Reads S.step (layer.chroma_ac shape.now mbs at comp mb.old) (option_map (λ _. mb.new) result) s.old s.new }
    ensures going { OnSome result (S.over s.new ≡ false) }
    ensures kind { mb.new.kind ≡ mb.old.kind }
{
    if mb.coded_pattern().chroma != 2 {
        return Some(());
    }
    for n in 0..4u8 {
        read_block(s, shape, done, at, comp, n, mb)?;
    }
    Some(())
}

/// Reads the AC blocks of Cb and Cr.
pub fn read_chroma_ac<S: BinSource>(
    s: &mut S,
    shape: &SliceShape,
    done: &Rows<Mb>,
    at: u32,
    mb: &mut Mb,
) -> Option<()>
    requires going { S.over s.old ≡ false }
    requires picture { IsInPicture shape.now at }
    ensures reads { (mbs : List Mb) → IsReadAt shape.now done.now mbs at → Reads S.step (each 2 (layer.chroma_ac shape.now mbs at) 0 mb.old) (option_map (λ _. mb.new) result) s.old s.new }
    ensures going { OnSome result (S.over s.new ≡ false) }
    ensures kind { mb.new.kind ≡ mb.old.kind }
{
    for comp in 0..2u8 {
        read_ac_of(s, shape, done, at, comp, mb)?;
    }
    Some(())
}

/// Writes ChromaDCLevel of a component, if the pattern has chroma.
fn write_dc_of<S: BinSink>(
    s: &mut S,
    shape: &SliceShape,
    done: &Rows<Mb>,
    at: u32,
    comp: u8,
    mb: &Mb,
) -> Result<(), Memory>
    requires going { S.over s.old ≡ false }
    requires picture { IsInPicture shape.now at }
    requires comp { comp < 2 }
    requires sizes { HasSizes mb.now }
    requires residual { IsResidual mb.now }
    ensures writes { (mbs : List Mb) → IsReadAt shape.now done.now mbs at → OnOk result (Writes S.step (layer.chroma_dc shape.now mbs at comp (so_far 16 256 (4 * comp) 0 mb.now)) (so_far 16 256 (4 * (comp + 1)) 0 mb.now) s.old s.new) }
    ensures going { OnOk result (S.over s.new ≡ false) }
    ensures err { OnErr result (S.over s.new ≡ true) }
{
    if mb.coded_pattern().chroma == 0 {
        return Ok(());
    }
    let inc = ctx_inc_block(shape, done, at, mb.field, mb, 3, comp, 0);
    let levels = &mb.chroma_dc[usize::from(comp)];
    write_levels(s, 3, is_field(shape, mb), inc, levels)
}

/// Writes ChromaDCLevel of Cb and Cr.
pub fn write_chroma_dc<S: BinSink>(
    s: &mut S,
    shape: &SliceShape,
    done: &Rows<Mb>,
    at: u32,
    mb: &Mb,
) -> Result<(), Memory>
    requires going { S.over s.old ≡ false }
    requires picture { IsInPicture shape.now at }
    requires sizes { HasSizes mb.now }
    requires residual { IsResidual mb.now }
    ensures writes { (mbs : List Mb) → IsReadAt shape.now done.now mbs at → OnOk result (Writes S.step (each 2 (layer.chroma_dc shape.now mbs at) 0 (so_far 16 256 0 0 mb.now)) (so_far 16 256 8 0 mb.now) s.old s.new) }
    ensures going { OnOk result (S.over s.new ≡ false) }
    ensures err { OnErr result (S.over s.new ≡ true) }
{
    for comp in 0..2u8 {
        write_dc_of(s, shape, done, at, comp, mb)?;
    }
    Ok(())
}

/// Writes ChromaACLevel of block n of a component.
fn write_block<S: BinSink>(
    s: &mut S,
    shape: &SliceShape,
    done: &Rows<Mb>,
    at: u32,
    comp: u8,
    n: u8,
    mb: &Mb,
) -> Result<(), Memory>
    requires going { S.over s.old ≡ false }
    requires picture { IsInPicture shape.now at }
    requires comp { comp < 2 }
    requires n { n < 4 }
    requires sizes { HasSizes mb.now }
    requires residual { IsResidual mb.now }
    requires coded { (pattern_of mb.now).chroma ≡ 2 }
    ensures writes { (mbs : List Mb) → IsReadAt shape.now done.now mbs at → OnOk result (Writes S.step (layer.chroma_block shape.now mbs at comp n (so_far 16 256 8 (60 * comp + 15 * n) mb.now)) (so_far 16 256 8 (60 * comp + 15 * (n + 1)) mb.now) s.old s.new) }
    ensures going { OnOk result (S.over s.new ≡ false) }
    ensures err { OnErr result (S.over s.new ≡ true) }
{
    let inc = ctx_inc_block(shape, done, at, mb.field, mb, 4, comp, n);
    let block = &mb.chroma_ac[usize::from(comp)][usize::from(n)];
    write_levels(s, 4, is_field(shape, mb), inc, block)
}

/// Writes the AC blocks of a component, if the pattern has them.
fn write_ac_of<S: BinSink>(
    s: &mut S,
    shape: &SliceShape,
    done: &Rows<Mb>,
    at: u32,
    comp: u8,
    mb: &Mb,
) -> Result<(), Memory>
    requires going { S.over s.old ≡ false }
    requires picture { IsInPicture shape.now at }
    requires comp { comp < 2 }
    requires sizes { HasSizes mb.now }
    requires residual { IsResidual mb.now }
    ensures writes { (mbs : List Mb) → IsReadAt shape.now done.now mbs at → OnOk result (Writes S.step (layer.chroma_ac shape.now mbs at comp (so_far 16 256 8 (60 * comp) mb.now)) (so_far 16 256 8 (60 * (comp + 1)) mb.now) s.old s.new) }
    ensures going { OnOk result (S.over s.new ≡ false) }
    ensures err { OnErr result (S.over s.new ≡ true) }
{
    if mb.coded_pattern().chroma != 2 {
        return Ok(());
    }
    for n in 0..4u8 {
        write_block(s, shape, done, at, comp, n, mb)?;
    }
    Ok(())
}

/// Writes the AC blocks of Cb and Cr.
pub fn write_chroma_ac<S: BinSink>(
    s: &mut S,
    shape: &SliceShape,
    done: &Rows<Mb>,
    at: u32,
    mb: &Mb,
) -> Result<(), Memory>
    requires going { S.over s.old ≡ false }
    requires picture { IsInPicture shape.now at }
    requires sizes { HasSizes mb.now }
    requires residual { IsResidual mb.now }
    ensures writes { (mbs : List Mb) → IsReadAt shape.now done.now mbs at → OnOk result (Writes S.step (each 2 (layer.chroma_ac shape.now mbs at) 0 (so_far 16 256 8 0 mb.now)) (so_far 16 256 8 120 mb.now) s.old s.new) }
    ensures going { OnOk result (S.over s.new ≡ false) }
    ensures err { OnErr result (S.over s.new ≡ true) }
{
    for comp in 0..2u8 {
        write_ac_of(s, shape, done, at, comp, mb)?;
    }
    Ok(())
}
