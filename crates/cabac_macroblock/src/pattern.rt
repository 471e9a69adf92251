//! coded_block_pattern (ITU-T H.264, 7.3.5).
ghost use Rattle.std.specs.Prelude.{◌≡◌, ◌+◌, ◌^◌, ◌<◌, ◌≤◌, Bool, option_map, false, true, OnOk, OnSome, OnErr, List};
ghost use Rattle.binarisation.specs.BinString.{Reads, Writes};
ghost use Rattle.h264_types.specs.Slice.{IsInPicture};
ghost use Rattle.h264_types.specs.Sent.{sends_pattern};
ghost use Rattle.h264_types.specs.Valid.{IsPattern};
ghost use Rattle.cabac_contexts.specs.Terms.{IsReadAt};
ghost use Rattle.h264_types.specs.declared.macroblock.Mb.{Mb};
ghost use Rattle.cabac_macroblock.specs.CodedBlockPattern as pattern;
ghost use Rattle.cabac_macroblock.specs.Stages.{before_pattern, before_chroma_pattern, before_qp_delta};

use binarisation::{
    read_pattern_chroma, read_pattern_luma, write_pattern_chroma, write_pattern_luma,
};
use cabac_contexts::{ctx_inc_chroma, ctx_inc_luma};
use cabac_engine::{BinSink, BinSource};
use h264_types::{Mb, Rows, SliceShape};
use std::alloc::AllocError as Memory;

/// Reads the bit of a luma quarter.
fn read_luma_bit<S: BinSource>(
    s: &mut S,
    shape: &SliceShape,
    done: &Rows<Mb>,
    at: u32,
    quarter: u8,
    mb: &mut Mb,
) -> Option<()>
    requires going { S.over s.old ≡ false }
    requires picture { IsInPicture shape.now at }
    requires quarter { quarter < 4 }
    requires before { mb.old.pattern.luma < 2 ^ quarter }
    ensures reads { (mbs : List Mb) → IsReadAt shape.now done.now mbs at → Reads S.step (pattern.luma_bit shape.now mbs at quarter mb.old) (option_map (λ _. mb.new) result) s.old s.new }
    ensures going { OnSome result (S.over s.new ≡ false) }
    ensures bits { mb.new.pattern.luma < 2 ^ (quarter + 1) }
    ensures others { mb.new ≡ record mb.old { pattern = record mb.old.pattern { luma = mb.new.pattern.luma } } }
{
    let inc = ctx_inc_luma(shape, done, at, mb.field, mb, quarter);
    if read_pattern_luma(s, inc)? {
        mb.pattern.luma += 1 << quarter;
    }
    Some(())
}

/// Reads the bits of the luma quarters.
fn read_luma<S: BinSource>(
    s: &mut S,
    shape: &SliceShape,
    done: &Rows<Mb>,
    at: u32,
    mb: &mut Mb,
) -> Option<()>
    requires going { S.over s.old ≡ false }
    requires picture { IsInPicture shape.now at }
    requires none { mb.old.pattern.luma ≡ 0 }
    ensures reads { (mbs : List Mb) → IsReadAt shape.now done.now mbs at → Reads S.step (pattern.luma_bits shape.now mbs at mb.old) (option_map (λ _. mb.new) result) s.old s.new }
    ensures going { OnSome result (S.over s.new ≡ false) }
    ensures others { mb.new ≡ record mb.old { pattern = record mb.old.pattern { luma = mb.new.pattern.luma } } }
{
    for quarter in 0..4 {
        read_luma_bit(s, shape, done, at, quarter, mb)?;
    }
    Some(())
}

/// Reads the chroma of the pattern.
fn read_chroma<S: BinSource>(
    s: &mut S,
    shape: &SliceShape,
    done: &Rows<Mb>,
    at: u32,
    mb: &mut Mb,
) -> Option<()>
    requires going { S.over s.old ≡ false }
    requires picture { IsInPicture shape.now at }
    ensures reads { (mbs : List Mb) → IsReadAt shape.now done.now mbs at → Reads S.step (pattern.chroma_pattern shape.now mbs at mb.old) (option_map (λ _. mb.new) result) s.old s.new }
    ensures going { OnSome result (S.over s.new ≡ false) }
    ensures others { mb.new ≡ record mb.old { pattern = record mb.old.pattern { chroma = mb.new.pattern.chroma } } }
{
    let first = ctx_inc_chroma(shape, done, at, mb.field, mb, false);
    let second = ctx_inc_chroma(shape, done, at, mb.field, mb, true);
    mb.pattern.chroma = read_pattern_chroma(s, first, second)?;
    Some(())
}

/// Reads coded_block_pattern of a macroblock whose type stands, where the type doesn't name it.
pub fn read_pattern<S: BinSource>(
    s: &mut S,
    shape: &SliceShape,
    done: &Rows<Mb>,
    at: u32,
    mb: &mut Mb,
) -> Option<()>
    requires going { S.over s.old ≡ false }
    requires picture { IsInPicture shape.now at }
    requires none { mb.old.pattern.luma ≡ 0 }
    ensures reads { (mbs : List Mb) → IsReadAt shape.now done.now mbs at → Reads S.step (pattern.pattern shape.now mbs at mb.old) (option_map (λ _. mb.new) result) s.old s.new }
    ensures going { OnSome result (S.over s.new ≡ false) }
    ensures others { mb.new ≡ record mb.old { pattern = mb.new.pattern } }
{
    if mb.kind.sends_pattern() {
        read_luma(s, shape, done, at, mb)?;
        read_chroma(s, shape, done, at, mb)?;
    }
    Some(())
}

/// Writes the bits of the luma quarters.
fn write_luma<S: BinSink>(
    s: &mut S,
    shape: &SliceShape,
    done: &Rows<Mb>,
    at: u32,
    mb: &Mb,
) -> Result<(), Memory>
    requires going { S.over s.old ≡ false }
    requires picture { IsInPicture shape.now at }
    requires sent { sends_pattern mb.now.kind ≡ true }
    requires luma { mb.now.pattern.luma ≤ 15 }
    ensures writes { (mbs : List Mb) (t8 : Bool) → IsReadAt shape.now done.now mbs at → OnOk result (Writes S.step (pattern.luma_bits shape.now mbs at (record (before_pattern mb.now) { t8 = t8 })) (record (before_chroma_pattern mb.now) { t8 = t8 }) s.old s.new) }
    ensures going { OnOk result (S.over s.new ≡ false) }
    ensures err { OnErr result (S.over s.new ≡ true) }
{
    for quarter in 0..4 {
        let inc = ctx_inc_luma(shape, done, at, mb.field, mb, quarter);
        let bit = (mb.pattern.luma >> quarter) % 2 == 1;
        write_pattern_luma(s, inc, bit)?;
    }
    Ok(())
}

/// Writes the chroma of the pattern.
fn write_chroma<S: BinSink>(
    s: &mut S,
    shape: &SliceShape,
    done: &Rows<Mb>,
    at: u32,
    mb: &Mb,
) -> Result<(), Memory>
    requires going { S.over s.old ≡ false }
    requires picture { IsInPicture shape.now at }
    requires chroma { mb.now.pattern.chroma ≤ 2 }
    ensures writes { (mbs : List Mb) (t8 : Bool) → IsReadAt shape.now done.now mbs at → OnOk result (Writes S.step (pattern.chroma_pattern shape.now mbs at (record (before_chroma_pattern mb.now) { t8 = t8 })) (record (before_qp_delta mb.now) { t8 = t8 }) s.old s.new) }
    ensures going { OnOk result (S.over s.new ≡ false) }
    ensures err { OnErr result (S.over s.new ≡ true) }
{
    let first = ctx_inc_chroma(shape, done, at, mb.field, mb, false);
    let second = ctx_inc_chroma(shape, done, at, mb.field, mb, true);
    write_pattern_chroma(s, first, second, mb.pattern.chroma)
}

/// Writes coded_block_pattern, where the type doesn't name it. Whether transform_size_8x8_flag stands before it, as `t8`, or
/// is still to come is one.
pub fn write_pattern<S: BinSink>(
    s: &mut S,
    shape: &SliceShape,
    done: &Rows<Mb>,
    at: u32,
    mb: &Mb,
) -> Result<(), Memory>
    requires going { S.over s.old ≡ false }
    requires picture { IsInPicture shape.now at }
    requires pattern { IsPattern mb.now }
    ensures writes { (mbs : List Mb) (t8 : Bool) → IsReadAt shape.now done.now mbs at → OnOk result (Writes S.step (pattern.pattern shape.now mbs at (record (before_pattern mb.now) { t8 = t8 })) (record (before_qp_delta mb.now) { t8 = t8 }) s.old s.new) }
    ensures going { OnOk result (S.over s.new ≡ false) }
    ensures err { OnErr result (S.over s.new ≡ true) }
{
    if !mb.kind.sends_pattern() {
        return Ok(());
    }
    write_luma(s, shape, done, at, mb)?;
    write_chroma(s, shape, done, at, mb)
}
