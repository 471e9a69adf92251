//! The prediction of intra macroblocks (ITU-T H.264, 7.3.5.1).
ghost use Rattle.std.specs.Prelude.{◌≡◌, ◌<◌, ◌≤◌, ℕ, option_map, false, true, slice_index, IfSome, OnOk, OnSome, OnErr, List};
ghost use Rattle.binarisation.specs.BinString.{Reads, Writes};
ghost use Rattle.h264_types.specs.Sent.{sends_t8_first};
ghost use Rattle.h264_types.specs.Slice.{IsInPicture};
ghost use Rattle.h264_types.specs.Sizes.{HasSizes};
ghost use Rattle.h264_types.specs.Valid.{mode_bound, IsIntraPredicted};
ghost use Rattle.cabac_contexts.specs.Terms.{IsReadAt};
ghost use Rattle.h264_types.specs.declared.macroblock.Mb.{Mb};
ghost use Rattle.cabac_macroblock.specs.IntraPrediction as intra;
ghost use Rattle.cabac_macroblock.specs.Stages.{before_t8, before_modes, before_chroma_mode, before_pattern};

use crate::transform_size::{read_transform_size, write_transform_size};
use binarisation::{
    read_chroma_mode, read_mode, read_mode_flag, write_chroma_mode, write_mode, write_mode_flag,
};
use cabac_contexts::ctx_inc_chroma_mode;
use cabac_engine::{BinSink, BinSource};
use h264_types::{Mb, Rows, SliceShape, mode_count};
use std::alloc::AllocError as Memory;

/// The mode that stands for a prev_intra4x4_pred_mode_flag or prev_intra8x8_pred_mode_flag of 1.
const PREDICTED: u8 = 8;

/// Reads prev_intra4x4_pred_mode_flag, and rem_intra4x4_pred_mode where it is 0, or those of an 8x8 block.
fn read_any_mode<S: BinSource>(s: &mut S) -> Option<u8>
    requires going { S.over s.old ≡ false }
    ensures reads { Reads S.step intra.any_mode result s.old s.new }
    ensures going { OnSome result (S.over s.new ≡ false) }
{
    if read_mode_flag(s)? {
        return Some(PREDICTED);
    }
    read_mode(s)
}

/// Reads the modes of a macroblock whose type and transform size stand.
fn read_modes<S: BinSource>(s: &mut S, mb: &mut Mb) -> Option<()>
    requires going { S.over s.old ≡ false }
    ensures reads { Reads S.step (intra.modes mb.old) (option_map (λ _. mb.new) result) s.old s.new }
    ensures going { OnSome result (S.over s.new ≡ false) }
    ensures others { mb.new ≡ record mb.old { modes = mb.new.modes } }
{
    if mb.kind.is_i_nxn() {
        for k in 0..mode_count(mb.t8) {
            mb.modes[k] = read_any_mode(s)?;
        }
    }
    Some(())
}

/// Writes a mode.
fn write_any_mode<S: BinSink>(s: &mut S, mode: u8) -> Result<(), Memory>
    requires going { S.over s.old ≡ false }
    requires mode { mode ≤ 8 }
    ensures writes { OnOk result (Writes S.step intra.any_mode mode s.old s.new) }
    ensures going { OnOk result (S.over s.new ≡ false) }
    ensures err { OnErr result (S.over s.new ≡ true) }
{
    if mode == PREDICTED {
        return write_mode_flag(s, true);
    }
    write_mode_flag(s, false)?;
    write_mode(s, mode)
}

/// Writes the modes.
fn write_modes<S: BinSink>(s: &mut S, mb: &Mb) -> Result<(), Memory>
    requires going { S.over s.old ≡ false }
    requires sizes { HasSizes mb.now }
    requires modes { (k : ℕ) → k < 16 → slice_index mb.now.modes k ≤ mode_bound mb.now k }
    ensures writes { OnOk result (Writes S.step (intra.modes (before_modes mb.now)) (before_chroma_mode mb.now) s.old s.new) }
    ensures going { OnOk result (S.over s.new ≡ false) }
    ensures err { OnErr result (S.over s.new ≡ true) }
{
    if mb.kind.is_i_nxn() {
        for k in 0..mode_count(mb.t8) {
            write_any_mode(s, mb.modes[k])?;
        }
    }
    Ok(())
}

/// Reads intra_chroma_pred_mode.
fn read_chroma<S: BinSource>(
    s: &mut S,
    shape: &SliceShape,
    done: &Rows<Mb>,
    at: u32,
    mb: &mut Mb,
) -> Option<()>
    requires going { S.over s.old ≡ false }
    requires picture { IsInPicture shape.now at }
    ensures reads { (mbs : List Mb) → IsReadAt shape.now done.now mbs at → Reads S.step (intra.chroma_mode shape.now mbs at mb.old) (option_map (λ _. mb.new) result) s.old s.new }
    ensures going { OnSome result (S.over s.new ≡ false) }
    ensures others { mb.new ≡ record mb.old { chroma_mode = mb.new.chroma_mode } }
{
    mb.chroma_mode = read_chroma_mode(s, ctx_inc_chroma_mode(shape, done, at, mb.field, mb))?;
    Some(())
}

/// Writes intra_chroma_pred_mode.
fn write_chroma<S: BinSink>(
    s: &mut S,
    shape: &SliceShape,
    done: &Rows<Mb>,
    at: u32,
    mb: &Mb,
) -> Result<(), Memory>
    requires going { S.over s.old ≡ false }
    requires picture { IsInPicture shape.now at }
    requires mode { mb.now.chroma_mode ≤ 3 }
    ensures writes { (mbs : List Mb) → IsReadAt shape.now done.now mbs at → OnOk result (Writes S.step (intra.chroma_mode shape.now mbs at (before_chroma_mode mb.now)) (before_pattern mb.now) s.old s.new) }
    ensures going { OnOk result (S.over s.new ≡ false) }
    ensures err { OnErr result (S.over s.new ≡ true) }
{
    let inc = ctx_inc_chroma_mode(shape, done, at, mb.field, mb);
    write_chroma_mode(s, inc, mb.chroma_mode)
}

/// Reads the prediction of a macroblock of an intra type other than I_PCM, whose type stands: transform_size_8x8_flag, the
/// modes and intra_chroma_pred_mode.
pub fn read_prediction<S: BinSource>(
    s: &mut S,
    shape: &SliceShape,
    done: &Rows<Mb>,
    at: u32,
    mb: &mut Mb,
) -> Option<()>
    requires going { S.over s.old ≡ false }
    requires picture { IsInPicture shape.now at }
    ensures reads { (mbs : List Mb) → IsReadAt shape.now done.now mbs at → Reads S.step (intra.intra_prediction shape.now mbs at mb.old) (option_map (λ _. mb.new) result) s.old s.new }
    ensures going { OnSome result (S.over s.new ≡ false) }
    ensures others { IfSome result (λ _. mb.new ≡ record mb.old { t8 = mb.new.t8; modes = mb.new.modes; chroma_mode = mb.new.chroma_mode }) }
{
    read_transform_size(s, shape, done, at, mb)?;
    read_modes(s, mb)?;
    read_chroma(s, shape, done, at, mb)
}

/// Writes the prediction of a macroblock of an intra type other than I_PCM.
pub fn write_prediction<S: BinSink>(
    s: &mut S,
    shape: &SliceShape,
    done: &Rows<Mb>,
    at: u32,
    mb: &Mb,
) -> Result<(), Memory>
    requires going { S.over s.old ≡ false }
    requires picture { IsInPicture shape.now at }
    requires sizes { HasSizes mb.now }
    requires t8 { mb.now.t8 ≡ true → sends_t8_first shape.now mb.now.kind ≡ true }
    requires predicted { IsIntraPredicted mb.now }
    ensures writes { (mbs : List Mb) → IsReadAt shape.now done.now mbs at → OnOk result (Writes S.step (intra.intra_prediction shape.now mbs at (before_t8 mb.now)) (before_pattern mb.now) s.old s.new) }
    ensures going { OnOk result (S.over s.new ≡ false) }
    ensures err { OnErr result (S.over s.new ≡ true) }
{
    write_transform_size(s, shape, done, at, mb)?;
    write_modes(s, mb)?;
    write_chroma(s, shape, done, at, mb)
}
