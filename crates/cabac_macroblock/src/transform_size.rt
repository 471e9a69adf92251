//! transform_size_8x8_flag (ITU-T H.264, 7.3.5).
ghost use Rattle.std.specs.Prelude.{◌≡◌, option_map, false, true, OnOk, OnSome, OnErr, List};
ghost use Rattle.binarisation.specs.BinString.{Reads, Writes};
ghost use Rattle.h264_types.specs.Sent.{sends_t8_first, sends_t8_last};
ghost use Rattle.h264_types.specs.Slice.{IsInPicture};
ghost use Rattle.cabac_contexts.specs.Terms.{IsReadAt};
ghost use Rattle.h264_types.specs.declared.macroblock.Mb.{Mb};
ghost use Rattle.cabac_macroblock.specs.IntraPrediction as intra;
ghost use Rattle.cabac_macroblock.specs.MacroblockLayer.{last_transform_size};
ghost use Rattle.cabac_macroblock.specs.Stages.{before_t8, before_modes, before_last_t8, before_qp_delta};

use binarisation::{read_t8, write_t8};
use cabac_contexts::ctx_inc_t8;
use cabac_engine::{BinSink, BinSource};
use h264_types::{Mb, Rows, SliceShape};
use std::alloc::AllocError as Memory;

/// Reads transform_size_8x8_flag where it stands before the prediction, of a macroblock whose type stands.
pub fn read_transform_size<S: BinSource>(
    s: &mut S,
    shape: &SliceShape,
    done: &Rows<Mb>,
    at: u32,
    mb: &mut Mb,
) -> Option<()>
    requires going { S.over s.old ≡ false }
    requires picture { IsInPicture shape.now at }
    ensures reads { (mbs : List Mb) → IsReadAt shape.now done.now mbs at → Reads S.step (intra.transform_size shape.now mbs at mb.old) (option_map (λ _. mb.new) result) s.old s.new }
    ensures going { OnSome result (S.over s.new ≡ false) }
    ensures others { mb.new ≡ record mb.old { t8 = mb.new.t8 } }
{
    if shape.sends_t8_first(mb.kind) {
        mb.t8 = read_t8(s, ctx_inc_t8(shape, done, at, mb.field, mb))?;
    }
    Some(())
}

/// Writes transform_size_8x8_flag where it stands before the prediction.
pub fn write_transform_size<S: BinSink>(
    s: &mut S,
    shape: &SliceShape,
    done: &Rows<Mb>,
    at: u32,
    mb: &Mb,
) -> Result<(), Memory>
    requires going { S.over s.old ≡ false }
    requires picture { IsInPicture shape.now at }
    requires sent { mb.now.t8 ≡ true → sends_t8_first shape.now mb.now.kind ≡ true }
    ensures writes { (mbs : List Mb) → IsReadAt shape.now done.now mbs at → OnOk result (Writes S.step (intra.transform_size shape.now mbs at (before_t8 mb.now)) (before_modes mb.now) s.old s.new) }
    ensures going { OnOk result (S.over s.new ≡ false) }
    ensures err { OnErr result (S.over s.new ≡ true) }
{
    if shape.sends_t8_first(mb.kind) {
        return write_t8(s, ctx_inc_t8(shape, done, at, mb.field, mb), mb.t8);
    }
    Ok(())
}

/// Reads transform_size_8x8_flag where it stands behind coded_block_pattern, of a macroblock that has the elements before.
pub fn read_last_transform_size<S: BinSource>(
    s: &mut S,
    shape: &SliceShape,
    done: &Rows<Mb>,
    at: u32,
    mb: &mut Mb,
) -> Option<()>
    requires going { S.over s.old ≡ false }
    requires picture { IsInPicture shape.now at }
    ensures reads { (mbs : List Mb) → IsReadAt shape.now done.now mbs at → Reads S.step (last_transform_size shape.now mbs at mb.old) (option_map (λ _. mb.new) result) s.old s.new }
    ensures going { OnSome result (S.over s.new ≡ false) }
    ensures others { mb.new ≡ record mb.old { t8 = mb.new.t8 } }
{
    if shape.sends_t8_last(mb) {
        mb.t8 = read_t8(s, ctx_inc_t8(shape, done, at, mb.field, mb))?;
    }
    Some(())
}

/// Writes transform_size_8x8_flag where it stands behind coded_block_pattern.
pub fn write_last_transform_size<S: BinSink>(
    s: &mut S,
    shape: &SliceShape,
    done: &Rows<Mb>,
    at: u32,
    mb: &Mb,
) -> Result<(), Memory>
    requires going { S.over s.old ≡ false }
    requires picture { IsInPicture shape.now at }
    requires sent { mb.now.t8 ≡ true → sends_t8_last shape.now mb.now.kind mb.now.subs mb.now.pattern ≡ true }
    ensures writes { (mbs : List Mb) → IsReadAt shape.now done.now mbs at → OnOk result (Writes S.step (last_transform_size shape.now mbs at (before_last_t8 mb.now)) (before_qp_delta mb.now) s.old s.new) }
    ensures going { OnOk result (S.over s.new ≡ false) }
    ensures err { OnErr result (S.over s.new ≡ true) }
{
    if shape.sends_t8_last(mb) {
        return write_t8(s, ctx_inc_t8(shape, done, at, mb.field, mb), mb.t8);
    }
    Ok(())
}
