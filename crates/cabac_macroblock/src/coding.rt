//! mb_qp_delta and the residual (ITU-T H.264, 7.3.5).
ghost use Rattle.std.specs.Prelude.{◌≡◌, option_map, false, true, OnOk, OnSome, OnErr, List};
ghost use Rattle.binarisation.specs.BinString.{Reads, Writes};
ghost use Rattle.h264_types.specs.Slice.{IsInPicture};
ghost use Rattle.h264_types.specs.Sizes.{HasSizes};
ghost use Rattle.h264_types.specs.Valid.{IsQpDelta};
ghost use Rattle.cabac_contexts.specs.Terms.{IsReadAt};
ghost use Rattle.h264_types.specs.declared.macroblock.Mb.{Mb};
ghost use Rattle.cabac_mb_residual.specs.Levels.{IsResidual, without_levels};
ghost use Rattle.cabac_macroblock.specs.MacroblockLayer as layer;
ghost use Rattle.cabac_macroblock.specs.Stages.{before_qp_delta};

use binarisation::{read_qp_delta, write_qp_delta};
use cabac_contexts::ctx_inc_qp_delta;
use cabac_engine::{BinSink, BinSource};
use cabac_mb_residual::{read_residual, write_residual};
use h264_types::{Mb, Rows, SliceShape};
use std::alloc::AllocError as Memory;

/// Reads mb_qp_delta.
fn read_delta<S: BinSource>(
    s: &mut S,
    shape: &SliceShape,
    done: &Rows<Mb>,
    at: u32,
    mb: &mut Mb,
) -> Option<()>
    requires going { S.over s.old ≡ false }
    ensures reads { (mbs : List Mb) → IsReadAt shape.now done.now mbs at → Reads S.step (layer.qp_delta mbs at mb.old) (option_map (λ _. mb.new) result) s.old s.new }
    ensures going { OnSome result (S.over s.new ≡ false) }
    ensures kind { mb.new.kind ≡ mb.old.kind }
{
    let inc = ctx_inc_qp_delta(shape, done, at, mb.field, mb);
    mb.qp_delta = read_qp_delta(s, inc)?;
    Some(())
}

/// Reads mb_qp_delta and the residual of a macroblock whose other elements stand.
pub fn read_coding<S: BinSource>(
    s: &mut S,
    shape: &SliceShape,
    done: &Rows<Mb>,
    at: u32,
    mb: &mut Mb,
) -> Option<()>
    requires going { S.over s.old ≡ false }
    requires picture { IsInPicture shape.now at }
    ensures reads { (mbs : List Mb) → IsReadAt shape.now done.now mbs at → Reads S.step (layer.coding shape.now mbs at mb.old) (option_map (λ _. mb.new) result) s.old s.new }
    ensures going { OnSome result (S.over s.new ≡ false) }
    ensures kind { mb.new.kind ≡ mb.old.kind }
{
    if mb.kind.sends_qp_delta(mb.pattern) {
        read_delta(s, shape, done, at, mb)?;
        read_residual(s, shape, done, at, mb)?;
    }
    Some(())
}

/// Writes mb_qp_delta.
fn write_delta<S: BinSink>(
    s: &mut S,
    shape: &SliceShape,
    done: &Rows<Mb>,
    at: u32,
    mb: &Mb,
) -> Result<(), Memory>
    requires going { S.over s.old ≡ false }
    requires delta { IsQpDelta mb.now }
    ensures writes { (mbs : List Mb) → IsReadAt shape.now done.now mbs at → OnOk result (Writes S.step (layer.qp_delta mbs at (before_qp_delta mb.now)) (without_levels mb.now) s.old s.new) }
    ensures going { OnOk result (S.over s.new ≡ false) }
    ensures err { OnErr result (S.over s.new ≡ true) }
{
    let inc = ctx_inc_qp_delta(shape, done, at, mb.field, mb);
    write_qp_delta(s, inc, mb.qp_delta)
}

/// Writes mb_qp_delta and the residual.
pub fn write_coding<S: BinSink>(
    s: &mut S,
    shape: &SliceShape,
    done: &Rows<Mb>,
    at: u32,
    mb: &Mb,
) -> Result<(), Memory>
    requires going { S.over s.old ≡ false }
    requires picture { IsInPicture shape.now at }
    requires sizes { HasSizes mb.now }
    requires delta { IsQpDelta mb.now }
    requires residual { IsResidual mb.now }
    ensures writes { (mbs : List Mb) → IsReadAt shape.now done.now mbs at → OnOk result (Writes S.step (layer.coding shape.now mbs at (before_qp_delta mb.now)) mb.now s.old s.new) }
    ensures going { OnOk result (S.over s.new ≡ false) }
    ensures err { OnErr result (S.over s.new ≡ true) }
{
    if !mb.kind.sends_qp_delta(mb.pattern) {
        return Ok(());
    }
    write_delta(s, shape, done, at, mb)?;
    write_residual(s, shape, done, at, mb)
}
