ghost use Rattle.std.specs.Prelude.{◌≡◌, option_map, false, true, OnOk, OnSome, OnErr, List};
ghost use Rattle.binarisation.specs.BinString.{Reads, Writes};
ghost use Rattle.h264_types.specs.Slice.{IsInPicture};
ghost use Rattle.h264_types.specs.SliceShape.{IsSliceShape};
ghost use Rattle.h264_types.specs.Valid.{IsInterPredicted};
ghost use Rattle.h264_types.specs.declared.macroblock.Mb.{Mb};
ghost use Rattle.cabac_contexts.specs.Terms.{IsReadAt};
ghost use Rattle.cabac_inter.specs.InterPrediction.{inter_prediction};
ghost use Rattle.cabac_inter.specs.Stages.{typed, predicted};

use crate::refs::{read_refs, write_refs};
use crate::subs::{read_subs, write_subs};
use crate::vectors::{read_mvds, write_mvds};
use cabac_engine::{BinSink, BinSource};
use h264_types::{Mb, Rows, SliceShape, has_sizes};
use std::alloc::AllocError as Memory;

/// Reads the prediction of a macroblock whose type stands: sub_mb_type, the reference indices and the vector differences.
/// `done` has the last two rows of the slice's macroblocks, of which all before number `at` are done and none behind it, in
/// MBAFF none behind its pair; `mb` has the flag of its pair, false outside MBAFF. None where the source ran out, or an element
/// is out of its range; what the macroblock then holds isn't said.
pub fn read_inter_prediction<S: BinSource>(
    s: &mut S,
    shape: &SliceShape,
    done: &Rows<Mb>,
    at: u32,
    mb: &mut Mb,
) -> Option<()>
    requires going { S.over s.old ≡ false }
    requires picture { IsInPicture shape.now at }
    ensures reads { (mbs : List Mb) → IsReadAt shape.now done.now mbs at → Reads S.step (inter_prediction shape.now mbs at mb.old) (option_map (λ _. mb.new) result) s.old s.new }
    ensures going { OnSome result (S.over s.new ≡ false) }
    ensures others { mb.new ≡ record mb.old { subs = mb.new.subs; refs = mb.new.refs; mvd = mb.new.mvd } }
{
    read_subs(s, mb)?;
    read_refs(s, shape, done, at, 0, mb)?;
    read_refs(s, shape, done, at, 1, mb)?;
    read_mvds(s, shape, done, at, 0, mb)?;
    read_mvds(s, shape, done, at, 1, mb)
}

/// Writes the prediction of a macroblock, as `read_inter_prediction` reads it.
pub fn write_inter_prediction<S: BinSink>(
    s: &mut S,
    shape: &SliceShape,
    done: &Rows<Mb>,
    at: u32,
    mb: &Mb,
) -> Result<(), Memory>
    requires going { S.over s.old ≡ false }
    requires picture { IsInPicture shape.now at }
    requires shape { IsSliceShape shape.now }
    requires predicted { IsInterPredicted shape.now mb.now }
    ensures writes { (mbs : List Mb) → IsReadAt shape.now done.now mbs at → OnOk result (Writes S.step (inter_prediction shape.now mbs at (typed mb.now)) (predicted mb.now) s.old s.new) }
    ensures going { OnOk result (S.over s.new ≡ false) }
    ensures err { OnErr result (S.over s.new ≡ true) }
{
    has_sizes(mb);
    write_subs(s, mb)?;
    write_refs(s, shape, done, at, 0, mb)?;
    write_refs(s, shape, done, at, 1, mb)?;
    write_mvds(s, shape, done, at, 0, mb)?;
    write_mvds(s, shape, done, at, 1, mb)
}
