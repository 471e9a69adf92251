ghost use Rattle.std.specs.Prelude.{◌≡◌, false, true, option_map, OnOk, OnSome, OnErr, List};
ghost use Rattle.binarisation.specs.BinString.{Reads, Writes};
ghost use Rattle.h264_types.specs.Slice.{IsInPicture};
ghost use Rattle.cabac_contexts.specs.Terms.{IsReadAt};
ghost use Rattle.h264_types.specs.declared.macroblock.Mb.{Mb};
ghost use Rattle.cabac_mb_residual.specs.MacroblockResidual.{residual};
ghost use Rattle.cabac_mb_residual.specs.Levels.{IsResidual, without_levels};

use crate::chroma::{read_chroma_ac, read_chroma_dc, write_chroma_ac, write_chroma_dc};
use crate::luma::{read_luma, read_luma_dc, write_luma, write_luma_dc};
use cabac_engine::{BinSink, BinSource};
use h264_types::{Mb, Rows, SliceShape, has_sizes};
use std::alloc::AllocError as Memory;

/// Reads the residual of a macroblock (7.3.5.3) that has its type, transform_size_8x8_flag and pattern, and whose levels are
/// all 0. `done` has the last two rows of the slice's macroblocks, of which all before number `at` are done and none behind it,
/// in MBAFF none behind its pair. None where the source ran out, or a level is above 65535 in magnitude; what the macroblock
/// then holds isn't said, but for its type.
pub fn read_residual<S: BinSource>(
    s: &mut S,
    shape: &SliceShape,
    done: &Rows<Mb>,
    at: u32,
    mb: &mut Mb,
) -> Option<()>
    requires going { S.over s.old ≡ false }
    requires picture { IsInPicture shape.now at }
    ensures reads { (mbs : List Mb) → IsReadAt shape.now done.now mbs at → Reads S.step (residual shape.now mbs at mb.old) (option_map (λ _. mb.new) result) s.old s.new }
    ensures going { OnSome result (S.over s.new ≡ false) }
    ensures kind { mb.new.kind ≡ mb.old.kind }
{
    read_luma_dc(s, shape, done, at, mb)?;
    read_luma(s, shape, done, at, mb)?;
    read_chroma_dc(s, shape, done, at, mb)?;
    read_chroma_ac(s, shape, done, at, mb)
}

/// Writes the residual of a macroblock, as `read_residual` reads it.
pub fn write_residual<S: BinSink>(
    s: &mut S,
    shape: &SliceShape,
    done: &Rows<Mb>,
    at: u32,
    mb: &Mb,
) -> Result<(), Memory>
    requires going { S.over s.old ≡ false }
    requires picture { IsInPicture shape.now at }
    requires residual { IsResidual mb.now }
    ensures writes { (mbs : List Mb) → IsReadAt shape.now done.now mbs at → OnOk result (Writes S.step (residual shape.now mbs at (without_levels mb.now)) mb.now s.old s.new) }
    ensures going { OnOk result (S.over s.new ≡ false) }
    ensures err { OnErr result (S.over s.new ≡ true) }
{
    has_sizes(mb);
    write_luma_dc(s, shape, done, at, mb)?;
    write_luma(s, shape, done, at, mb)?;
    write_chroma_dc(s, shape, done, at, mb)?;
    write_chroma_ac(s, shape, done, at, mb)
}
