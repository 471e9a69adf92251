// Macroblocks in their written form.
ghost use Rattle.std.specs.Prelude.{◌≡◌, ◌++◌, ◌&&◌, List, Bool};
ghost use Rattle.h264_types.specs.declared.macroblock.Mb.{Mb};
ghost use Rattle.h264_types.specs.declared.slice_shape.SliceShape.{SliceShape};
ghost use Rattle.h264_types.specs.Valid.{is_ref0};
ghost use Rattle.init_table.specs.declared.table.InitTable.{InitTable};
ghost use Rattle.pattern_fix.specs.NormalPattern.{IsEmptied};
ghost use Rattle.slice_data.specs.Writing.{MayPut};
ghost use Rattle.slice_rewrite.specs.SliceForms.{PutsWritten, StopsIn};
ghost use Rattle.slice_data.specs.WrittenForm.{has_ref0, written_mb};

use h264_types::validity::is_p_8x8ref0;
use h264_types::{Case, Layer, Mb};
use pattern_fix::normalise;
use slice_data::{PutFault, SliceWriter};
use std::alloc::AllocError as Memory;

/// Puts a macroblock in its written form. Some: why it can't be written; it wasn't put. What `mb` holds then isn't said.
pub fn put_written<W: SliceWriter>(writer: &mut W, mb: &mut Mb) -> Result<Option<Case>, Memory>
    requires levels { StopsIn W.LAYER W.is_beyond }
    requires next { (IsEmptied mb.old → ⊥) → MayPut W.LAYER W.writes writer.old (written_mb W.LAYER mb.old) }
    ensures { (init : InitTable) (shape : SliceShape) (before : List Bool) (done : List Mb) → W.writes init writer.old shape before done → PutsWritten (W.writes init) W.LAYER writer.new shape before done mb.old result }
{
    let Ok(()) = normalise(mb) else {
        return Ok(Some(Case::Empty));
    };
    mb.ref0 = is_ref0_in(W::LAYER, mb);
    match writer.put(mb) {
        Ok(()) => Ok(None),
        Err(PutFault::Beyond) => Ok(Some(Case::Level)),
        Err(PutFault::Memory) => Err(Memory),
    }
}

/// Whether a macroblock in normal form is written as P_8x8ref0, which CABAC hasn't (Table 7-13).
pub(crate) fn is_ref0_in(to: Layer, mb: &Mb) -> bool
    ensures { result ≡ (has_ref0 to && is_ref0 mb.now) }
{
    matches!(to, Layer::Cavlc) && is_p_8x8ref0(mb)
}
