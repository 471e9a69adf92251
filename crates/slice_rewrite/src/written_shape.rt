// The shape that a slice is written in.
ghost use Rattle.std.specs.Prelude.{◌≡◌, ◌<◌, ℕ};
ghost use Rattle.h264_types.specs.SliceShape.{IsSliceShape};
ghost use Rattle.header_parts.specs.ActiveSets.{Active};
ghost use Rattle.header_parts.specs.declared.header.Header.{Header};
ghost use Rattle.slice_header.specs.HeaderCodes.{active_in, header_in, unconstrained};
ghost use Rattle.slice_header.specs.Shape.{shape_of};
ghost use Rattle.slice_rewrite.specs.SliceForms.{IsOtherColumn};

use h264_types::{Layer, SliceKind, SliceShape};

/// The shape of a slice as it is written in a layer: that of the slice that was read but for the column of the table of initial
/// pairs (9.3.1.1), which is that of the cabac_init_idc that is written. In CAVLC none is, and nothing rests on the column.
pub(crate) fn written_shape(shape: &SliceShape, to: Layer, idc: u8) -> SliceShape
    requires { idc < 3 }
    ensures other { IsSliceShape shape.now → IsOtherColumn shape.now result }
    ensures written { (active : Active) (h : Header) (number : ℕ) → shape.now ≡ shape_of active h → result ≡ shape_of (active_in to number (unconstrained active)) (header_in to number idc h) }
{
    let column = match (shape.kind, to) {
        (SliceKind::I, _) => 0,
        (_, Layer::Cavlc) => 1,
        (_, Layer::Cabac) => idc + 1,
    };
    SliceShape { column, ..*shape }
}
