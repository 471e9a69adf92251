ghost use Rattle.std.specs.Prelude.{◌≡◌, ◌+◌, ◌*◌, ◌≤◌, true, List};
ghost use Rattle.h264_types.specs.LastRows.{AreRows};
ghost use Rattle.h264_types.specs.Slice.{IsInPicture, inferred_field};
ghost use Rattle.h264_types.specs.SliceShape.{IsSliceShape};
ghost use Rattle.h264_types.specs.declared.macroblock.Mb.{Mb};

use h264_types::slice_order::above_number;
use h264_types::{Rows, SliceShape};
use mb_neighbours::{OfPair, is_field_at};

/// The flag that is inferred for a pair, a number in the slice: that of the pair to the left in the slice, else that of the
/// pair above, else false. It is the pair of the next macroblock of `done` or of the last one.
pub fn inferred_flag<K: OfPair>(shape: &SliceShape, done: &Rows<K>, pair: u32) -> bool
    requires shape { IsSliceShape shape.now }
    requires mbaff { shape.now.mbaff ≡ true }
    requires picture { IsInPicture shape.now (2 * pair) }
    requires before { 2 * pair ≤ done.now.count }
    requires behind { done.now.count ≤ 2 * pair + 2 }
    ensures { (mbs : List Mb) → AreRows K.of shape.now done.now mbs → result ≡ inferred_field shape.now mbs pair }
{
    if let Some(left) = done.left_number(pair) {
        is_field_at(done, 2 * left)
    } else if let Some(above) = above_number(shape.width, pair as usize) {
        is_field_at(done, 2 * above as u32)
    } else {
        false
    }
}
