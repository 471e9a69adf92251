// Neighbours in the rows of a field, or of a frame whose macroblocks aren't in pairs (6.4.9, 6.4.12.1).
ghost use Rattle.std.specs.Prelude.{◌≡◌, ◌<◌, false, List, IfSome};
ghost use Rattle.h264_types.specs.LastRows.{StandsAt};
ghost use Rattle.h264_types.specs.Slice.{IsInPicture};
ghost use Rattle.h264_types.specs.declared.macroblock.Mb.{Mb};
ghost use Rattle.h264_types.specs.declared.slice_shape.SliceShape.{SliceShape};
ghost use Rattle.mb_neighbours.specs.Place.{IsPlace, count_of};
ghost use Rattle.mb_neighbours.specs.Near.{left_in_rows, above_in_rows};

use crate::place::{At, Spot};
use h264_types::slice_order::above_number;
use h264_types::{OfMb, Rows, SliceShape};

pub(crate) fn left_in_row<K: OfMb>(done: &Rows<K>, at: u32, place: At) -> Option<Spot>
    requires place { IsPlace place }
    ensures value { (shape : SliceShape) (mbs : List Mb) → shape.mbaff ≡ false → StandsAt K.of shape done.now mbs at → result ≡ left_in_rows shape at place }
    ensures before { IfSome result (λ found. found.mb < at) }
    ensures block { IfSome result (λ found. found.block < count_of place) }
{
    let mb = done.left_number(at)?;
    Some(place.spot(mb, place.size() - 1, place.y()))
}

pub(crate) fn in_row_above(shape: &SliceShape, at: u32, place: At) -> Option<Spot>
    requires picture { IsInPicture shape.now at }
    requires place { IsPlace place }
    ensures value { result ≡ above_in_rows shape.now at place }
    ensures before { IfSome result (λ found. found.mb < at) }
    ensures block { IfSome result (λ found. found.block < count_of place) }
{
    let mb = above_number(shape.width, at as usize)?;
    Some(place.lowest(mb as u32))
}
