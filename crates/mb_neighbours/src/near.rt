ghost use Rattle.std.specs.Prelude.{◌≡◌, ◌<◌, List, IfSome};
ghost use Rattle.h264_types.specs.LastRows.{StandsAt};
ghost use Rattle.h264_types.specs.Slice.{IsInPicture};
ghost use Rattle.h264_types.specs.declared.macroblock.Mb.{Mb};
ghost use Rattle.mb_neighbours.specs.Place.{IsPlace, count_of};
ghost use Rattle.mb_neighbours.specs.Near.{IsBefore, left_of, above_of};

use crate::of_pair::OfPair;
use crate::pairs::{in_left_pair, in_pair_above};
use crate::place::{At, Spot};
use crate::rows::{in_row_above, left_in_row};
use h264_types::{Rows, SliceShape};

/// The macroblock and block to the left of a place of macroblock `at`, neighbour A of 6.4.11. None where the slice
/// has none there.
///
/// `at` is a number in the slice, the first macroblock being 0: that of the next one of `done` or of the last one, in MBAFF
/// of the pair of one of them. `field` is the pair flag that counts for `at`, false outside MBAFF.
#[inline(always)]
pub fn left<K: OfPair>(
    shape: &SliceShape,
    done: &Rows<K>,
    at: u32,
    field: bool,
    place: At,
) -> Option<Spot>
    requires place { IsPlace place }
    ensures value { (mbs : List Mb) → StandsAt K.of shape.now done.now mbs at → result ≡ left_of shape.now mbs at field place }
    ensures before { IfSome result (λ found. IsBefore found at place) }
    ensures block { IfSome result (λ found. found.block < count_of place) }
{
    let x = place.x();
    if x > 0 {
        Some(place.spot(at, x - 1, place.y()))
    } else if shape.mbaff {
        in_left_pair(done, at, field, place)
    } else {
        left_in_row(done, at, place)
    }
}

/// The macroblock and block above a place of macroblock `at`, neighbour B of 6.4.11. None where the slice has none
/// there. The arguments are those of [`left`]. In MBAFF a frame macroblock at the bottom of its pair answers the top,
/// which `done` need not have.
#[inline(always)]
pub fn above<K: OfPair>(
    shape: &SliceShape,
    done: &Rows<K>,
    at: u32,
    field: bool,
    place: At,
) -> Option<Spot>
    requires picture { IsInPicture shape.now at }
    requires place { IsPlace place }
    ensures value { (mbs : List Mb) → StandsAt K.of shape.now done.now mbs at → result ≡ above_of shape.now mbs at field place }
    ensures before { IfSome result (λ found. IsBefore found at place) }
    ensures block { IfSome result (λ found. found.block < count_of place) }
{
    let y = place.y();
    if y > 0 {
        Some(place.spot(at, place.x(), y - 1))
    } else if shape.mbaff {
        in_pair_above(shape, done, at, field, place)
    } else {
        in_row_above(shape, at, place)
    }
}
