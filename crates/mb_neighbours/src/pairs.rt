// Neighbours between the pairs of a macroblock-adaptive frame (6.4.10, 6.4.12.2).
ghost use Rattle.std.specs.Prelude.{◌≡◌, ◌+◌, ◌*◌, ◌%◌, ◌^◌, ◌<◌, ◌≤◌, true, List, IfSome};
ghost use Rattle.h264_types.specs.LastRows.{AreRows, IsRecent, StandsAt};
ghost use Rattle.h264_types.specs.Slice.{IsInPicture};
ghost use Rattle.h264_types.specs.declared.macroblock.Mb.{Mb};
ghost use Rattle.h264_types.specs.declared.slice_shape.SliceShape.{SliceShape};
ghost use Rattle.mb_neighbours.specs.Place.{IsPlace, count_of};
ghost use Rattle.mb_neighbours.specs.Pair.{left_half, left_row, above_half};
ghost use Rattle.mb_neighbours.specs.Near.{left_in_pair, left_in_pairs, above_in_pairs};

use crate::of_pair::{OfPair, is_field_at};
use crate::place::{At, Spot};
use h264_types::slice_order::above_number;
use h264_types::{Rows, SliceShape};

pub(crate) fn in_left_pair<K: OfPair>(
    done: &Rows<K>,
    at: u32,
    field: bool,
    place: At,
) -> Option<Spot>
    requires place { IsPlace place }
    ensures value { (shape : SliceShape) (mbs : List Mb) → shape.mbaff ≡ true → StandsAt K.of shape done.now mbs at → result ≡ left_in_pairs shape mbs at field place }
    ensures before { IfSome result (λ found. found.mb < at) }
    ensures block { IfSome result (λ found. found.block < count_of place) }
{
    let pair = done.left_number(at / 2)?;
    Some(spot_in_left_pair(done, pair, at % 2, field, place))
}

fn spot_in_left_pair<K: OfPair>(
    done: &Rows<K>,
    pair: u32,
    bottom: u32,
    field: bool,
    place: At,
) -> Spot
    requires fits { 2 * pair + 1 < 2 ^ 32 }
    requires bottom { bottom < 2 }
    requires place { IsPlace place }
    ensures value { (shape : SliceShape) (mbs : List Mb) → AreRows K.of shape done.now mbs → IsRecent done.now (2 * pair) → result ≡ left_in_pair mbs pair bottom field place }
    ensures pair { result.mb ≤ 2 * pair + 1 }
    ensures block { result.block < count_of place }
{
    let size = place.size();
    let left_field = is_field_at(done, 2 * pair);
    let beside = row_of_left_pair(field, left_field, bottom as u8, place.y(), size);
    place.spot(2 * pair + u32::from(beside.half), size - 1, beside.row)
}

/// A row of one of a pair's macroblocks: of the upper or top field one where `half` is 0.
#[derive(Clone, Copy)]
pub(crate) struct PairRow {
    pub(crate) half: u8,
    pub(crate) row: u8,
}

/// The row of the left pair at the line of the pair where row y of the current macroblock stands. Lines alternate
/// between the macroblocks of a field pair; a frame pair has those of its upper macroblock first.
pub(crate) fn row_of_left_pair(
    field: bool,
    left_field: bool,
    bottom: u8,
    y: u8,
    size: u8,
) -> PairRow
    requires bottom { bottom < 2 }
    requires y { y < size }
    requires even { size % 2 ≡ 0 }
    requires size { size ≤ 16 }
    ensures half { result.half ≡ left_half field left_field bottom y size }
    ensures row { result.row ≡ left_row field left_field bottom y size }
    ensures half_bound { result.half < 2 }
    ensures row_bound { result.row < size }
{
    let line = if field {
        2 * y + bottom
    } else if bottom == 1 {
        y + size
    } else {
        y
    };
    if left_field {
        PairRow {
            half: line % 2,
            row: line / 2,
        }
    } else if line < size {
        PairRow { half: 0, row: line }
    } else {
        PairRow {
            half: 1,
            row: line - size,
        }
    }
}

pub(crate) fn in_pair_above<K: OfPair>(
    shape: &SliceShape,
    done: &Rows<K>,
    at: u32,
    field: bool,
    place: At,
) -> Option<Spot>
    requires picture { IsInPicture shape.now at }
    requires place { IsPlace place }
    ensures value { (mbs : List Mb) → shape.now.mbaff ≡ true → StandsAt K.of shape.now done.now mbs at → result ≡ above_in_pairs shape.now mbs at field place }
    ensures before { IfSome result (λ found. found.mb < at) }
    ensures block { IfSome result (λ found. found.block < count_of place) }
{
    let bottom = at % 2;
    if !field && bottom == 1 {
        return Some(place.lowest(at - 1));
    }
    let pair = above_number(shape.width, at as usize / 2)? as u32;
    let half = half_of_pair_above(field, is_field_at(done, 2 * pair), bottom);
    Some(place.lowest(2 * pair + half))
}

fn half_of_pair_above(field: bool, above_field: bool, bottom: u32) -> u32
    requires { bottom < 2 }
    ensures half { result ≡ above_half field above_field bottom }
    ensures bound { result < 2 }
{
    if field && above_field { bottom } else { 1 }
}
