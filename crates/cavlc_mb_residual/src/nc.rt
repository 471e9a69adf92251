ghost use Rattle.std.specs.Prelude.{◌≡◌, ◌≤◌, ◌<◌, pos, IfSome, slice_index_or};
ghost use Rattle.mb_neighbours.specs.Place.{IsPlace, x_of, y_of, covering};
ghost use Rattle.cavlc_mb_residual.specs.Counts as count;

use crate::counts::Sides;
use mb_neighbours::At;

/// The column of the upper left sample of a place in its macroblock.
#[inline(always)]
fn column_of(place: At) -> u8
    requires { IsPlace place }
    ensures value { result ≡ x_of place }
    ensures inside { result < 16 }
{
    match place {
        At::Whole => 0,
        At::Luma4(block) => 8 * (block / 4 % 2) + 4 * (block % 2),
        At::Luma8(quarter) => 8 * (quarter % 2),
        At::Chroma4(block) => 4 * (block % 2),
    }
}

/// The row of the upper left sample of a place in its macroblock.
#[inline(always)]
fn row_of(place: At) -> u8
    requires { IsPlace place }
    ensures value { result ≡ y_of place }
    ensures inside { result < 16 }
{
    match place {
        At::Whole => 0,
        At::Luma4(block) => 8 * (block / 8) + 4 * (block % 4 / 2),
        At::Luma8(quarter) => 8 * (quarter / 2),
        At::Chroma4(block) => 4 * (block / 2),
    }
}

/// The block of a place's kind that has the sample in column x, row y.
#[inline(always)]
fn block_at(place: At, x: u8, y: u8) -> u8
    requires x { x < 16 }
    requires y { y < 16 }
    ensures { result ≡ covering place x y }
{
    match place {
        At::Whole => 0,
        At::Luma4(_) => 8 * (y / 8) + 4 * (x / 8) + 2 * (y % 8 / 4) + x % 8 / 4,
        At::Luma8(_) => 2 * (y / 8) + x / 8,
        At::Chroma4(_) => 2 * (y / 4) + x / 4,
    }
}

#[inline(always)]
fn count_of_block(counts: &[u8], block: u8) -> u8
    requires { count.AreSmall counts.now }
    ensures value { result ≡ slice_index_or counts.now block 0 }
    ensures small { result ≤ 16 }
{
    counts.get(usize::from(block)).copied().unwrap_or(0)
}

/// What the block to the left of a place counts, where it is available.
#[inline(always)]
fn left_count(sides: &Sides, counts: &[u8], place: At) -> Option<u8>
    requires place { IsPlace place }
    requires sides { count.AreSides sides.now }
    requires counts { count.AreSmall counts.now }
    ensures value { result ≡ count.left_count sides.now counts.now place }
    ensures small { IfSome result (λ c. c ≤ 16) }
{
    let x = column_of(place);
    let y = row_of(place);
    if x > 0 {
        return Some(count_of_block(counts, block_at(place, x - 1, y)));
    }
    let column = sides.left?;
    Some(count_of_block(&column, y / 4))
}

/// What the block above a place counts, where it is available.
#[inline(always)]
fn above_count(sides: &Sides, counts: &[u8], place: At) -> Option<u8>
    requires place { IsPlace place }
    requires sides { count.AreSides sides.now }
    requires counts { count.AreSmall counts.now }
    ensures value { result ≡ count.above_count sides.now counts.now place }
    ensures small { IfSome result (λ c. c ≤ 16) }
{
    let x = column_of(place);
    let y = row_of(place);
    if y > 0 {
        return Some(count_of_block(counts, block_at(place, x, y - 1)));
    }
    let row = sides.above?;
    Some(count_of_block(&row, x / 4))
}

#[inline(always)]
fn mean(left: Option<u8>, above: Option<u8>) -> i8
    requires left { IfSome left (λ c. c ≤ 16) }
    requires above { IfSome above (λ c. c ≤ 16) }
    ensures { result ≡ pos (count.mean left above) }
{
    let count = match (left, above) {
        (Some(left), Some(above)) => (left + above + 1) / 2,
        (Some(left), None) => left,
        (None, Some(above)) => above,
        (None, None) => 0,
    };
    count as i8
}

/// nC of the block at a place, where `counts` tells what the blocks before it in its macroblock count.
#[tactic(auto, unfolding(crate::specs::Counts::nC))]
#[inline(always)]
pub fn nc(sides: &Sides, counts: &[u8], place: At) -> i8
    requires place { IsPlace place }
    requires sides { count.AreSides sides.now }
    requires counts { count.AreSmall counts.now }
    ensures { result ≡ pos (count.nC sides.now counts.now place) }
{
    mean(
        left_count(sides, counts, place),
        above_count(sides, counts, place),
    )
}
