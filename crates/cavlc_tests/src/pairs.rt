//! The neighbours in MBAFF by Table 6-4, what they count (9.2.1), and the pair flags that are inferred (7.4.4).
ghost use Rattle.std.specs.Prelude.{◌≡◌, ◌+◌, ◌*◌, ◌<◌, length};
ghost use Rattle.h264_types.specs.SliceShape.{IsSliceShape};

use crate::spots::{is_place, is_spot, rows_of, shape, skipped};
use cavlc_mb_residual::{Around, Counts, Sides};
use h264_types::{Mb, MbKind, Rows, SliceShape, valid};
use mb_neighbours::{At, above, left};
use mbaff_infer::inferred_flag;
use std::alloc::{AllocError as Memory, Global};
use std::test::Fail;

/// The second and the third pair of a row, after frame or field pairs: the flag of the current pair, those of the first and of
/// the second, the macroblock and its place, and what is to the left of it. The last rows are of a frame pair after a skipped
/// one, which has the flag of the field pair before it.
static LEFT: [(bool, bool, bool, u32, At, u32, u8); 16] = [
    (false, false, false, 2, At::Luma4(10), 0, 15),
    (false, false, false, 3, At::Luma4(10), 1, 15),
    (false, true, false, 2, At::Luma4(2), 0, 5),
    (false, true, false, 2, At::Luma4(8), 0, 7),
    (false, true, false, 3, At::Luma4(0), 0, 13),
    (false, true, false, 3, At::Chroma4(0), 0, 3),
    (true, false, false, 2, At::Luma4(2), 0, 13),
    (true, false, false, 2, At::Luma4(8), 1, 5),
    (true, false, false, 3, At::Luma8(2), 1, 1),
    (true, false, false, 3, At::Whole, 0, 0),
    (true, true, false, 2, At::Luma4(8), 0, 13),
    (true, true, false, 3, At::Whole, 1, 0),
    (true, true, false, 3, At::Chroma4(1), 3, 0),
    (false, true, true, 4, At::Luma4(2), 2, 5),
    (false, true, true, 5, At::Luma4(2), 2, 13),
    (false, true, true, 5, At::Chroma4(2), 2, 3),
];

#[test]
fn blocks_beside_the_left_pair(rt: HostRuntime) -> Result<(), Fail> {
    let shape = shape(3, 0, true);
    assert!(rt; shape.is_shape());
    for (field, first, second, at, place, mb, block) in &LEFT {
        assert!(rt; *at < 6 && is_place(*place));
        let (first_mb, second_mb) = (skipped(*first), skipped(*second));
        let mbs = [first_mb, first_mb, second_mb, second_mb];
        let done = rows_of(rt.alloc(), &shape, &mbs)?;
        let found = left(&shape, &done, *at, *field, *place);
        assert!(rt; is_spot(found, Some(*mb), *block));
    }
    Ok(())
}

/// The pair below a frame or a field pair: its flag, that of the pair above, its macroblock 2 or 3, and the one above that.
static ABOVE: [(bool, bool, u32, u32); 8] = [
    (false, false, 2, 1),
    (false, true, 2, 1),
    (false, false, 3, 2),
    (false, true, 3, 2),
    (true, false, 2, 1),
    (true, true, 2, 0),
    (true, false, 3, 1),
    (true, true, 3, 1),
];

/// A place, and the block above it.
static BLOCKS_ABOVE: [(At, u8); 4] = [
    (At::Luma4(5), 15),
    (At::Luma8(0), 2),
    (At::Chroma4(1), 3),
    (At::Whole, 0),
];

#[test]
fn blocks_below_the_pair_above(rt: HostRuntime) -> Result<(), Fail> {
    let shape = shape(1, 0, true);
    assert!(rt; shape.is_shape());
    for (field, above_field, at, mb) in &ABOVE {
        assert!(rt; *at < 4);
        let done = rows_of(rt.alloc(), &shape, &[skipped(*above_field); 2])?;
        for (place, block) in &BLOCKS_ABOVE {
            assert!(rt; is_place(*place));
            let found = above(&shape, &done, *at, *field, *place);
            assert!(rt; is_spot(found, Some(*mb), *block));
        }
    }
    Ok(())
}

/// In rows of two pairs, behind so many macroblocks of other slices: the flags of four pairs, and which of them is skipped: its
/// flag is inferred.
static INFERRED: [(u32, [bool; 4], usize); 8] = [
    // a field pair to the left and a frame pair above; the other way round
    (0, [false, false, true, true], 3),
    (0, [true, true, false, false], 3),
    // no pair to the left, and a field pair above; a frame pair above
    (0, [true, false, true, false], 2),
    (0, [false, true, false, true], 2),
    // neither
    (0, [false, true, true, true], 0),
    // the pair to the left is one of another slice; that above is; a field pair to the left, and a frame pair above
    (2, [false, true, true, true], 0),
    (2, [true, false, true, true], 1),
    (2, [false, true, true, false], 2),
];

/// A macroblock of P_L0_16x16.
fn coded(field: bool) -> Mb {
    let mut mb = Mb::without_elements(MbKind::P(0));
    mb.field = field;
    mb
}

/// Coded pairs of these flags, but one of them skipped, with a flag of its own.
fn with_skipped(flags: &[bool; 4], pair: usize, flag: bool) -> [Mb; 8]
    requires { pair < 4 }
{
    let [first, second, third, fourth] = *flags;
    let (first, second, third, fourth) = (coded(first), coded(second), coded(third), coded(fourth));
    let mut mbs = [first, first, second, second, third, third, fourth, fourth];
    mbs[2 * pair] = skipped(flag);
    mbs[2 * pair + 1] = skipped(flag);
    mbs
}

#[test]
fn flags_of_skipped_pairs(rt: HostRuntime) -> Result<(), Fail> {
    for (first, flags, pair) in &INFERRED {
        assert!(rt; *first <= 2);
        assert!(rt; *pair < 4);
        let shape = shape(2, *first, true);
        assert!(rt; shape.is_shape());
        let flag = flags[*pair];
        let mbs = with_skipped(flags, *pair, flag);
        assert!(rt; valid(&shape, &mbs));
        assert!(rt; !valid(&shape, &with_skipped(flags, *pair, !flag)));
        let done = rows_of(rt.alloc(), &shape, &mbs[..2 * *pair])?;
        let pairs = done.count() / 2;
        assert!(rt; pairs < 7);
        assert!(rt; inferred_flag(&shape, &done, pairs) == flag);
    }
    Ok(())
}

/// Blocks of the last column and of the lowest row, and how many levels each has in a top macroblock.
static LEVELS: [(u8, u8); 7] = [(5, 1), (7, 2), (13, 3), (15, 4), (10, 5), (11, 6), (14, 7)];

/// A macroblock whose blocks count so many more than those of a top one.
fn counting(more: u8, field: bool) -> Mb {
    let mut mb = coded(field);
    for (block, count) in &LEVELS {
        for place in 0..16u8 {
            if place < count.saturating_add(more) {
                mb.luma[usize::from(*block / 4 % 4)][usize::from(16 * (*block % 4) + place)] = 1;
            }
        }
    }
    mb
}

/// What stands around the macroblock behind these.
fn around_next(alloc: Global, shape: &SliceShape, mbs: &[Mb], field: bool) -> Result<Around, Memory>
    requires shape { IsSliceShape shape.now }
    requires picture { shape.now.first + length mbs.now < shape.now.width * shape.now.height }
{
    let mut rows = Rows::<Counts>::start(alloc, shape)?;
    for mb in mbs {
        rows.push(mb);
    }
    Ok(Around::of_next(shape, &rows, field))
}

/// The second pair of a row, to the right of a frame or field pair and below another of that kind: the flag of those two, its
/// own, whether its bottom macroblock is looked at, and what the blocks count to the left and above.
static AROUND: [(bool, bool, bool, [u8; 4], [u8; 4]); 8] = [
    (false, false, false, [1, 2, 3, 4], [13, 14, 15, 12]),
    (false, false, true, [9, 10, 11, 12], [5, 6, 7, 4]),
    (true, false, false, [1, 1, 2, 2], [13, 14, 15, 12]),
    (true, false, true, [3, 3, 4, 4], [5, 6, 7, 4]),
    (false, true, false, [1, 3, 9, 11], [13, 14, 15, 12]),
    (false, true, true, [1, 3, 9, 11], [13, 14, 15, 12]),
    (true, true, false, [1, 2, 3, 4], [5, 6, 7, 4]),
    (true, true, true, [9, 10, 11, 12], [13, 14, 15, 12]),
];

#[test]
fn counts_beside_pairs(rt: HostRuntime) -> Result<(), Fail> {
    let shape = shape(2, 0, true);
    assert!(rt; shape.is_shape());
    for (beside, field, bottom, left, above) in &AROUND {
        let (top, low) = (counting(0, *beside), counting(8, *beside));
        let mbs = [top, low, top, low, top, low, counting(0, *field)];
        let before = if *bottom { 7 } else { 6 };
        let around = around_next(rt.alloc(), &shape, &mbs[..before], *field)?;
        let (left, above) = (Some(*left), Some(*above));
        assert!(rt; around.luma == Sides { left, above });
    }
    Ok(())
}
