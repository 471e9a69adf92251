//! The neighbours of macroblocks and blocks outside MBAFF (6.4.9, 6.4.11).
use crate::spots::{is_place, is_spot, rows_of, shape, skipped};
use mb_neighbours::{At, above, left};
use std::test::Fail;

/// In rows of three, from the second macroblock of a row on: 0 1, 2 3 4, 5 6. Those to the left and above.
static BESIDE: [(u32, Option<u32>, Option<u32>); 7] = [
    (0, None, None),
    (1, Some(0), None),
    (2, None, None),
    (3, Some(2), Some(0)),
    (4, Some(3), Some(1)),
    (5, None, Some(2)),
    (6, Some(5), Some(3)),
];

/// A place, and the blocks to the left and above in those macroblocks.
static PLACES: [(At, u8, u8); 4] = [
    (At::Whole, 0, 0),
    (At::Luma4(0), 5, 10),
    (At::Luma8(0), 1, 2),
    (At::Chroma4(0), 1, 2),
];

#[test]
fn a_slice_from_the_middle_of_a_row_on(rt: HostRuntime) -> Result<(), Fail> {
    let shape = shape(3, 4, false);
    let mbs = [skipped(false); 7];
    for (at, mb_left, mb_above) in &BESIDE {
        assert!(rt; *at < 7 && shape.is_shape());
        let done = rows_of(rt.alloc(), &shape, &mbs[..*at as usize])?;
        for (place, block_left, block_above) in &PLACES {
            assert!(rt; is_place(*place));
            let found = left(&shape, &done, *at, false, *place);
            assert!(rt; is_spot(found, *mb_left, *block_left));
            let found = above(&shape, &done, *at, false, *place);
            assert!(rt; is_spot(found, *mb_above, *block_above));
        }
    }
    Ok(())
}

/// The blocks to the left and above of those of macroblock 4, by number; those beside the first column are of macroblock 3,
/// those over the first row of macroblock 1.
static BLOCKS: [(At, u32, u8, u32, u8); 24] = [
    (At::Luma4(0), 3, 5, 1, 10),
    (At::Luma4(1), 4, 0, 1, 11),
    (At::Luma4(2), 3, 7, 4, 0),
    (At::Luma4(3), 4, 2, 4, 1),
    (At::Luma4(4), 4, 1, 1, 14),
    (At::Luma4(5), 4, 4, 1, 15),
    (At::Luma4(6), 4, 3, 4, 4),
    (At::Luma4(7), 4, 6, 4, 5),
    (At::Luma4(8), 3, 13, 4, 2),
    (At::Luma4(9), 4, 8, 4, 3),
    (At::Luma4(10), 3, 15, 4, 8),
    (At::Luma4(11), 4, 10, 4, 9),
    (At::Luma4(12), 4, 9, 4, 6),
    (At::Luma4(13), 4, 12, 4, 7),
    (At::Luma4(14), 4, 11, 4, 12),
    (At::Luma4(15), 4, 14, 4, 13),
    (At::Luma8(0), 3, 1, 1, 2),
    (At::Luma8(1), 4, 0, 1, 3),
    (At::Luma8(2), 3, 3, 4, 0),
    (At::Luma8(3), 4, 2, 4, 1),
    (At::Chroma4(0), 3, 1, 1, 2),
    (At::Chroma4(1), 4, 0, 1, 3),
    (At::Chroma4(2), 3, 3, 4, 0),
    (At::Chroma4(3), 4, 2, 4, 1),
];

#[test]
fn blocks_of_a_macroblock(rt: HostRuntime) -> Result<(), Fail> {
    let shape = shape(3, 0, false);
    assert!(rt; shape.is_shape());
    let done = rows_of(rt.alloc(), &shape, &[skipped(false); 4])?;
    for (place, mb_left, block_left, mb_above, block_above) in &BLOCKS {
        assert!(rt; is_place(*place));
        let found = left(&shape, &done, 4, false, *place);
        assert!(rt; is_spot(found, Some(*mb_left), *block_left));
        let found = above(&shape, &done, 4, false, *place);
        assert!(rt; is_spot(found, Some(*mb_above), *block_above));
    }
    Ok(())
}
