//! The last two rows of a slice's macroblocks.
use crate::spots::{rows_of, shape, skipped};
use h264_types::{Mb, Rows, SliceKind, SliceShape};
use std::test::Fail;

/// A slice that begins a picture.
static SHAPE: SliceShape = SliceShape {
    kind: SliceKind::P,
    width: 2,
    height: 3,
    first: 0,
    mbaff: false,
    field_pic: false,
    refs: [1, 0],
    t8_mode: false,
    direct8: true,
    profile: 77,
    qp: 26,
    column: 1,
};

fn with_delta(delta: i8) -> Mb {
    let mut mb = skipped(false);
    mb.qp_delta = delta;
    mb
}

/// The mb_qp_delta of a macroblock that is kept.
fn delta_at(rows: &Rows<Mb>, number: u32) -> Option<i8> {
    match rows.get(number) {
        Some(mb) => Some(mb.qp_delta),
        None => None,
    }
}

/// Macroblocks, and the mb_qp_delta of each that is kept: of five the last four.
static KEPT: [(u32, Option<i8>); 6] = [
    (0, None),
    (1, Some(1)),
    (2, Some(2)),
    (3, Some(3)),
    (4, Some(4)),
    (5, None),
];

#[test]
fn two_rows_of_two(rt: HostRuntime) -> Result<(), Fail> {
    let mbs = [
        with_delta(0),
        with_delta(1),
        with_delta(2),
        with_delta(3),
        with_delta(4),
    ];
    assert!(rt; SHAPE.is_shape());
    let rows = rows_of(rt.alloc(), &SHAPE, &mbs)?;
    assert!(rt; rows.count() == 5);
    for (number, delta) in &KEPT {
        assert!(rt; delta_at(&rows, *number) == *delta);
    }
    assert!(rt; rows.left() == Some(mbs[4]));
    assert!(rt; rows.above() == Some(mbs[3]));
    assert!(rt; rows.left_number(4).is_none());
    assert!(rt; rows.left_number(5) == Some(4));
    Ok(())
}

/// In MBAFF, in rows of one pair: of seven macroblocks the last four.
static KEPT_OF_PAIRS: [(u32, Option<i8>); 6] = [
    (2, None),
    (3, Some(3)),
    (4, Some(4)),
    (5, Some(5)),
    (6, Some(6)),
    (7, None),
];

#[test]
fn two_rows_of_one_pair(rt: HostRuntime) -> Result<(), Fail> {
    let shape = shape(1, 0, true);
    let mbs = [
        with_delta(0),
        with_delta(1),
        with_delta(2),
        with_delta(3),
        with_delta(4),
        with_delta(5),
        with_delta(6),
    ];
    assert!(rt; shape.is_shape());
    let rows = rows_of(rt.alloc(), &shape, &mbs)?;
    for (number, delta) in &KEPT_OF_PAIRS {
        assert!(rt; delta_at(&rows, *number) == *delta);
    }
    Ok(())
}
