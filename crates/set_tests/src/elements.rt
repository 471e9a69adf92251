//! What some headers say.
use crate::under::{FULL, MAIN, MODIFIED_TEXT, PLAIN, UNORDERED, WEIGHTED, WEIGHTED_TEXT, sets};
use exp_golomb::SliceBits;
use h264_types::{SliceKind, SliceShape};
use slice_header::{Header, read_header, shape};
use std::alloc::Global;
use std::test::Fail;

/// Some elements of a header.
fn elements_of(header: &Header) -> [i64; 8] {
    [
        i64::from(header.slice_type),
        i64::from(header.pic_order_cnt_lsb),
        i64::from(header.delta_pic_order_cnt_bottom),
        i64::from(header.slice_qp_delta),
        i64::from(header.long_term_reference_flag),
        i64::from(header.num_ref_idx_active_override_flag),
        i64::from(header.slice_alpha_c0_offset_div2),
        i64::from(header.slice_beta_offset_div2),
    ]
}

/// What a slice's macroblocks rest on: the references, SliceQP, the profile and the column of initial pairs.
fn members_of(shape: &SliceShape) -> (SliceKind, [u8; 2], u8, u8, u8) {
    (
        shape.kind,
        shape.refs,
        shape.qp,
        shape.profile,
        shape.column,
    )
}

/// The sets and a header, its elements, and what its macroblocks rest on.
static HEADERS: [(
    &[u8],
    &[u8],
    u8,
    &[u8],
    [i64; 8],
    (SliceKind, [u8; 2], u8, u8, u8),
); 3] = [
    (
        &MAIN,
        &FULL,
        0x65,
        &[0xB8, 0x4C, 0x4A, 0x21, 0x8D, 0x19],
        [2, 3, -4, 4, 1, 0, -6, 6],
        (SliceKind::I, [0, 0], 27, 77, 0),
    ),
    (
        &UNORDERED,
        &WEIGHTED,
        0x41,
        &WEIGHTED_TEXT,
        [0, 0, 0, 0, 0, 0, 0, 0],
        (SliceKind::P, [2, 0], 26, 77, 1),
    ),
    (
        &UNORDERED,
        &PLAIN,
        1,
        &MODIFIED_TEXT,
        [1, 0, 0, -1, 0, 1, 0, 0],
        (SliceKind::B, [2, 1], 25, 77, 1),
    ),
];

/// Whether a header under two sets says this.
fn says(
    alloc: Global,
    sps: &[u8],
    pps: &[u8],
    nal: u8,
    payload: &[u8],
    elements: &[i64; 8],
    members: &(SliceKind, [u8; 2], u8, u8, u8),
) -> Result<bool, Fail> {
    let sets = sets(alloc, sps, pps)?;
    let header = read_header(alloc, &sets, nal, &mut SliceBits::new(payload))?;
    Ok(elements_of(&header) == *elements && members_of(&shape(&sets, &header)) == *members)
}

#[test]
fn headers_say_what_was_put(rt: HostRuntime) -> Result<(), Fail> {
    for (sps, pps, nal, payload, elements, members) in &HEADERS {
        assert!(rt; says(rt.alloc(), sps, pps, *nal, payload, elements, members)?);
    }
    Ok(())
}
