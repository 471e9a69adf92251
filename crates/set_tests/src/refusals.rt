//! Headers that are none.
use crate::under::{
    CABAC, FIELDS, MAIN, MANY_L0, MANY_L1, PLAIN, UNORDERED, WEIGHTED, WEIGHTED_P, sets,
};
use exp_golomb::SliceBits;
use slice_header::{HeaderFault, read_header};
use std::alloc::Global;
use std::test::Fail;

/// A picture set with blocks of 8x8, and one that names another sequence set.
const T8: [u8; 3] = [0xCE, 0x38, 0xB0];

const OTHER_SPS: [u8; 3] = [0x90, 0xE3, 0x88];

const I_SLICE: [u8; 4] = [0x88, 0xC8, 0x03, 0x28];

static REFUSED: [(&[u8], &[u8], u8, &[u8], HeaderFault); 21] = [
    (&MAIN, &PLAIN, 1, &[0x88, 0x50], HeaderFault::MissingPps(1)),
    (&MAIN, &OTHER_SPS, 1, &I_SLICE, HeaderFault::MissingSps(3)),
    // SP, which names picture set 9; SI; blocks of 8x8 under Main
    (&MAIN, &PLAIN, 1, &[0x90, 0x54], HeaderFault::Profile),
    (&MAIN, &PLAIN, 1, &[0x8A, 0x80], HeaderFault::Profile),
    (&MAIN, &T8, 1, &I_SLICE, HeaderFault::Profile),
    // in frames 17 references of list 0, and of list 1; the same by default; in a frame of fields; 33 in a field
    (
        &UNORDERED,
        &PLAIN,
        1,
        &[0x9A, 0x30, 0x8B],
        HeaderFault::NoReading,
    ),
    (
        &UNORDERED,
        &PLAIN,
        1,
        &[0x9E, 0x3C, 0x22, 0x60],
        HeaderFault::NoReading,
    ),
    (
        &UNORDERED,
        &MANY_L0,
        1,
        &[0x9A, 0x26],
        HeaderFault::NoReading,
    ),
    (
        &UNORDERED,
        &MANY_L1,
        1,
        &[0x9E, 0x31, 0x80],
        HeaderFault::NoReading,
    ),
    (
        &FIELDS,
        &PLAIN,
        1,
        &[0xE2, 0x84, 0x58],
        HeaderFault::NoReading,
    ),
    (
        &FIELDS,
        &PLAIN,
        1,
        &[0xE3, 0x41, 0x0B],
        HeaderFault::NoReading,
    ),
    // a weight of 128; a denominator of 8; modification_of_pic_nums_idc 4; cabac_init_idc 3
    (
        &UNORDERED,
        &WEIGHTED_P,
        1,
        &[0x9A, 0x27, 0x00, 0x80, 0x58],
        HeaderFault::NoReading,
    ),
    (
        &UNORDERED,
        &WEIGHTED_P,
        1,
        &[0x9A, 0x20, 0x99, 0x80],
        HeaderFault::NoReading,
    ),
    (
        &UNORDERED,
        &PLAIN,
        1,
        &[0x9A, 0x29, 0x64, 0xC0],
        HeaderFault::NoReading,
    ),
    (
        &UNORDERED,
        &CABAC,
        1,
        &[0x9A, 0x21, 0x30],
        HeaderFault::NoReading,
    ),
    // slice_type 10; first_mb_in_slice 139264; SliceQPY 52 and -1; operation 7; no bits
    (&MAIN, &PLAIN, 1, &[0x8B, 0xC0], HeaderFault::NoReading),
    (
        &MAIN,
        &PLAIN,
        1,
        &[0x00, 0x00, 0x44, 0x00, 0x22, 0x30],
        HeaderFault::NoReading,
    ),
    (
        &MAIN,
        &PLAIN,
        1,
        &[0x88, 0xC8, 0x03, 0x48],
        HeaderFault::NoReading,
    ),
    (
        &MAIN,
        &PLAIN,
        1,
        &[0x88, 0xC8, 0x03, 0x78],
        HeaderFault::NoReading,
    ),
    (
        &MAIN,
        &PLAIN,
        0x41,
        &[0x88, 0xC9, 0xC4, 0x60],
        HeaderFault::NoReading,
    ),
    (&MAIN, &PLAIN, 1, &[], HeaderFault::NoReading),
];

/// Whether a header under two sets is refused for this cause.
fn is_refused(
    alloc: Global,
    sps: &[u8],
    pps: &[u8],
    nal: u8,
    payload: &[u8],
    fault: HeaderFault,
) -> Result<bool, Fail> {
    let sets = sets(alloc, sps, pps)?;
    Ok(read_header(alloc, &sets, nal, &mut SliceBits::new(payload)).err() == Some(fault))
}

#[test]
fn headers_are_refused(rt: HostRuntime) -> Result<(), Fail> {
    for (sps, pps, nal, payload, fault) in &REFUSED {
        assert!(rt; is_refused(rt.alloc(), sps, pps, *nal, payload, *fault)?);
    }
    Ok(())
}
