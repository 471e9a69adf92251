//! Headers of slices, read and written again.
use crate::payload::payload_of;
use crate::under::{
    ADAPTIVE, CABAC, CYCLIC, FIELDS, FULL, IMPLICIT_B, MAIN, MANY_L0, MANY_L1, MODIFIED_TEXT,
    PLAIN, UNORDERED, WEIGHTED, WEIGHTED_P, WEIGHTED_TEXT, sets,
};
use exp_golomb::{BitVec, SliceBits};
use h264_types::Layer;
use param_sets::Sets;
use slice_header::{read_header, write_header};
use std::alloc::Global;
use std::test::Fail;

/// A header that was read and written again, with a cabac_init_idc of 0 to 2.
fn rewritten(
    alloc: Global,
    sets: &Sets,
    nal: u8,
    payload: &[u8],
    layer: Layer,
    number: u8,
    idc: u8,
) -> Result<Vec<u8>, Fail> {
    if idc > 2 {
        return Ok(Vec::new(alloc));
    }
    let mut bits = SliceBits::new(payload);
    let header = read_header(alloc, sets, nal, &mut bits)?;
    let mut out = BitVec::new(alloc);
    write_header(&mut out, sets, &header, layer, number, idc)?;
    payload_of(alloc, out)
}

/// Whether a header under two sets is written as these bytes.
fn is_written(
    alloc: Global,
    sps: &[u8],
    pps: &[u8],
    nal: u8,
    payload: &[u8],
    layer: Layer,
    number: u8,
    idc: u8,
    written: &[u8],
) -> Result<bool, Fail> {
    let sets = sets(alloc, sps, pps)?;
    let out = rewritten(alloc, &sets, nal, payload, layer, number, idc)?;
    Ok(out.as_slice() == written)
}

/// I slices: an IDR picture; the filter with its offsets, and off; each marking operation; deltas of type 1. In frames: P with
/// 3 references; B with modifications of list 0, and of list 1; P and B with weights, and under sets that ask for none; 16
/// references. In fields: 17 and 32 references; a frame with 16. No default where 3 are sent, or where no list 1 stands.
static HEADERS: [(&[u8], &[u8], u8, &[u8]); 25] = [
    (&UNORDERED, &PLAIN, 0x65, &[0x88, 0x84, 0xC0]),
    (&MAIN, &PLAIN, 0x65, &[0x88, 0x81, 0x8E, 0x2C]),
    (&MAIN, &FULL, 0x65, &[0xB8, 0x4C, 0x4A, 0x21, 0x8D, 0x19]),
    (&MAIN, &FULL, 0x65, &[0xB8, 0x4C, 0x4A, 0x0E, 0x14]),
    (
        &MAIN,
        &PLAIN,
        0x41,
        &[0x88, 0xC9, 0xD0, 0x86, 0x89, 0x65, 0x21, 0x8E, 0x2B, 0x80],
    ),
    (&CYCLIC, &PLAIN, 0x01, &[0x88, 0xC9, 0xB0]),
    (&CYCLIC, &FULL, 0x01, &[0x88, 0xC9, 0x9F, 0xC0]),
    (&MAIN, &PLAIN, 0x01, &[0x88, 0xC8, 0x03, 0x28]),
    (&UNORDERED, &PLAIN, 1, &[0x9A, 0x26]),
    (&UNORDERED, &PLAIN, 1, &[0x9E, 0x31, 0x80]),
    (&UNORDERED, &PLAIN, 1, &[0x9A, 0x36, 0xC0]),
    (&UNORDERED, &PLAIN, 1, &MODIFIED_TEXT),
    (&UNORDERED, &PLAIN, 1, &[0x9E, 0x32, 0x88, 0x42, 0x40]),
    (&UNORDERED, &WEIGHTED, 0x41, &WEIGHTED_TEXT),
    (
        &UNORDERED,
        &WEIGHTED,
        1,
        &[0xA8, 0xF4, 0x44, 0x13, 0x08, 0x3D, 0x60],
    ),
    (&UNORDERED, &IMPLICIT_B, 1, &[0xA8, 0xC6]),
    (&UNORDERED, &WEIGHTED_P, 1, &[0xA8, 0x86]),
    (&UNORDERED, &PLAIN, 1, &[0x9A, 0x30, 0x83]),
    (&FIELDS, &PLAIN, 1, &[0xE3, 0x42, 0x2C]),
    (&FIELDS, &PLAIN, 1, &[0xA8, 0xF8, 0x20, 0x04, 0x06]),
    (&FIELDS, &MANY_L0, 1, &[0x9A, 0x31, 0x80]),
    (&FIELDS, &PLAIN, 1, &[0xE2, 0x84, 0x18]),
    (&ADAPTIVE, &PLAIN, 1, &[0xE2, 0x84, 0x18]),
    (&UNORDERED, &MANY_L0, 1, &[0x9A, 0x36, 0xC0]),
    (&UNORDERED, &MANY_L1, 1, &[0x9A, 0x26]),
];

#[test]
fn headers_come_back(rt: HostRuntime) -> Result<(), Fail> {
    for (sps, pps, nal, payload) in &HEADERS {
        let layer = Layer::Cavlc;
        assert!(rt; is_written(rt.alloc(), sps, pps, *nal, payload, layer, 0, 0, payload)?);
    }
    Ok(())
}

/// With what follows them in a slice: P, and B; with cabac_init_idc 2 and 1; I, which has none; another picture set.
static LAYERS: [(&[u8], u8, &[u8], u8, u8, &[u8], &[u8]); 6] = [
    (
        &PLAIN,
        1,
        &[0x9A, 0x25, 0x40],
        0,
        0,
        &[0x9A, 0x26],
        &[0x9A, 0x27],
    ),
    (
        &PLAIN,
        1,
        &[0x9E, 0x31, 0x50],
        0,
        0,
        &[0x9E, 0x31, 0x80],
        &[0x9E, 0x31, 0xC0],
    ),
    (
        &CABAC,
        1,
        &[0x9A, 0x23, 0xC0],
        0,
        2,
        &[0x9A, 0x26],
        &[0x9A, 0x23, 0xC0],
    ),
    (
        &CABAC,
        1,
        &[0x9E, 0x30, 0x8B],
        0,
        1,
        &[0x9E, 0x30, 0x58],
        &[0x9E, 0x30, 0x8B],
    ),
    (&CABAC, 1, &[0x88, 0x8E], 0, 2, &[0x88, 0x8E], &[0x88, 0x8E]),
    // 1, 0001000, and now 00000000100000000 for the 1 behind them
    (
        &PLAIN,
        0x65,
        &[0x88, 0x84, 0xC0],
        255,
        0,
        &[0x88, 0x00, 0x80, 0x04, 0xC0],
        &[0x88, 0x00, 0x80, 0x04, 0xC0],
    ),
];

#[test]
fn headers_in_both_layers(rt: HostRuntime) -> Result<(), Fail> {
    for (pps, nal, payload, number, idc, cavlc, cabac) in &LAYERS {
        assert!(rt;
            is_written(
                rt.alloc(),
                &UNORDERED,
                pps,
                *nal,
                payload,
                Layer::Cavlc,
                *number,
                *idc,
                cavlc
            )?
        );
        assert!(rt;
            is_written(
                rt.alloc(),
                &UNORDERED,
                pps,
                *nal,
                payload,
                Layer::Cabac,
                *number,
                *idc,
                cabac
            )?
        );
    }
    Ok(())
}
