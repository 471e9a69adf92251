//! Macroblocks in CAVLC (7.3.5).
ghost use Rattle.std.specs.Prelude.{◌≡◌, true};
ghost use Rattle.h264_types.specs.SliceShape.{IsSliceShape};
ghost use Rattle.cavlc_mb_residual.specs.Counts.{IsAround};

use cavlc_macroblock::{read_macroblock, write_macroblock};
use cavlc_mb_residual::{Around, Sides};
use exp_golomb::{BitSink, BitVec, SliceBits};
use h264_types::{Mb, MbKind, Pattern, SliceKind, SliceShape};
use pcm_samples::write_alignment;
use std::alloc::Global;
use std::test::Fail;

/// Nothing is available on either side.
const NOTHING: Sides = Sides {
    left: None,
    above: None,
};

const ALONE: Around = Around {
    luma: NOTHING,
    cb: NOTHING,
    cr: NOTHING,
};

/// A slice with two references of each list, in High profile.
fn shape_of(kind: SliceKind, direct8: bool) -> SliceShape {
    SliceShape {
        kind,
        width: 1,
        height: 2,
        first: 0,
        mbaff: false,
        field_pic: false,
        refs: [2, 2],
        t8_mode: true,
        direct8,
        profile: 100,
        qp: 26,
        column: 0,
    }
}

/// A slice of an MBAFF frame, with so many references of each list.
fn pairs_of(kind: SliceKind, refs: u8) -> SliceShape
    ensures { result.mbaff ≡ true }
{
    SliceShape {
        mbaff: true,
        refs: [refs, refs],
        ..shape_of(kind, true)
    }
}

/// The bytes of a macroblock that was read with this pair flag, filled up with zero bits; none where none was read.
fn read_and_written(
    alloc: Global,
    shape: &SliceShape,
    field: bool,
    around: &Around,
    bytes: &[u8],
    mb: &mut Mb,
) -> Result<Vec<u8>, Fail>
    requires is_shape { IsSliceShape shape.now }
    requires pair { field ≡ true → shape.now.mbaff ≡ true }
    requires around { IsAround around.now }
{
    let mut bits = SliceBits::new(bytes);
    let Some(()) = read_macroblock(&mut bits, shape, field, around, 20, mb) else {
        return Ok(Vec::new(alloc));
    };
    let mut text = BitVec::new(alloc);
    write_macroblock(&mut text, shape, around, mb)?;
    write_alignment(&mut text)?;
    if text.aligned() {
        return Ok(text.into_bytes());
    }
    Ok(Vec::new(alloc))
}

/// The slice, direct_8x8_inference_flag, the bits with those that are read, and the type.
static TEXTS: [(SliceKind, bool, &[u8], &[u8], MbKind); 11] = [
    // I_16x16 with mode 2 and a DC level, in I; without levels in P and in B
    (
        SliceKind::I,
        false,
        &[0x26, 0xa0],
        &[0x26, 0xa0],
        MbKind::Intra(3),
    ),
    (
        SliceKind::P,
        false,
        &[0x13, 0xc0],
        &[0x13, 0xc0],
        MbKind::Intra(3),
    ),
    (
        SliceKind::B,
        false,
        &[0x0d, 0xf0],
        &[0x0d, 0xf0],
        MbKind::Intra(3),
    ),
    // I_NxN with the 8x8 transform and no levels
    (
        SliceKind::I,
        false,
        &[0xe7, 0xc8],
        &[0xe7, 0xc8],
        MbKind::Intra(0),
    ),
    // P_L0_16x16, P_8x8 with the indices 0, 1, 0, 0, and P_8x8ref0, all with zero vectors
    (SliceKind::P, false, &[0xf8], &[0xf8], MbKind::P(0)),
    (
        SliceKind::P,
        false,
        &[0x27, 0xdf, 0xfc],
        &[0x27, 0xdf, 0xfc],
        MbKind::P(3),
    ),
    (
        SliceKind::P,
        false,
        &[0x2f, 0xff, 0xc0],
        &[0x2f, 0xff, 0xc0],
        MbKind::P(3),
    ),
    // B_Bi_16x16 with the indices 1 and 0, and the vector differences (1, 0) and (0, -1)
    (
        SliceKind::B,
        true,
        &[0x22, 0xb7],
        &[0x22, 0xb7],
        MbKind::B(3),
    ),
    // B_Direct_16x16 with luma pattern 1: the transform's flag is sent with direct_8x8_inference_flag alone
    (
        SliceKind::B,
        true,
        &[0xbf, 0xc0],
        &[0xbf, 0xc0],
        MbKind::B(0),
    ),
    (
        SliceKind::B,
        false,
        &[0xbf, 0xc0],
        &[0xbf, 0x80],
        MbKind::B(0),
    ),
    // the bits end in the modes
    (SliceKind::I, false, &[0xbf], &[], MbKind::Intra(0)),
];

#[test]
fn texts_of_macroblocks(rt: HostRuntime) -> Result<(), Fail> {
    for (slice, direct8, bytes, text, kind) in &TEXTS {
        let mut mb = Mb::without_elements(MbKind::Intra(0));
        let shape = shape_of(*slice, *direct8);
        assert!(rt; shape.is_shape());
        let written = read_and_written(rt.alloc(), &shape, false, &ALONE, bytes, &mut mb)?;
        assert!(rt; written.as_slice() == *text);
        assert!(rt; text.is_empty() || mb.kind == *kind);
    }
    Ok(())
}

#[test]
fn elements_of_i_nxn(rt: HostRuntime) -> Result<(), Fail> {
    let around = Around {
        luma: Sides {
            left: Some([2, 0, 0, 0]),
            above: Some([4, 0, 0, 0]),
        },
        cb: NOTHING,
        cr: NOTHING,
    };
    let mut wanted = Mb::without_elements(MbKind::Intra(0));
    wanted.modes = [8; 16];
    wanted.modes[0] = 3;
    wanted.chroma_mode = 1;
    wanted.pattern = Pattern { luma: 1, chroma: 0 };
    wanted.qp_delta = -1;
    wanted.luma[0][0] = 1;
    let shape = shape_of(SliceKind::I, false);
    assert!(rt; shape.is_shape());
    let mut mb = Mb::without_elements(MbKind::Skip);
    let bytes = [0x8f, 0xff, 0xfa, 0x0f, 0x39, 0xe0];
    let text = read_and_written(rt.alloc(), &shape, false, &around, &bytes, &mut mb)?;
    assert!(rt; text.as_slice() == bytes.as_slice() && mb == wanted);
    Ok(())
}

/// The active references of each list in MBAFF, the pair flag, the bits with those that are read, the type, whether it is
/// P_8x8ref0, and the reference index of quarter 1 in list 0. A field macroblock has twice as many references.
static PAIRS: [(u8, bool, &[u8], &[u8], MbKind, bool, u8); 9] = [
    // P_L0_16x16 with index 3 and a zero vector; as a frame macroblock with index 1 and the vector (1, -1)
    (
        2,
        true,
        &[0x93, 0x80],
        &[0x93, 0x80],
        MbKind::P(0),
        false,
        3,
    ),
    (
        2,
        false,
        &[0x93, 0x80],
        &[0x93, 0x80],
        MbKind::P(0),
        false,
        1,
    ),
    // index 4 of 4 references
    (2, true, &[0x97, 0x80], &[], MbKind::P(0), false, 0),
    // one reference, of which a field macroblock sends the index, 1 here; a frame macroblock has no pattern in these bits
    (1, true, &[0xb8], &[0xb8], MbKind::P(0), false, 1),
    (1, false, &[0xb8], &[], MbKind::P(0), false, 0),
    // P_8x8 with the indices 0, 3, 0, 0, and P_8x8ref0
    (
        2,
        true,
        &[0x27, 0xc9, 0xff, 0xc0],
        &[0x27, 0xc9, 0xff, 0xc0],
        MbKind::P(3),
        false,
        3,
    ),
    (
        2,
        true,
        &[0x2f, 0xff, 0xc0],
        &[0x2f, 0xff, 0xc0],
        MbKind::P(3),
        true,
        0,
    ),
    (
        2,
        false,
        &[0x2f, 0xff, 0xc0],
        &[0x2f, 0xff, 0xc0],
        MbKind::P(3),
        true,
        0,
    ),
    // I_16x16 with mode 2 and no levels
    (
        2,
        true,
        &[0x13, 0xc0],
        &[0x13, 0xc0],
        MbKind::Intra(3),
        false,
        0,
    ),
];

#[test]
fn references_of_pairs(rt: HostRuntime) -> Result<(), Fail> {
    for (refs, field, bytes, text, kind, ref0, index) in &PAIRS {
        let mut mb = Mb::without_elements(MbKind::Skip);
        let shape = pairs_of(SliceKind::P, *refs);
        assert!(rt; shape.is_shape());
        let written = read_and_written(rt.alloc(), &shape, *field, &ALONE, bytes, &mut mb)?;
        assert!(rt; written.as_slice() == *text);
        if !text.is_empty() {
            assert!(rt; mb.field == *field && mb.kind == *kind);
            assert!(rt; mb.ref0 == *ref0 && mb.refs[0][1] == *index);
        }
    }
    Ok(())
}

#[test]
fn samples_of_a_field_pair(rt: HostRuntime) -> Result<(), Fail> {
    let shape = pairs_of(SliceKind::I, 2);
    assert!(rt; shape.is_shape());
    let mut bytes = Vec::new(rt.alloc());
    bytes.push(0x0d)?;
    bytes.push(0)?;
    for _i in 0..384u16 {
        bytes.push(7)?;
    }
    let mut mb = Mb::without_elements(MbKind::Skip);
    let text = read_and_written(rt.alloc(), &shape, true, &ALONE, &bytes, &mut mb)?;
    let mut wanted = Mb::without_elements(MbKind::Intra(25));
    wanted.field = true;
    wanted.pcm = [7; 384];
    assert!(rt; text.as_slice() == bytes.as_slice() && mb == wanted);
    Ok(())
}
