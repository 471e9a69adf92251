//! The data of slices in CAVLC (7.3.4): how many macroblocks are read, and where there is no reading.
ghost use Rattle.std.specs.Prelude.{IsTrue};
ghost use Rattle.h264_types.specs.SliceShape.{IsSliceShape};

use cavlc_syntax::CavlcReader;
use exp_golomb::{BitSource, SliceBits};
use h264_types::{SliceKind, SliceShape};
use slice_data::{SliceFault, SliceReader, Step};
use std::alloc::Global;
use std::test::Fail;

/// A slice of this kind that begins a picture, with one reference of each list.
fn shape_of(kind: SliceKind, width: u32, height: u32) -> SliceShape {
    SliceShape {
        kind,
        width,
        height,
        first: 0,
        mbaff: false,
        field_pic: false,
        refs: [1, 1],
        t8_mode: false,
        direct8: true,
        profile: 77,
        qp: 26,
        column: 0,
    }
}

/// The shape is that of a slice.
fn is_shape(shape: &SliceShape) -> bool
    ensures { IsTrue result → IsSliceShape shape.now }
{
    shape.is_shape()
}

/// Each byte so many times.
fn bytes_of(alloc: Global, runs: &[(u16, u8)]) -> Result<Vec<u8>, Fail> {
    let mut bytes = Vec::new(alloc);
    for (count, byte) in runs {
        for _i in 0..*count {
            bytes.push(*byte)?;
        }
    }
    Ok(bytes)
}

/// How many macroblocks a reader gives, how many of them are skipped, and its refusal, if any.
fn count<R: SliceReader>(reader: &mut R) -> (u8, u8, Option<SliceFault>) {
    let mut skipped = 0u8;
    for count in 0..100u8 {
        match reader.next() {
            Ok(Step::Mb(mb)) => skipped = skipped.saturating_add(u8::from(mb.kind.is_skip())),
            Ok(Step::End) => return (count, skipped, None),
            Err(fault) => return (count, skipped, Some(fault)),
        }
    }
    (100, skipped, None)
}

/// The same of slice data in CAVLC, of which no bit is left behind the end.
fn read(
    alloc: Global,
    shape: SliceShape,
    bits: SliceBits<'_>,
) -> Result<(u8, u8, Option<SliceFault>), Fail>
    requires { IsSliceShape shape }
{
    let mut reader = CavlcReader::start(alloc, shape, bits)?;
    let (given, skipped, fault) = count(&mut reader);
    if fault.is_none() {
        let behind = reader.into_bits().bit();
        behind.map_or(Ok(()), |_| Err("a bit is left behind the end"))?;
    }
    Ok((given, skipped, fault))
}

const NO_READING: Option<SliceFault> = Some(SliceFault::NoReading);

/// The picture, the bytes, how many macroblocks and skipped ones are read, and the refusal.
static RUNS: [(SliceKind, u32, u32, &[u8], u8, u8, Option<SliceFault>); 14] = [
    // mb_skip_run 1, and the end
    (SliceKind::P, 1, 1, &[0x50], 1, 1, None),
    (SliceKind::B, 2, 1, &[0x70], 2, 2, None),
    (SliceKind::P, 11, 9, &[0x03, 0x24], 99, 99, None),
    // more than the picture has room for, at the beginning and behind two macroblocks
    (SliceKind::P, 1, 1, &[0x70], 0, 0, NO_READING),
    (SliceKind::P, 11, 9, &[0x03, 0x2C], 0, 0, NO_READING),
    (SliceKind::P, 2, 1, &[0x5E, 0xA0], 2, 1, NO_READING),
    // P_L0_16x16 without levels; behind it mb_skip_run 0, and the end
    (SliceKind::P, 1, 1, &[0xFC], 1, 0, None),
    (SliceKind::P, 1, 1, &[0xC0], 0, 0, NO_READING),
    (SliceKind::P, 2, 1, &[0xFE], 1, 0, NO_READING),
    // no stop bit, no bit, and bytes behind the stop bit
    (SliceKind::P, 1, 1, &[0x40], 1, 1, NO_READING),
    (SliceKind::P, 1, 1, &[], 0, 0, NO_READING),
    (SliceKind::P, 1, 1, &[0x50, 0], 1, 1, NO_READING),
    // B_Direct_16x16 and B_Skip
    (SliceKind::B, 2, 1, &[0xEA], 2, 1, None),
    // a skipped one above a macroblock counts nothing, whatever stands above it
    (
        SliceKind::P,
        1,
        3,
        &[0xF2, 0xF1, 0x85, 0xD7, 0x7F, 0x80],
        3,
        1,
        None,
    ),
];

#[test]
fn runs_of_skipped_macroblocks(rt: HostRuntime) -> Result<(), Fail> {
    for (kind, width, height, bytes, count, skipped, fault) in &RUNS {
        let shape = shape_of(*kind, *width, *height);
        assert!(rt; is_shape(&shape));
        assert!(rt; read(rt.alloc(), shape, SliceBits::new(bytes))? == (*count, *skipped, *fault));
    }
    Ok(())
}

/// The width, the bits before the data, the bytes, how many macroblocks are read, and the refusal.
static SAMPLES: [(u32, u8, &[(u16, u8)], u8, Option<SliceFault>); 8] = [
    // a header of 17 bits; its samples are 00 00 00 and 80
    (
        1,
        17,
        &[
            (1, 0x88),
            (1, 0x84),
            (1, 0x86),
            (1, 0x80),
            (3, 0),
            (382, 0x80),
        ],
        1,
        None,
    ),
    (
        2,
        0,
        &[
            (1, 0x0D),
            (1, 0),
            (384, 0x80),
            (1, 0x0D),
            (1, 0),
            (384, 0),
            (1, 0x80),
        ],
        2,
        None,
    ),
    // more than the picture has room for
    (
        1,
        0,
        &[
            (1, 0x0D),
            (1, 0),
            (384, 1),
            (1, 0x0D),
            (1, 0),
            (384, 2),
            (1, 0x80),
        ],
        1,
        NO_READING,
    ),
    // cut; without a stop bit; with bits behind it; an alignment bit of 1; mb_type 26
    (1, 0, &[(1, 0x0D), (1, 0), (383, 0x80)], 0, NO_READING),
    (1, 0, &[(1, 0x0D), (1, 0), (384, 0x80)], 1, NO_READING),
    (
        1,
        0,
        &[(1, 0x0D), (1, 0), (384, 0x80), (1, 0x81)],
        1,
        NO_READING,
    ),
    (
        1,
        0,
        &[(1, 0x0D), (1, 0x40), (384, 0x80), (1, 0x80)],
        0,
        NO_READING,
    ),
    (
        1,
        0,
        &[(1, 0x0D), (1, 0x80), (384, 0x80), (1, 0x80)],
        0,
        NO_READING,
    ),
];

#[test]
fn slices_with_samples(rt: HostRuntime) -> Result<(), Fail> {
    for (width, before, runs, count, fault) in &SAMPLES {
        let shape = shape_of(SliceKind::I, *width, 1);
        assert!(rt; is_shape(&shape));
        let bytes = bytes_of(rt.alloc(), runs)?;
        let mut bits = SliceBits::new(bytes.as_slice());
        assert!(rt; bits.skip(*before));
        assert!(rt; read(rt.alloc(), shape, bits)? == (*count, 0, *fault));
    }
    Ok(())
}

/// How many macroblocks a reader gives, the pair flags of the first six, and its refusal, if any.
fn flags<R: SliceReader>(reader: &mut R) -> (u8, [bool; 6], Option<SliceFault>) {
    let mut flags = [false; 6];
    for count in 0..100u8 {
        match reader.next() {
            Ok(Step::Mb(mb)) => {
                if let Some(flag) = flags.get_mut(usize::from(count)) {
                    *flag = mb.field;
                }
            }
            Ok(Step::End) => return (count, flags, None),
            Err(fault) => return (count, flags, Some(fault)),
        }
    }
    (100, flags, None)
}

/// Slices of MBAFF frames of one row of pairs: the kind, the width, the bytes, how many macroblocks are read, their pair
/// flags, and the refusal.
static PAIRS: [(
    SliceKind,
    u32,
    &[(u16, u8)],
    u8,
    [bool; 6],
    Option<SliceFault>,
); 8] = [
    // both are skipped: the flag is inferred
    (SliceKind::P, 1, &[(1, 0x70)], 2, [false; 6], None),
    // a skipped top has the flag of its bottom, I_PCM of a field pair
    (
        SliceKind::P,
        1,
        &[(1, 0x50), (1, 0xF8), (384, 0x80), (1, 0x80)],
        2,
        [true, true, false, false, false, false],
        None,
    ),
    // two skipped pairs to the right of it are field pairs, too
    (
        SliceKind::P,
        3,
        &[(1, 0x50), (1, 0xF8), (384, 0x80), (1, 0x2C)],
        6,
        [true; 6],
        None,
    ),
    // both are I_PCM: the flag stands before the top alone, and not before the bottom
    (
        SliceKind::I,
        1,
        &[
            (1, 0x86),
            (1, 0x80),
            (384, 1),
            (1, 0x0D),
            (1, 0),
            (384, 2),
            (1, 0x80),
        ],
        2,
        [true, true, false, false, false, false],
        None,
    ),
    (
        SliceKind::I,
        1,
        &[
            (1, 0x06),
            (1, 0x80),
            (384, 1),
            (1, 0x06),
            (1, 0x80),
            (384, 2),
            (1, 0x80),
        ],
        1,
        [false; 6],
        NO_READING,
    ),
    // the end behind a skipped top, behind P_L0_16x16 as a top, and before the first one
    (
        SliceKind::P,
        1,
        &[(1, 0x50)],
        1,
        [true, false, false, false, false, false],
        NO_READING,
    ),
    (SliceKind::P, 1, &[(1, 0xBE)], 1, [false; 6], NO_READING),
    (SliceKind::P, 1, &[], 0, [false; 6], NO_READING),
];

#[test]
fn slices_of_pairs(rt: HostRuntime) -> Result<(), Fail> {
    for (kind, width, runs, count, fields, fault) in &PAIRS {
        let mut shape = shape_of(*kind, *width, 2);
        shape.mbaff = true;
        assert!(rt; is_shape(&shape));
        let bytes = bytes_of(rt.alloc(), runs)?;
        let mut reader = CavlcReader::start(rt.alloc(), shape, SliceBits::new(bytes.as_slice()))?;
        assert!(rt; flags(&mut reader) == (*count, *fields, *fault));
    }
    Ok(())
}
