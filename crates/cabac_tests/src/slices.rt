//! The data of slices in CABAC (7.3.4): how many macroblocks are read, with which samples, where there is no reading, and what
//! is written.
ghost use Rattle.std.specs.Prelude.{◌≡◌, false, All, IsTrue};
ghost use Rattle.h264_types.specs.Valid.{IsSlice};
ghost use Rattle.cabac_syntax.specs.SliceData.{IsBuiltShape};

use crate::segments::filled;
use cabac_syntax::{CabacReader, CabacWriter};
use exp_golomb::{BitSink, BitSource, BitVec, SliceBits};
use h264_types::{Mb, MbKind, SliceKind, SliceShape, valid};
use init_table::InitTable;
use slice_data::{SliceFault, SliceReader, SliceWriter, Step};
use std::alloc::{AllocError as Memory, Global};
use std::test::Fail;

/// A slice that begins a picture of one row.
fn row(kind: SliceKind, width: u32) -> SliceShape {
    SliceShape {
        kind,
        width,
        height: 1,
        first: 0,
        mbaff: false,
        field_pic: false,
        refs: [1, 1],
        t8_mode: false,
        direct8: true,
        profile: 77,
        qp: 26,
        column: 0,
    }
}

/// The shape is that of a slice outside MBAFF.
fn is_built(shape: &SliceShape) -> bool
    ensures { IsTrue result → IsBuiltShape shape.now }
{
    shape.is_shape() && !shape.mbaff
}

/// Each byte so many times.
fn bytes_of(alloc: Global, runs: &[(u16, u8)]) -> Result<Vec<u8>, Fail> {
    let mut bytes = Vec::new(alloc);
    for (count, byte) in runs {
        for _i in 0..*count {
            bytes.push(*byte)?;
        }
    }
    Ok(bytes)
}

/// How many macroblocks a reader gives, how many of them have samples that are all 80, and its refusal, if any.
fn count<R: SliceReader>(reader: &mut R) -> (u8, u8, Option<SliceFault>) {
    let mut sampled = 0u8;
    for count in 0..100u8 {
        match reader.next() {
            Ok(Step::Mb(mb)) => {
                let has_samples = mb.kind.is_i_pcm() && mb.pcm.iter().all(|sample| *sample == 0x80);
                sampled = sampled.saturating_add(u8::from(has_samples));
            }
            Ok(Step::End) => return (count, sampled, None),
            Err(fault) => return (count, sampled, Some(fault)),
        }
    }
    (100, sampled, None)
}

const NO_READING: Option<SliceFault> = Some(SliceFault::NoReading);

/// The kind of the slice and the width of its picture, the bytes, of which the first bit ends the header, how many macroblocks and
/// samples are read, and the refusal. All contexts start in state 0 with the most probable value 1.
static DATA: [(SliceKind, u32, &[(u16, u8)], u8, u8, Option<SliceFault>); 21] = [
    // I_16x16 without levels; with cabac_zero_words behind it
    (
        SliceKind::I,
        1,
        &[(1, 0xFF), (1, 0x75), (1, 0xFF)],
        1,
        0,
        None,
    ),
    (
        SliceKind::I,
        2,
        &[(1, 0xFF), (1, 0x75), (1, 0xFF)],
        1,
        0,
        None,
    ),
    (
        SliceKind::I,
        1,
        &[(1, 0xFF), (1, 0x75), (1, 0xFF), (4, 0)],
        1,
        0,
        None,
    ),
    // half a zero word, another byte, a last bit 0, an alignment bit 0, and fewer bits than a segment has
    (
        SliceKind::I,
        1,
        &[(1, 0xFF), (1, 0x75), (1, 0xFF), (3, 0)],
        1,
        0,
        NO_READING,
    ),
    (
        SliceKind::I,
        1,
        &[(1, 0xFF), (1, 0x75), (1, 0xFF), (1, 0), (1, 1)],
        1,
        0,
        NO_READING,
    ),
    (
        SliceKind::I,
        1,
        &[(1, 0xFF), (1, 0x75), (1, 0xFE)],
        1,
        0,
        NO_READING,
    ),
    (
        SliceKind::I,
        1,
        &[(1, 0xFE), (1, 0x75), (1, 0xFF)],
        0,
        0,
        NO_READING,
    ),
    (SliceKind::I, 1, &[(1, 0xFF), (1, 0x75)], 0, 0, NO_READING),
    (
        SliceKind::I,
        1,
        &[(1, 0xFF), (1, 0xFF), (1, 0x80)],
        0,
        0,
        NO_READING,
    ),
    // three I_PCM macroblocks, whose contexts go on over the segments
    (
        SliceKind::I,
        3,
        &[
            (1, 0xFF),
            (1, 0x86),
            (385, 0x80),
            (1, 0x85),
            (385, 0x80),
            (1, 0x8B),
            (385, 0x80),
            (1, 0xFE),
            (1, 0x80),
        ],
        3,
        3,
        None,
    ),
    // a bit 1 before samples, and in a picture of two
    (
        SliceKind::I,
        3,
        &[
            (1, 0xFF),
            (1, 0x86),
            (1, 0x81),
            (384, 0x80),
            (1, 0xFE),
            (1, 0x80),
        ],
        0,
        0,
        NO_READING,
    ),
    (
        SliceKind::I,
        2,
        &[
            (1, 0xFF),
            (1, 0x86),
            (385, 0x80),
            (1, 0x85),
            (385, 0x80),
            (1, 0x8B),
            (385, 0x80),
            (1, 0xFE),
            (1, 0x80),
        ],
        2,
        2,
        NO_READING,
    ),
    // one skipped macroblock, and two, in P and in B; with cabac_zero_words behind it, and with a last bit 0
    (
        SliceKind::P,
        1,
        &[(1, 0xFF), (1, 0x86), (1, 0x80)],
        1,
        0,
        None,
    ),
    (
        SliceKind::P,
        2,
        &[(1, 0xFF), (1, 0x45), (1, 0xC0)],
        2,
        0,
        None,
    ),
    (
        SliceKind::B,
        1,
        &[(1, 0xFF), (1, 0x86), (1, 0x80)],
        1,
        0,
        None,
    ),
    (
        SliceKind::B,
        2,
        &[(1, 0xFF), (1, 0x45), (1, 0xC0)],
        2,
        0,
        None,
    ),
    (
        SliceKind::P,
        1,
        &[(1, 0xFF), (1, 0x86), (1, 0x80), (4, 0)],
        1,
        0,
        None,
    ),
    (
        SliceKind::P,
        1,
        &[(1, 0xFF), (1, 0x86), (5, 0)],
        1,
        0,
        NO_READING,
    ),
    // two skipped ones in a picture of one
    (
        SliceKind::P,
        1,
        &[(1, 0xFF), (1, 0x45), (1, 0xC0)],
        1,
        0,
        NO_READING,
    ),
    // an I_PCM macroblock and a skipped one beside it, in P and in B
    (
        SliceKind::P,
        2,
        &[
            (1, 0xFF),
            (1, 0xA4),
            (1, 0xF0),
            (384, 0x80),
            (1, 0x85),
            (1, 0x80),
        ],
        2,
        1,
        None,
    ),
    (
        SliceKind::B,
        2,
        &[
            (1, 0xFF),
            (1, 0x8B),
            (1, 0xDA),
            (385, 0x80),
            (1, 0x85),
            (1, 0x80),
        ],
        2,
        1,
        None,
    ),
];

#[test]
fn data_of_slices(rt: HostRuntime) -> Result<(), Fail> {
    let Ok(init) = InitTable::of("flat") else {
        return Err("no table")?;
    };
    for (kind, width, runs, given, sampled, fault) in &DATA {
        let shape = row(*kind, *width);
        assert!(rt; is_built(&shape));
        let bytes = bytes_of(rt.alloc(), runs)?;
        let mut bits = SliceBits::new(bytes.as_slice());
        assert_eq!(rt; bits.bit(), Some(true));
        let mut reader = CabacReader::start(rt.alloc(), shape, &init, bits)?;
        assert_eq!(rt; count(&mut reader), (*given, *sampled, *fault));
    }
    Ok(())
}

/// No macroblock has the 8x8 transform, nor is P_8x8ref0: they have the form in which they are written.
fn are_plain(mbs: &[Mb]) -> bool
    ensures { IsTrue result → All (λ mb. (mb.t8 ≡ false) × (mb.ref0 ≡ false)) mbs.now }
{
    mbs.iter().all(|mb| !mb.t8 && !mb.ref0)
}

/// The bytes of slice data behind one bit.
fn written(
    alloc: Global,
    shape: SliceShape,
    init: &InitTable,
    mbs: &[Mb],
) -> Result<Option<Vec<u8>>, Memory>
    requires built { IsBuiltShape shape }
    requires slice { IsSlice shape mbs.now }
    requires plain { All (λ mb. (mb.t8 ≡ false) × (mb.ref0 ≡ false)) mbs.now }
{
    let mut bits = BitVec::new(alloc);
    bits.put(true)?;
    let mut writer = CabacWriter::start(alloc, shape, init, bits)?;
    for mb in mbs {
        let Ok(()) = writer.put(mb) else {
            return Err(Memory);
        };
    }
    filled(writer.finish()?)
}

/// The bytes of slice data behind one bit, of macroblocks that are a slice's.
fn data_of(
    alloc: Global,
    shape: SliceShape,
    init: &InitTable,
    mbs: &[Mb],
) -> Result<Option<Vec<u8>>, Memory> {
    if is_built(&shape) && valid(&shape, mbs) && are_plain(mbs) {
        return written(alloc, shape, init, mbs);
    }
    Ok(None)
}

#[test]
fn data_of_slices_are_written(rt: HostRuntime) -> Result<(), Fail> {
    let Ok(init) = InitTable::of("flat") else {
        return Err("no table")?;
    };
    let flat = Mb::without_elements(MbKind::Intra(3));
    let mut sampled = Mb::without_elements(MbKind::Intra(25));
    sampled.pcm = [0x80; 384];
    let skipped = Mb::without_elements(MbKind::Skip);
    let rows: [(usize, &[Mb]); 6] = [
        (0, &[flat]),
        (9, &[sampled; 3]),
        (12, &[skipped]),
        (15, &[skipped; 2]),
        (19, &[sampled, skipped]),
        (20, &[sampled, skipped]),
    ];
    for (place, mbs) in &rows {
        let (kind, width, runs, _, _, _) = &DATA[*place];
        let shape = row(*kind, *width);
        let bytes = bytes_of(rt.alloc(), runs)?;
        let found = data_of(rt.alloc(), shape, &init, mbs)?;
        assert!(rt; found.is_some_and(|found| found.as_slice() == bytes.as_slice()));
    }
    Ok(())
}
