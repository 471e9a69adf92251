//! The prediction of P and B macroblocks in CAVLC (7.3.5.1, 7.3.5.2).
use cavlc_inter::{read_inter, write_inter};
use exp_golomb::{BitSink, BitVec, SliceBits};
use h264_types::{Mb, MbKind};
use std::alloc::Global;
use std::test::Fail;

/// The bytes of a prediction that was read and written again, with a one bit and zero bits behind it; none where none was
/// read.
fn read_and_written(
    alloc: Global,
    ref0: bool,
    active: [u8; 2],
    bytes: &[u8],
    mb: &mut Mb,
) -> Result<Vec<u8>, Fail> {
    mb.ref0 = ref0;
    let kind = mb.kind;
    let mut bits = SliceBits::new(bytes);
    let Some(()) = read_inter(&mut bits, kind, ref0, active, mb) else {
        return Ok(Vec::new(alloc));
    };
    let mut text = BitVec::new(alloc);
    write_inter(&mut text, active, mb)?;
    text.put(true)?;
    for _zero in 0..7u8 {
        if !text.aligned() {
            text.put(false)?;
        }
    }
    if text.aligned() {
        return Ok(text.into_bytes());
    }
    Ok(Vec::new(alloc))
}

/// P_L0_16x16 with one, two and three references; P_L0_L0_8x16; P_8x8 of 8x8, 8x4, 4x8 and 4x4; B_Direct_16x16, B_Bi_16x16,
/// B_L0_L1_16x8; B_8x8 of direct, L1 8x8, Bi 4x4 and direct.
static TEXTS: [(MbKind, [u8; 2], &[u8]); 9] = [
    (MbKind::P(0), [1, 0], &[0x4e]),
    (MbKind::P(0), [2, 0], &[0x70]),
    (MbKind::P(0), [3, 0], &[0x64, 0xc0]),
    (MbKind::P(2), [2, 0], &[0xb5, 0x80]),
    (MbKind::P(3), [1, 0], &[0xa6, 0x4d, 0x6b, 0x7f, 0xee]),
    (MbKind::B(0), [2, 2], &[0x80]),
    (MbKind::B(3), [2, 2], &[0x96, 0xe0]),
    (MbKind::B(8), [1, 1], &[0x5a, 0x80]),
    (MbKind::B(22), [1, 1], &[0xb1, 0xbf, 0xd6, 0xbf, 0xe0]),
];

#[test]
fn known_texts(rt: HostRuntime) -> Result<(), Fail> {
    for (kind, active, bytes) in &TEXTS {
        let mut mb = Mb::without_elements(*kind);
        let text = read_and_written(rt.alloc(), false, *active, bytes, &mut mb)?;
        assert!(rt; text.as_slice() == *bytes);
    }
    Ok(())
}

/// P_8x8ref0 has no index. As P_8x8 its bits end too early, and no sub_mb_type of P is 4.
static SUBS_OF_P: [(bool, [u8; 2], &[u8], bool); 3] = [
    (true, [2, 0], &[0xff, 0xf8], true),
    (false, [2, 0], &[0xff, 0xf8], false),
    (false, [1, 0], &[0x2f, 0xff, 0x80], false),
];

#[test]
fn texts_of_sub_macroblocks(rt: HostRuntime) -> Result<(), Fail> {
    for (ref0, active, bytes, known) in &SUBS_OF_P {
        let mut mb = Mb::without_elements(MbKind::P(3));
        let text = read_and_written(rt.alloc(), *ref0, *active, bytes, &mut mb)?;
        let text = text.as_slice();
        assert!(rt;
            if *known {
                text == *bytes
            } else {
                text.is_empty()
            }
        );
    }
    Ok(())
}

/// The sub_mb_types and the indices, and the vector differences of some blocks, by list: P_8x8 of 8x8, 8x4, 4x8 and 4x4;
/// B_Bi_16x16.
static PREDICTIONS: [(
    MbKind,
    [u8; 2],
    &[u8],
    [u8; 4],
    [[u8; 4]; 2],
    &[(u8, u8, [i32; 2])],
); 2] = [
    (
        MbKind::P(3),
        [1, 0],
        &[0xa6, 0x4d, 0x6b, 0x7f, 0xee],
        [0, 1, 2, 3],
        [[0; 4]; 2],
        &[
            (0, 5, [1, 0]),
            (0, 6, [0, 1]),
            (0, 10, [0, 0]),
            (0, 11, [-1, 0]),
            (0, 15, [0, -1]),
        ],
    ),
    (
        MbKind::B(3),
        [2, 2],
        &[0x96, 0xe0],
        [0; 4],
        [[0; 4], [1; 4]],
        &[(0, 7, [1, 0]), (1, 15, [0, -1])],
    ),
];

/// The macroblock has these vector differences.
fn has_vectors(mb: &Mb, vectors: &[(u8, u8, [i32; 2])]) -> bool {
    for (list, block, vector) in vectors {
        if *list >= 2 || *block >= 16 {
            return false;
        }
        if mb.mvd[usize::from(*list)][usize::from(*block)] != *vector {
            return false;
        }
    }
    true
}

#[test]
fn elements_of_predictions(rt: HostRuntime) -> Result<(), Fail> {
    for (kind, active, bytes, subs, refs, vectors) in &PREDICTIONS {
        let mut mb = Mb::without_elements(*kind);
        read_and_written(rt.alloc(), false, *active, bytes, &mut mb)?;
        assert!(rt; mb.subs == *subs && mb.refs == *refs);
        assert!(rt; has_vectors(&mb, vectors));
    }
    Ok(())
}
