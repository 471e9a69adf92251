//! The residual of macroblocks in CAVLC (7.3.5.3).
ghost use Rattle.cavlc_mb_residual.specs.Counts.{IsAround};

use cavlc_mb_residual::{Around, Sides, read_residual, write_residual};
use exp_golomb::{BitSink, BitVec, SliceBits};
use h264_types::{Mb, MbKind, Pattern};
use std::alloc::Global;
use std::test::Fail;

/// The bytes of a residual that was read, filled up with zero bits; none where none was read.
fn read_and_written(
    alloc: Global,
    around: &Around,
    bytes: &[u8],
    mb: &mut Mb,
) -> Result<Vec<u8>, Fail>
    requires around { IsAround around.now }
{
    let mut bits = SliceBits::new(bytes);
    let Some(()) = read_residual(&mut bits, around, 20, mb) else {
        return Ok(Vec::new(alloc));
    };
    let mut text = BitVec::new(alloc);
    write_residual(&mut text, around, mb)?;
    for _zero in 0..7u8 {
        if !text.aligned() {
            text.put(false)?;
        }
    }
    if text.aligned() {
        return Ok(text.into_bytes());
    }
    Ok(Vec::new(alloc))
}

/// A macroblock of I_NxN, with the places and values of its levels in quarter 0.
fn i_nxn(t8: bool, luma: u8, levels: &[(u8, i32)]) -> Mb {
    let mut mb = Mb::without_elements(MbKind::Intra(0));
    mb.t8 = t8;
    mb.pattern = Pattern { luma, chroma: 0 };
    for (place, level) in levels {
        if *place < 64 {
            mb.luma[0][usize::from(*place)] = *level;
        }
    }
    mb
}

const NOTHING: Sides = Sides {
    left: None,
    above: None,
};

const ALONE: Around = Around {
    luma: NOTHING,
    cb: NOTHING,
    cr: NOTHING,
};

/// nC is 3 for block 0, 1 for its neighbours.
const BESIDE: Around = Around {
    luma: Sides {
        left: Some([2, 0, 0, 0]),
        above: Some([4, 0, 0, 0]),
    },
    cb: NOTHING,
    cr: NOTHING,
};

/// All blocks of I_16x16 are sent, and Cr has the DC level -1.
#[test]
fn residual_of_i_16x16(rt: HostRuntime) -> Result<(), Fail> {
    let mut mb = Mb::without_elements(MbKind::Intra(21));
    let mut wanted = mb;
    wanted.chroma_dc[1][0] = -1;
    let bytes = [0xff, 0xff, 0xbf, 0xfc];
    let text = read_and_written(rt.alloc(), &ALONE, &bytes, &mut mb)?;
    assert!(rt; text.as_slice() == bytes.as_slice() && mb == wanted);
    Ok(())
}

/// Whether block 0 has neighbours, whether the 8x8 transform is used, the luma pattern, the bytes, and the levels of quarter 0:
/// a quarter whose levels are all 0, with either transform; list 0 has level 1 at place 1, list 1 level 1 at place 0, list 2
/// level -1 at place 3, and list 3 none, which with the 8x8 transform take turns; and a block with neighbours.
static RESIDUALS: [(bool, bool, u8, &[u8], &[(u8, i32)]); 5] = [
    (false, true, 2, &[0xf0], &[]),
    (false, false, 2, &[0xf0], &[]),
    (
        false,
        true,
        1,
        &[0x4d, 0x59, 0xc0],
        &[(1, 1), (4, 1), (14, -1)],
    ),
    (
        false,
        false,
        1,
        &[0x4d, 0x59, 0xc0],
        &[(1, 1), (16, 1), (35, -1)],
    ),
    (true, false, 1, &[0x9e], &[(0, 1)]),
];

#[test]
fn residuals_of_i_nxn(rt: HostRuntime) -> Result<(), Fail> {
    for (beside, t8, luma, bytes, levels) in &RESIDUALS {
        let mut mb = i_nxn(*t8, *luma, &[]);
        let text = if *beside {
            read_and_written(rt.alloc(), &BESIDE, bytes, &mut mb)?
        } else {
            read_and_written(rt.alloc(), &ALONE, bytes, &mut mb)?
        };
        assert!(rt; text.as_slice() == *bytes && mb == i_nxn(*t8, *luma, levels));
    }
    Ok(())
}
