//! The increments of ctxIdx by the neighbours (9.3.3.1.1), worked out by hand.
ghost use Rattle.std.specs.Prelude.{◌≡◌, ◌<◌, ◌≤◌};
ghost use Rattle.cabac_contexts.specs.Increments.{IsBlock};
ghost use Rattle.h264_types.specs.SliceShape.{IsSliceShape};

use crate::rows::rows_of;
use Beside::{Ac, Dc, Dropped, Full, Large, Pcm, Quarters, Skip, Transformed};
use cabac_contexts::{
    ctx_inc_block, ctx_inc_chroma, ctx_inc_chroma_mode, ctx_inc_luma, ctx_inc_qp_delta, ctx_inc_t8,
    ctx_inc_type_i,
};
use h264_types::{Mb, MbKind, Pattern, Rows, SliceKind, SliceShape};
use std::alloc::{AllocError as Memory, Global};
use std::test::Fail;

/// Three macroblocks in a row, of which number 7 has number 6 to the left and number 4 above. Number 0 is before the last
/// two rows then.
fn shape() -> SliceShape
    ensures shape { IsSliceShape result }
    ensures width { result.width ≡ 3 }
    ensures height { result.height ≡ 3 }
    ensures first { result.first ≡ 0 }
{
    SliceShape {
        kind: SliceKind::I,
        width: 3,
        height: 3,
        first: 0,
        mbaff: false,
        field_pic: false,
        refs: [0, 0],
        t8_mode: true,
        direct8: true,
        profile: 100,
        qp: 26,
        column: 0,
    }
}

fn macroblock(kind: MbKind, luma: u8, chroma: u8) -> Mb {
    let mut mb = Mb::without_elements(kind);
    mb.pattern = Pattern { luma, chroma };
    mb
}

/// The last two rows before number 7.
fn before(alloc: Global, left: &Mb, above: &Mb) -> Result<Rows<Mb>, Memory> {
    let skip = Mb::without_elements(MbKind::Skip);
    let mbs = [skip, skip, skip, skip, *above, skip, *left];
    rows_of(alloc, &shape(), &mbs)
}

/// A macroblock beside the current one.
#[derive(Clone, Copy)]
enum Beside {
    Skip,
    Pcm,
    /// I_NxN with the 8x8 transform and all luma bits, all of whose levels are 0; with chroma DC levels; without them.
    Transformed,
    Quarters,
    /// I_NxN without the last luma bit, with chroma DC levels and intra_chroma_pred_mode 3.
    Dc,
    /// I_16x16 with chroma AC levels and without luma ones.
    Ac,
    /// Levels everywhere that a block 0 looks at, in I_NxN and in I_16x16; the same without the bits of the pattern.
    Full,
    Large,
    Dropped,
}

/// Levels everywhere that a block 0 looks at.
fn full(kind: MbKind, luma: u8, chroma: u8) -> Mb {
    let mut full = macroblock(kind, luma, chroma);
    full.luma[1][16] = 1;
    full.luma[2][32] = -1;
    full.chroma_dc[0][3] = 2;
    full.chroma_ac[1][1][14] = 5;
    full.chroma_ac[1][2][0] = 5;
    full
}

fn neighbour(which: Beside) -> Mb {
    match which {
        Skip => Mb::without_elements(MbKind::Skip),
        Pcm => Mb::without_elements(MbKind::Intra(25)),
        Ac => Mb::without_elements(MbKind::Intra(9)),
        Transformed | Quarters => {
            let chroma = u8::from(matches!(which, Transformed));
            let mut mb = macroblock(MbKind::Intra(0), 15, chroma);
            mb.t8 = true;
            mb
        }
        Dc => {
            let mut mb = macroblock(MbKind::Intra(0), 7, 1);
            mb.chroma_mode = 3;
            mb
        }
        Full => full(MbKind::Intra(0), 15, 2),
        Dropped => full(MbKind::Intra(0), 9, 0),
        Large => {
            let mut mb = full(MbKind::Intra(24), 15, 2);
            mb.dc[15] = -7;
            mb
        }
    }
}

/// The increments of mb_type, intra_chroma_pred_mode, the transform flag, luma quarter 0, and the first and second bin of chroma.
fn increments(alloc: Global, left: &Mb, above: &Mb) -> Result<[u8; 6], Memory> {
    let done = before(alloc, left, above)?;
    let current = Mb::without_elements(MbKind::Intra(0));
    let shape = shape();
    Ok([
        ctx_inc_type_i(&shape, &done, 7, false, &current),
        ctx_inc_chroma_mode(&shape, &done, 7, false, &current),
        ctx_inc_t8(&shape, &done, 7, false, &current),
        ctx_inc_luma(&shape, &done, 7, false, &current, 0),
        ctx_inc_chroma(&shape, &done, 7, false, &current, false),
        ctx_inc_chroma(&shape, &done, 7, false, &current, true),
    ])
}

/// The macroblocks to the left and above, and the increments beside them.
static BY_KINDS: [(Beside, Beside, [u8; 6]); 7] = [
    (Quarters, Quarters, [0, 0, 2, 0, 0, 0]),
    (Dc, Quarters, [0, 1, 1, 0, 1, 0]),
    (Quarters, Dc, [0, 1, 1, 0, 2, 0]),
    (Ac, Dc, [1, 1, 0, 1, 3, 1]),
    (Dc, Ac, [1, 1, 0, 2, 3, 2]),
    (Pcm, Ac, [2, 0, 0, 2, 3, 3]),
    (Skip, Skip, [2, 0, 0, 3, 0, 0]),
];

#[test]
fn increments_by_kinds_and_patterns(rt: HostRuntime) -> Result<(), Fail> {
    for (left, above, wanted) in &BY_KINDS {
        let found = increments(rt.alloc(), &neighbour(*left), &neighbour(*above))?;
        assert!(rt; found == *wanted);
    }
    Ok(())
}

/// The bits so far, a quarter, and its increment, where quarter 1 of the left macroblock and quarter 2 of that above have a bit.
static QUARTERS: [(u8, u8, u8); 8] = [
    (0, 0, 0),
    (0, 1, 3),
    (1, 1, 2),
    (0, 2, 3),
    (1, 2, 1),
    (2, 3, 1),
    (4, 3, 2),
    (6, 3, 0),
];

#[test]
fn increments_of_luma_quarters(rt: HostRuntime) -> Result<(), Fail> {
    let left = macroblock(MbKind::Intra(0), 2, 0);
    let above = macroblock(MbKind::Intra(0), 4, 0);
    let shape = shape();
    let done = before(rt.alloc(), &left, &above)?;
    let none = rows_of(rt.alloc(), &shape, &[])?;
    for (luma, quarter, wanted) in &QUARTERS {
        assert!(rt; *quarter < 4);
        let current = macroblock(MbKind::Intra(0), *luma, 0);
        let found = ctx_inc_luma(&shape, &done, 7, false, &current, *quarter);
        assert!(rt; found == *wanted);
        // the first macroblock has no neighbours: only its own quarters count
        assert!(rt; ctx_inc_luma(&shape, &none, 0, false, &current, 0) == 0);
    }
    Ok(())
}

/// mb_qp_delta of the two macroblocks before, and the increment.
static DELTAS: [(i8, i8, u8); 3] = [(0, 0, 0), (1, 0, 0), (1, -26, 1)];

#[test]
fn increments_of_qp_delta(rt: HostRuntime) -> Result<(), Fail> {
    let current = Mb::without_elements(MbKind::Intra(0));
    let shape = shape();
    let none = rows_of(rt.alloc(), &shape, &[])?;
    assert!(rt; ctx_inc_qp_delta(&shape, &none, 0, false, &current) == 0);
    for (first, second, wanted) in &DELTAS {
        let mut mbs = [current; 2];
        mbs[0].qp_delta = *first;
        mbs[1].qp_delta = *second;
        let done = rows_of(rt.alloc(), &shape, &mbs)?;
        assert!(rt; ctx_inc_qp_delta(&shape, &done, 2, false, &current) == *wanted);
    }
    Ok(())
}

/// No neighbours: the flags of an intra macroblock count as 1, of another one as 0.
#[test]
fn blocks_without_neighbours(rt: HostRuntime) -> Result<(), Fail> {
    let shape = shape();
    let none = rows_of(rt.alloc(), &shape, &[])?;
    let intra = Mb::without_elements(MbKind::Intra(3));
    let inter = Mb::without_elements(MbKind::P(0));
    for cat in 0..5 {
        assert!(rt; ctx_inc_block(&shape, &none, 0, false, &intra, cat, 0, 0) == 3);
        assert!(rt; ctx_inc_block(&shape, &none, 0, false, &inter, cat, 0, 0) == 0);
    }
    Ok(())
}

/// The macroblocks to the left and above, the category and the component of a block 0, and its increment.
static BLOCKS: [(Beside, Beside, u8, u8, u8); 16] = [
    (Pcm, Skip, 0, 0, 1),
    (Skip, Pcm, 1, 0, 2),
    (Pcm, Pcm, 2, 0, 3),
    (Pcm, Skip, 3, 1, 1),
    (Skip, Pcm, 4, 1, 2),
    (Full, Large, 0, 0, 2),
    (Large, Full, 0, 0, 1),
    (Full, Large, 1, 0, 3),
    (Full, Dropped, 2, 0, 1),
    (Dropped, Transformed, 2, 0, 2),
    (Full, Dropped, 3, 0, 1),
    (Full, Large, 3, 1, 0),
    (Transformed, Large, 3, 0, 2),
    (Full, Large, 4, 1, 3),
    (Full, Large, 4, 0, 0),
    (Dropped, Transformed, 4, 1, 0),
];

#[test]
fn blocks_beside_others(rt: HostRuntime) -> Result<(), Fail> {
    let current = Mb::without_elements(MbKind::Intra(0));
    let shape = shape();
    for (left, above, cat, comp, wanted) in &BLOCKS {
        let done = before(rt.alloc(), &neighbour(*left), &neighbour(*above))?;
        assert!(rt; *cat < 5 && *comp < 2);
        let found = ctx_inc_block(&shape, &done, 7, false, &current, *cat, *comp, 0);
        assert!(rt; found == *wanted);
    }
    Ok(())
}
