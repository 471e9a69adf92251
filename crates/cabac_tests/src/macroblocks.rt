//! Macroblocks in CABAC (7.3.5): their bins with all contexts, and their bytes.
ghost use Rattle.std.specs.Prelude.{◌≡◌, ◌*◌, ◌<◌, ◌≤◌, ℕ, false, true, pos, length, replicate, IfOk, IsTrue};
ghost use Rattle.h264_types.specs.Macroblock.{quarter_of};
ghost use Rattle.h264_types.specs.SliceShape.{IsSliceShape};

use crate::bins::{Bins, Kind};
use crate::rows::rows_of;
use crate::segments::filled;
use Kind::{Context, End};
use cabac_contexts::{Contexts, InCoder, OutCoder};
use cabac_engine::{BinSink, BinSource, Decoder, Encoder};
use cabac_macroblock::{read_macroblock, write_macroblock};
use exp_golomb::{BitVec, SliceBits};
use h264_types::{Mb, MbKind, Pattern, SliceKind, SliceShape, valid};
use init_table::InitTable;
use std::alloc::{AllocError as Memory, Global};
use std::test::Fail;

/// A slice of one row, in High profile.
fn row(kind: SliceKind, width: u32) -> SliceShape
    requires { (1 ≤ width) × (width ≤ 2) }
    ensures shape { IsSliceShape result }
    ensures width { result.width ≡ width }
    ensures height { result.height ≡ 1 }
    ensures first { result.first ≡ 0 }
{
    SliceShape {
        kind,
        width,
        height: 1,
        first: 0,
        mbaff: false,
        field_pic: false,
        refs: [1, 1],
        t8_mode: true,
        direct8: true,
        profile: 100,
        qp: 26,
        column: 0,
    }
}

/// With the 8x8 transform each quarter has a level at its first place.
fn has_quarters(mb: &Mb) -> bool
    ensures { IsTrue result → mb.now.t8 ≡ true → (q : ℕ) → q < 4 → quarter_of mb.now q ≡ replicate 64 (pos 0) → ⊥ }
{
    !mb.t8 || mb.luma.iter().all(|quarter| quarter[0] != 0)
}

/// Writes macroblock `at` of a slice, or nothing where it is none. It answers whether a bin may follow.
fn put<S: BinSink>(
    alloc: Global,
    s: &mut S,
    shape: &SliceShape,
    mbs: &[Mb],
    at: u32,
) -> Result<bool, Memory>
    requires going { S.over s.old ≡ false }
    requires small { length mbs.now ≤ 4 }
    ensures { IfOk result (λ more. more ≡ true → S.over s.new ≡ false) }
{
    if valid(shape, mbs) && (at as usize) < mbs.len() {
        let mb = &mbs[at as usize];
        if !mb.ref0 && has_quarters(mb) {
            let done = rows_of(alloc, shape, &mbs[..at as usize])?;
            write_macroblock(s, shape, &done, at, mb)?;
            return Ok(!mb.kind.is_i_pcm());
        }
    }
    Ok(true)
}

/// I_16x16 with mode 2 and no levels.
fn flat() -> Mb {
    Mb::without_elements(MbKind::Intra(3))
}

/// I_NxN with the modes of all blocks predicted, and no levels.
fn predicted() -> Mb {
    let mut mb = Mb::without_elements(MbKind::Intra(0));
    mb.modes = [8; 16];
    mb
}

/// I_NxN with the 8x8 transform, and a level in each quarter.
fn detailed() -> Mb {
    let mut mb = Mb::without_elements(MbKind::Intra(0));
    mb.t8 = true;
    mb.modes[0] = 8;
    mb.chroma_mode = 1;
    mb.pattern = Pattern {
        luma: 15,
        chroma: 1,
    };
    mb.qp_delta = -26;
    mb.luma[0][0] = 1;
    mb.luma[1][0] = -3;
    mb.luma[2][0] = 1;
    mb.luma[3][63] = 1;
    mb.luma[3][0] = 2;
    mb.chroma_dc[1][2] = 4;
    mb
}

/// I_NxN with levels in quarter 1 and in Cr.
fn blocks() -> Mb {
    let mut mb = predicted();
    mb.pattern = Pattern { luma: 2, chroma: 1 };
    mb.luma[1][0] = -7;
    mb.luma[1][3] = 65535;
    mb.chroma_dc[1][3] = 1;
    mb
}

/// The last macroblock of a slice has so many bins, of which the first and the last are these, and it comes back from them.
fn has_bins(
    alloc: Global,
    kind: SliceKind,
    mbs: &[Mb],
    count: usize,
    front: &[(Kind, bool)],
    back: &[(Kind, bool)],
) -> Result<bool, Memory>
    requires { (1 ≤ length mbs.now) × (length mbs.now ≤ 2) }
{
    let shape = row(kind, 2);
    let at = mbs.len() as u32 - 1;
    let mut bins = Bins::new(alloc);
    put(alloc, &mut bins, &shape, mbs, at)?;
    let is_known = bins.list.len() == count && bins.begins_and_ends(front, back);
    let mut bins = bins.again();
    let mut read = Mb::without_elements(MbKind::Skip);
    let done = rows_of(alloc, &shape, &mbs[..at as usize])?;
    let found = read_macroblock(&mut bins, &shape, &done, at, false, &mut read);
    Ok(is_known && found.is_some() && bins.is_read() && mbs.last() == Some(&read))
}

static FLAT_FRONT: [(Kind, bool); 6] = [
    (Context(3), true),
    (End, false),
    (Context(6), false),
    (Context(7), false),
    (Context(9), true),
    (Context(10), false),
];

static FLAT_BACK: [(Kind, bool); 3] = [
    (Context(64), false),
    (Context(60), false),
    (Context(88), false),
];

static SAMPLES: [(Kind, bool); 2] = [(Context(3), true), (End, true)];

/// Beside one with the 8x8 transform, chroma levels, another chroma mode and an mb_qp_delta.
static PREDICTED_FRONT: [(Kind, bool); 2] = [(Context(3), false), (Context(400), false)];

static PREDICTED_BACK: [(Kind, bool); 7] = [
    (Context(68), true),
    (Context(65), false),
    (Context(73), false),
    (Context(74), false),
    (Context(75), false),
    (Context(76), false),
    (Context(78), false),
];

#[test]
fn bins_of_macroblocks(rt: HostRuntime) -> Result<(), Fail> {
    let samples = Mb::without_elements(MbKind::Intra(25));
    assert!(rt;
        has_bins(
            rt.alloc(),
            SliceKind::I,
            &[flat()],
            9,
            &FLAT_FRONT,
            &FLAT_BACK
        )?
    );
    assert!(rt; has_bins(rt.alloc(), SliceKind::I, &[samples], 2, &SAMPLES, &SAMPLES)?);
    let pair = [detailed(), predicted()];
    assert!(rt;
        has_bins(
            rt.alloc(),
            SliceKind::I,
            &pair,
            24,
            &PREDICTED_FRONT,
            &PREDICTED_BACK
        )?
    );
    Ok(())
}

/// P_L0_16x16 with no vector difference and no levels, and with the 8x8 transform and a level in each quarter.
fn whole() -> Mb {
    Mb::without_elements(MbKind::P(0))
}

fn coded() -> Mb {
    let mut mb = whole();
    mb.t8 = true;
    mb.pattern = Pattern {
        luma: 15,
        chroma: 0,
    };
    for quarter in mb.luma.iter_mut() {
        quarter[0] = 1;
    }
    mb
}

static WHOLE: [(Kind, bool); 11] = [
    (Context(11), false),
    (Context(14), false),
    (Context(15), false),
    (Context(16), false),
    (Context(40), false),
    (Context(47), false),
    (Context(73), false),
    (Context(74), false),
    (Context(75), false),
    (Context(76), false),
    (Context(77), false),
];

static CODED: [(Kind, bool); 17] = [
    (Context(11), false),
    (Context(14), false),
    (Context(15), false),
    (Context(16), false),
    (Context(40), false),
    (Context(47), false),
    (Context(73), true),
    (Context(73), true),
    (Context(73), true),
    (Context(73), true),
    (Context(77), false),
    (Context(399), true),
    (Context(60), false),
    (Context(402), true),
    (Context(417), true),
    (Context(427), false),
    (Kind::Bypass, false),
];

static LEVEL: [(Kind, bool); 4] = [
    (Context(402), true),
    (Context(417), true),
    (Context(427), false),
    (Kind::Bypass, false),
];

/// Skipped beside one that isn't, and intra in P.
static SKIPPED: [(Kind, bool); 1] = [(Context(12), true)];

static INTRA_IN_P: [(Kind, bool); 7] = [
    (Context(11), false),
    (Context(14), true),
    (Context(17), true),
    (End, false),
    (Context(18), false),
    (Context(19), false),
    (Context(20), true),
];

/// B_Direct_16x16 beside a skipped one, B_L0_L1_16x8, and intra beside one that isn't direct.
static DIRECT: [(Kind, bool); 7] = [
    (Context(24), false),
    (Context(27), false),
    (Context(74), false),
    (Context(74), false),
    (Context(76), false),
    (Context(76), false),
    (Context(77), false),
];

static ROWS: [(Kind, bool); 16] = [
    (Context(24), false),
    (Context(27), true),
    (Context(30), true),
    (Context(31), false),
    (Context(32), true),
    (Context(32), false),
    (Context(32), true),
    (Context(40), false),
    (Context(47), false),
    (Context(40), false),
    (Context(47), false),
    (Context(73), false),
    (Context(74), false),
    (Context(75), false),
    (Context(76), false),
    (Context(77), false),
];

static INTRA_IN_B: [(Kind, bool); 8] = [
    (Context(25), false),
    (Context(28), true),
    (Context(30), true),
    (Context(31), true),
    (Context(32), true),
    (Context(32), false),
    (Context(32), true),
    (Context(32), true),
];

static INTRA_BACK: [(Kind, bool); 3] = [
    (Context(64), false),
    (Context(60), false),
    (Context(87), false),
];

#[test]
fn bins_of_p_and_b(rt: HostRuntime) -> Result<(), Fail> {
    let skipped = Mb::without_elements(MbKind::Skip);
    let direct = Mb::without_elements(MbKind::B(0));
    let rows = Mb::without_elements(MbKind::B(8));
    let cases: [(SliceKind, &[Mb], usize, &[(Kind, bool)], &[(Kind, bool)]); 7] = [
        (SliceKind::P, &[whole()], 11, &WHOLE, &WHOLE),
        (SliceKind::P, &[coded()], 29, &CODED, &LEVEL),
        (SliceKind::P, &[whole(), skipped], 1, &SKIPPED, &SKIPPED),
        (SliceKind::P, &[flat()], 11, &INTRA_IN_P, &FLAT_BACK),
        (SliceKind::B, &[skipped, direct], 7, &DIRECT, &DIRECT),
        (SliceKind::B, &[rows], 16, &ROWS, &ROWS),
        (SliceKind::B, &[rows, flat()], 16, &INTRA_IN_B, &INTRA_BACK),
    ];
    for (kind, mbs, count, front, back) in &cases {
        assert!(rt; has_bins(rt.alloc(), *kind, mbs, *count, front, back)?);
    }
    Ok(())
}

/// The bits of coded_block_flag, each with its context.
fn flags(alloc: Global, bins: &Bins) -> Result<Vec<(u16, bool)>, Memory> {
    let mut flags = Vec::new(alloc);
    for (kind, bit) in &bins.list {
        if let Context(ctx @ 85..105) = *kind {
            flags.push((ctx, *bit))?;
        }
    }
    Ok(flags)
}

#[test]
fn flags_of_blocks(rt: HostRuntime) -> Result<(), Fail> {
    // the macroblock, and the context of the flag of Cb's DC levels: without a neighbour, and beside levels of Cr alone
    for (at, cb) in [(0, 100), (1, 99)] {
        let mut bins = Bins::new(rt.alloc());
        put(
            rt.alloc(),
            &mut bins,
            &row(SliceKind::I, 2),
            &[blocks(), blocks()],
            at,
        )?;
        let expected = [
            (95, true),
            (96, false),
            (95, false),
            (93, false),
            (cb, false),
            (100, true),
        ];
        assert_eq!(rt; flags(rt.alloc(), &bins)?.as_slice(), expected.as_slice());
    }
    Ok(())
}

/// The bytes of a macroblock alone in its slice, whose contexts start by this table.
fn segment_of(alloc: Global, init: &InitTable, mb: &Mb) -> Result<Option<Vec<u8>>, Memory> {
    let encoder = Encoder::start(alloc, BitVec::new(alloc));
    let mut coder = OutCoder::new(Contexts::start(init, 26, 0), encoder);
    if !put(alloc, &mut coder, &row(SliceKind::I, 1), &[*mb], 0)? {
        return Ok(None);
    }
    coder.end(true)?;
    let (_contexts, bits) = coder.close()?;
    filled(bits)
}

/// The macroblock that such bytes hold.
fn read_back(alloc: Global, init: &InitTable, bytes: &[u8]) -> Result<Option<Mb>, Memory> {
    let Ok(decoder) = Decoder::start(SliceBits::new(bytes)) else {
        return Ok(None);
    };
    let mut coder = InCoder::new(Contexts::start(init, 26, 0), decoder);
    let none = rows_of(alloc, &row(SliceKind::I, 1), &[])?;
    let mut read = Mb::without_elements(MbKind::Skip);
    if read_macroblock(
        &mut coder,
        &row(SliceKind::I, 1),
        &none,
        0,
        false,
        &mut read,
    )
    .is_none()
    {
        return Ok(None);
    }
    let (_contexts, _bits) = coder.into_parts();
    Ok(Some(read))
}

/// A macroblock has a segment that begins with these bytes, and comes back from it.
fn comes_back(alloc: Global, init: &InitTable, mb: &Mb, known: &[u8]) -> Result<bool, Memory> {
    let Some(bytes) = segment_of(alloc, init, mb)? else {
        return Ok(false);
    };
    let bytes = bytes.as_slice();
    Ok(bytes.starts_with(known) && read_back(alloc, init, bytes)? == Some(*mb))
}

/// With contexts that all start in state 0. The bytes are known of the first one alone.
#[test]
fn bytes_of_macroblocks(rt: HostRuntime) -> Result<(), Fail> {
    let Ok(init) = InitTable::of("flat") else {
        return Err(Fail::from("no table"));
    };
    assert!(rt; comes_back(rt.alloc(), &init, &flat(), &[0x75, 0xFF])?);
    assert!(rt; comes_back(rt.alloc(), &init, &detailed(), &[])?);
    Ok(())
}
