//! Which macroblocks are those of a slice (7.3.5, 7.4.5 and Tables 7-11 to 7-18).
use Element::{
    CbDc, ChromaMode, ChromaPattern, CrAc, Dc, Field, FirstRef, FirstVector, LastLuma, LastMode,
    Luma, LumaPattern, P8x8Ref0, QpDelta, Refs, Sample, Subs, Transform8x8,
};
use MbKind::{B, Intra, P, Skip};
use Paired::{Coded, CodedFrame, FieldSkip, FrameSkip};
use h264_types::{Mb, MbKind, SliceKind, SliceShape, valid};

/// An element of a macroblock to be put, with its value.
#[derive(Clone, Copy)]
enum Element {
    P8x8Ref0,
    Field,
    Transform8x8,
    /// The mode of block 15.
    LastMode(u8),
    ChromaMode(u8),
    /// All four sub-macroblock types.
    Subs(u8),
    /// List 0's index of quarter 0, and of all four.
    FirstRef(u8),
    Refs(u8),
    /// List 0's horizontal difference of block 0.
    FirstVector(i32),
    LumaPattern(u8),
    ChromaPattern(u8),
    QpDelta(i8),
    Dc(i32),
    /// The first and the last level of block 0.
    Luma(i32),
    LastLuma(i32),
    CbDc(i32),
    CrAc(i32),
    Sample(u8),
}

fn apply(mb: &mut Mb, element: Element) {
    match element {
        P8x8Ref0 => mb.ref0 = true,
        Field => mb.field = true,
        Transform8x8 => mb.t8 = true,
        LastMode(mode) => mb.modes[15] = mode,
        ChromaMode(mode) => mb.chroma_mode = mode,
        Subs(sub) => mb.subs = [sub; 4],
        FirstRef(index) => mb.refs[0][0] = index,
        Refs(index) => mb.refs[0] = [index; 4],
        FirstVector(x) => mb.mvd[0][0][0] = x,
        LumaPattern(luma) => mb.pattern.luma = luma,
        ChromaPattern(chroma) => mb.pattern.chroma = chroma,
        QpDelta(delta) => mb.qp_delta = delta,
        Dc(level) => mb.dc[0] = level,
        Luma(level) => mb.luma[0][0] = level,
        LastLuma(level) => mb.luma[0][15] = level,
        CbDc(level) => mb.chroma_dc[0][3] = level,
        CrAc(level) => mb.chroma_ac[1][3][14] = level,
        Sample(sample) => mb.pcm[383] = sample,
    }
}

fn made(kind: MbKind, elements: &[Element]) -> Mb {
    let mut mb = Mb::without_elements(kind);
    for element in elements {
        apply(&mut mb, *element);
    }
    mb
}

/// A slice under transform_8x8_mode_flag, without direct_8x8_inference_flag.
fn shape(kind: SliceKind, width: u32, height: u32, mbaff: bool) -> SliceShape {
    SliceShape {
        kind,
        width,
        height,
        first: 0,
        mbaff,
        field_pic: false,
        refs: [2, 1],
        t8_mode: true,
        direct8: false,
        profile: 100,
        qp: 26,
        column: 0,
    }
}

/// A slice, a type of macroblock, and whether it stands there.
static TYPES: [(SliceKind, MbKind, bool); 14] = [
    (SliceKind::I, Intra(25), true),
    (SliceKind::P, Intra(0), true),
    (SliceKind::B, Intra(24), true),
    (SliceKind::I, Intra(26), false),
    (SliceKind::I, Skip, false),
    (SliceKind::I, P(0), false),
    (SliceKind::P, Skip, true),
    (SliceKind::P, P(3), true),
    (SliceKind::P, P(4), false),
    (SliceKind::P, B(0), false),
    (SliceKind::B, Skip, true),
    (SliceKind::B, B(22), true),
    (SliceKind::B, B(23), false),
    (SliceKind::B, P(0), false),
];

#[test]
fn types_stand_in_their_slices(rt: HostRuntime) {
    for (slice, kind, is_one) in &TYPES {
        let shape = shape(*slice, 1, 1, false);
        assert!(rt; valid(&shape, &[Mb::without_elements(*kind)]) == *is_one);
    }
}

/// A macroblock's type, elements that are put into it, and whether it is one in a slice that has its type.
static ELEMENTS: [(MbKind, &[Element], bool); 40] = [
    (Intra(0), &[LastMode(8), ChromaMode(3)], true),
    (Intra(0), &[LastMode(9), ChromaMode(0)], false),
    (Intra(0), &[LastMode(0), ChromaMode(4)], false),
    (Intra(25), &[ChromaMode(0), Sample(255)], true),
    (Intra(0), &[LumaPattern(1), LastLuma(65535)], true),
    (Intra(0), &[LumaPattern(1), LastLuma(65536)], false),
    (Intra(0), &[LumaPattern(16), Luma(0)], false),
    (Intra(1), &[QpDelta(25), Dc(-65535)], true),
    (Intra(13), &[Luma(1), LastLuma(0)], true),
    (Intra(13), &[Luma(1), LastLuma(1)], false),
    (Intra(12), &[Luma(1), LastLuma(0)], false),
    (Intra(5), &[CbDc(1), CrAc(0)], true),
    (Intra(5), &[CbDc(1), CrAc(1)], false),
    (Intra(4), &[CbDc(1), CrAc(0)], false),
    (Intra(9), &[CbDc(1), CrAc(1)], true),
    (Intra(0), &[ChromaPattern(2), CrAc(65535)], true),
    (Intra(0), &[ChromaPattern(3), CrAc(1)], false),
    (Skip, &[LumaPattern(1), QpDelta(0), Refs(0)], false),
    (P(0), &[LumaPattern(1), QpDelta(-26), Refs(1)], true),
    (P(0), &[LumaPattern(1), QpDelta(26), Refs(1)], false),
    (P(0), &[LumaPattern(1), QpDelta(-27), Refs(1)], false),
    (P(0), &[LumaPattern(1), Transform8x8, Refs(2)], false),
    (P(0), &[LumaPattern(1), Transform8x8, Refs(1)], true),
    (P(1), &[LumaPattern(1), FirstRef(1), Subs(0)], false),
    (P(3), &[LumaPattern(1), FirstRef(1), Subs(3)], true),
    (P(3), &[LumaPattern(1), FirstRef(1), Subs(4)], false),
    (P(3), &[P8x8Ref0, FirstRef(0), Subs(0)], true),
    (P(3), &[P8x8Ref0, FirstRef(1), Subs(0)], false),
    (P(3), &[LumaPattern(1), Transform8x8, Subs(0)], true),
    (P(3), &[LumaPattern(1), Transform8x8, Subs(1)], false),
    (P(3), &[FirstVector(-32767), Refs(0), Subs(3)], true),
    (P(3), &[FirstVector(32768), Refs(0), Subs(3)], false),
    (B(0), &[LumaPattern(1), Transform8x8, Refs(0)], false),
    (B(1), &[LumaPattern(1), QpDelta(0), Refs(1)], true),
    (B(2), &[LumaPattern(1), QpDelta(0), Refs(1)], false),
    (B(22), &[LumaPattern(1), Transform8x8, Subs(3)], true),
    (B(22), &[LumaPattern(1), Transform8x8, Subs(0)], false),
    (B(22), &[LumaPattern(1), Transform8x8, Subs(4)], false),
    (B(22), &[LumaPattern(1), QpDelta(1), Subs(12)], true),
    (B(22), &[LumaPattern(1), QpDelta(1), Subs(13)], false),
];

/// The first kind of slice that has the type.
fn slice_of(kind: MbKind) -> SliceKind {
    match kind {
        Intra(_) => SliceKind::I,
        P(_) | Skip => SliceKind::P,
        B(_) => SliceKind::B,
    }
}

#[test]
fn elements_stand_where_they_are_sent(rt: HostRuntime) {
    for (kind, elements, wanted) in &ELEMENTS {
        let shape = shape(slice_of(*kind), 1, 1, false);
        assert!(rt; valid(&shape, &[made(*kind, elements)]) == *wanted);
    }
}

/// The macroblocks of two pairs in a row, and whether they are those of a slice.
static PAIRS: [(Paired, Paired, Paired, Paired, bool); 8] = [
    (Coded(3), FieldSkip, FieldSkip, FieldSkip, true),
    (FieldSkip, Coded(3), FieldSkip, FieldSkip, true),
    (Coded(3), FieldSkip, FrameSkip, FrameSkip, false),
    (Coded(3), FrameSkip, FrameSkip, FrameSkip, false),
    (FieldSkip, FieldSkip, FrameSkip, FrameSkip, false),
    (Coded(3), FieldSkip, FrameSkip, CodedFrame(1), true),
    (Coded(3), FieldSkip, FrameSkip, CodedFrame(2), false),
    (Coded(3), Coded(4), FrameSkip, FrameSkip, false),
];

/// A macroblock of a pair: skipped ones by their flag, and P_L0_16x16 of a field or a frame pair with its index.
#[derive(Clone, Copy)]
enum Paired {
    FrameSkip,
    FieldSkip,
    Coded(u8),
    CodedFrame(u8),
}

fn macroblock_of(which: Paired) -> Mb {
    match which {
        FrameSkip => Mb::without_elements(MbKind::Skip),
        FieldSkip => made(MbKind::Skip, &[Field]),
        Coded(index) => made(MbKind::P(0), &[Field, Refs(index)]),
        CodedFrame(index) => made(MbKind::P(0), &[Refs(index)]),
    }
}

/// A skipped pair takes the flag of the field pair on its left, and a field macroblock of a frame has each reference
/// twice.
#[test]
fn pairs_have_one_flag(rt: HostRuntime) {
    let shape = shape(SliceKind::P, 2, 2, true);
    for (first, second, third, fourth, wanted) in &PAIRS {
        let mbs = [
            macroblock_of(*first),
            macroblock_of(*second),
            macroblock_of(*third),
            macroblock_of(*fourth),
        ];
        assert!(rt; valid(&shape, &mbs) == *wanted);
    }
}
