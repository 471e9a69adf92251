ghost use Rattle.std.specs.Prelude.{◌≡◌, ◌<◌, ◌≤◌, List};
ghost use Rattle.h264_types.specs.declared.macroblock.Mb.{Mb};
ghost use Rattle.h264_types.specs.LastRows.{StandsAt};
ghost use Rattle.h264_types.specs.Slice.{IsInPicture};
ghost use Rattle.mb_neighbours.specs.Place.{IsPlace, count_of};
ghost use Rattle.cabac_contexts.specs.Terms.{HasComponent, IsReadAt, blocks_of};
ghost use Rattle.cabac_contexts.specs.Increments as inc;

use crate::magnitude::magnitudes;
use crate::term::{Term, flags};
use h264_types::{Mb, Rows, SliceShape};
use mb_neighbours::At;

/// The increment of mb_skip_flag, 0 to 2 (9.3.3.1.1.1), where the arguments are those of [`ctx_inc_type_i`]. Of a pair whose top
/// is skipped, the top may be missing in `done` at its bottom: it counts as skipped.
pub fn ctx_inc_skip(shape: &SliceShape, done: &Rows<Mb>, at: u32, field: bool, mb: &Mb) -> u8
    requires picture { IsInPicture shape.now at }
    ensures value { (mbs : List Mb) → StandsAt (λ mb. mb) shape.now done.now mbs at → result ≡ inc.skip shape.now mbs at field mb.now }
    ensures bound { result < 3 }
{
    let place = At::Whole;
    sum(flags(shape, done, at, field, mb, place, Term::NotSkipped, false))
}

/// The increment of the first bin of mb_type in an I slice, 0 to 2 (9.3.3.1.1.3).
///
/// For this call and those below: `done` has the last two rows of the slice's macroblocks, of which all before number `at`
/// are done and none behind it, in MBAFF none behind its pair; `mb` is number `at` as far as it was read; `field` is its pair
/// flag, false outside MBAFF.
pub fn ctx_inc_type_i(shape: &SliceShape, done: &Rows<Mb>, at: u32, field: bool, mb: &Mb) -> u8
    requires picture { IsInPicture shape.now at }
    ensures value { (mbs : List Mb) → IsReadAt shape.now done.now mbs at → result ≡ inc.type_i shape.now mbs at field mb.now }
    ensures bound { result < 3 }
{
    let place = At::Whole;
    sum(flags(shape, done, at, field, mb, place, Term::OtherType, false))
}

/// The increment of the first bin of mb_type in a B slice, 0 to 2 (9.3.3.1.1.3).
pub fn ctx_inc_type_b(shape: &SliceShape, done: &Rows<Mb>, at: u32, field: bool, mb: &Mb) -> u8
    requires picture { IsInPicture shape.now at }
    ensures value { (mbs : List Mb) → IsReadAt shape.now done.now mbs at → result ≡ inc.type_b shape.now mbs at field mb.now }
    ensures bound { result < 3 }
{
    let place = At::Whole;
    sum(flags(shape, done, at, field, mb, place, Term::NotDirect, false))
}

/// The increment of the first bin of ref_idx_l0 or ref_idx_l1, 0 to 3 (9.3.3.1.1.6), for the partition that begins with this
/// quarter. `mb` has its sub_mb_type, and the indices of the partitions before.
pub fn ctx_inc_ref(
    shape: &SliceShape,
    done: &Rows<Mb>,
    at: u32,
    field: bool,
    mb: &Mb,
    list: u8,
    quarter: u8,
) -> u8
    requires picture { IsInPicture shape.now at }
    requires list { list < 2 }
    requires quarter { quarter < 4 }
    ensures value { (mbs : List Mb) → IsReadAt shape.now done.now mbs at → result ≡ inc.ref_idx shape.now mbs at field mb.now list quarter }
    ensures bound { result < 4 }
{
    let place = At::Luma8(quarter);
    let term = Term::Reference(list, field);
    weighted(flags(shape, done, at, field, mb, place, term, false))
}

/// The increment of the first bin of a component of mvd_l0 or mvd_l1, 0 to 2 (9.3.3.1.1.7), for the part that begins with
/// this 4x4 block: x for axis 0, y for axis 1. `mb` has its sub_mb_type, and the vectors of the parts before.
pub fn ctx_inc_mvd(
    shape: &SliceShape,
    done: &Rows<Mb>,
    at: u32,
    field: bool,
    mb: &Mb,
    list: u8,
    block: u8,
    axis: u8,
) -> u8
    requires picture { IsInPicture shape.now at }
    requires list { list < 2 }
    requires block { block < 16 }
    requires axis { axis < 2 }
    ensures value { (mbs : List Mb) → IsReadAt shape.now done.now mbs at → result ≡ inc.mvd shape.now mbs at field mb.now list block axis }
    ensures bound { result < 3 }
{
    match magnitudes(shape, done, at, field, mb, list, block, axis) {
        0..3 => 0,
        3..=32 => 1,
        _ => 2,
    }
}

/// The increment of the first bin of intra_chroma_pred_mode, 0 to 2 (9.3.3.1.1.8).
pub fn ctx_inc_chroma_mode(shape: &SliceShape, done: &Rows<Mb>, at: u32, field: bool, mb: &Mb) -> u8
    requires picture { IsInPicture shape.now at }
    ensures value { (mbs : List Mb) → IsReadAt shape.now done.now mbs at → result ≡ inc.chroma_mode shape.now mbs at field mb.now }
    ensures bound { result < 3 }
{
    let place = At::Whole;
    sum(flags(shape, done, at, field, mb, place, Term::ChromaMode, false))
}

/// The increment of the first bin of mb_qp_delta, 0 or 1: whether the macroblock before in the slice sent an
/// mb_qp_delta other than 0 (9.3.3.1.1.5).
pub fn ctx_inc_qp_delta(_shape: &SliceShape, done: &Rows<Mb>, at: u32, _field: bool, _mb: &Mb) -> u8
    ensures value { (mbs : List Mb) → IsReadAt _shape.now done.now mbs at → result ≡ inc.qp_delta mbs at }
    ensures bound { result < 2 }
{
    let Some(number) = at.checked_sub(1) else {
        return 0;
    };
    u8::from(done.get(number).is_some_and(|before| before.qp_delta != 0))
}

/// The increment of transform_size_8x8_flag, 0 to 2 (9.3.3.1.1.10).
pub fn ctx_inc_t8(shape: &SliceShape, done: &Rows<Mb>, at: u32, field: bool, mb: &Mb) -> u8
    requires picture { IsInPicture shape.now at }
    ensures value { (mbs : List Mb) → IsReadAt shape.now done.now mbs at → result ≡ inc.t8 shape.now mbs at field mb.now }
    ensures bound { result < 3 }
{
    let place = At::Whole;
    sum(flags(shape, done, at, field, mb, place, Term::Transform8, false))
}

/// The increment of the bin of a luma quarter in coded_block_pattern, 0 to 3 (9.3.3.1.1.4). `mb` has the bits of the quarters
/// before.
pub fn ctx_inc_luma(
    shape: &SliceShape,
    done: &Rows<Mb>,
    at: u32,
    field: bool,
    mb: &Mb,
    quarter: u8,
) -> u8
    requires picture { IsInPicture shape.now at }
    requires quarter { quarter < 4 }
    ensures value { (mbs : List Mb) → IsReadAt shape.now done.now mbs at → result ≡ inc.luma shape.now mbs at field mb.now quarter }
    ensures bound { result < 4 }
{
    let place = At::Luma8(quarter);
    weighted(flags(shape, done, at, field, mb, place, Term::NoLuma, false))
}

/// The increment of the first or the second bin of chroma in coded_block_pattern, 0 to 3 (9.3.3.1.1.4).
pub fn ctx_inc_chroma(
    shape: &SliceShape,
    done: &Rows<Mb>,
    at: u32,
    field: bool,
    mb: &Mb,
    second: bool,
) -> u8
    requires picture { IsInPicture shape.now at }
    ensures value { (mbs : List Mb) → IsReadAt shape.now done.now mbs at → result ≡ inc.chroma shape.now mbs at field mb.now second }
    ensures bound { result < 4 }
{
    let term = if second { Term::ChromaAc } else { Term::Chroma };
    weighted(flags(shape, done, at, field, mb, At::Whole, term, false))
}

/// The increment of coded_block_flag, 0 to 3 (9.3.3.1.1.9), for `cat` (ctxBlockCat) 0 to 4: luma DC, luma AC, luma, chroma DC,
/// chroma AC. `comp` is 1 for Cr and else 0. `block` is the number of a 4x4 block of luma or chroma, and 0 for DC levels.
/// `mb` has its pattern and the levels of the blocks before.
#[inline(always)]
pub fn ctx_inc_block(
    shape: &SliceShape,
    done: &Rows<Mb>,
    at: u32,
    field: bool,
    mb: &Mb,
    cat: u8,
    comp: u8,
    block: u8,
) -> u8
    requires picture { IsInPicture shape.now at }
    requires block { inc.IsBlock cat comp block }
    ensures value { (mbs : List Mb) → IsReadAt shape.now done.now mbs at → result ≡ inc.coded_block shape.now mbs at field mb.now cat comp block }
    ensures bound { result < 4 }
{
    let (place, term) = block_place(cat, comp, block);
    let missing = mb.kind.is_intra();
    weighted(flags(shape, done, at, field, mb, place, term, missing))
}

/// Where a block stands, and what its neighbours are asked.
#[inline(always)]
fn block_place(cat: u8, comp: u8, block: u8) -> (At, Term)
    requires { inc.IsBlock cat comp block }
    ensures place { result.0 ≡ inc.place_of cat block }
    ensures term { result.1 ≡ inc.flag_of cat comp }
    ensures is_place { IsPlace result.0 }
    ensures blocks { count_of result.0 ≤ blocks_of result.1 }
    ensures component { HasComponent result.1 }
{
    match cat {
        0 => (At::Whole, Term::LumaDcFlag),
        1 | 2 => (At::Luma4(block), Term::LumaFlag),
        3 => (At::Whole, Term::ChromaDcFlag(comp)),
        _ => (At::Chroma4(block), Term::ChromaAcFlag(comp)),
    }
}

/// condTermFlagA + condTermFlagB
#[inline(always)]
fn sum(flags: (bool, bool)) -> u8
    ensures { result ≡ inc.sum flags.0 flags.1 }
{
    u8::from(flags.0) + u8::from(flags.1)
}

/// condTermFlagA + 2 * condTermFlagB
#[inline(always)]
fn weighted(flags: (bool, bool)) -> u8
    ensures { result ≡ inc.weighted flags.0 flags.1 }
{
    u8::from(flags.0) + 2 * u8::from(flags.1)
}
