// What neighbouring macroblocks and blocks say of a bin's context (9.3.3.1.1).
ghost use Rattle.std.specs.Prelude.{◌≡◌, ◌<◌, ◌≤◌, nat_lt, List, IfSome};
ghost use Rattle.h264_types.specs.LastRows.{AreRows, IsRecent, StandsAt};
ghost use Rattle.h264_types.specs.declared.macroblock.Mb.{Mb};
ghost use Rattle.h264_types.specs.declared.slice_shape.SliceShape.{SliceShape};
ghost use Rattle.h264_types.specs.Slice.{IsInPicture};
ghost use Rattle.h264_types.specs.Valid.{list_is_used, ref_at};
ghost use Rattle.mb_neighbours.specs.Place.{IsPlace, count_of};
ghost use Rattle.cabac_contexts.specs.Terms.{HasComponent, blocks_of, has_level, has_luma, term_of, zero_ref, flag_at, flag_a, flag_b};

use h264_types::{Mb, MbKind, Rows, SliceShape};
use mb_neighbours::{At, Spot, above, left};

/// What a neighbouring macroblock or block is asked; its answer is condTermFlagN.
#[derive(Clone, Copy)]
pub enum Term {
    /// Its type isn't I_NxN (9.3.3.1.1.3).
    OtherType,
    /// It sends intra_chroma_pred_mode, other than 0 (9.3.3.1.1.8).
    ChromaMode,
    /// transform_size_8x8_flag (9.3.3.1.1.10).
    Transform8,
    /// The bit of a luma quarter in the pattern is 0; not so in I_PCM (9.3.3.1.1.4).
    NoLuma,
    /// The pattern has chroma, as that of I_PCM does (9.3.3.1.1.4).
    Chroma,
    /// The pattern has chroma AC levels, as that of I_PCM does (9.3.3.1.1.4).
    ChromaAc,
    /// coded_block_flag of the luma DC levels (9.3.3.1.1.9).
    LumaDcFlag,
    /// coded_block_flag of a luma block (9.3.3.1.1.9).
    LumaFlag,
    /// coded_block_flag of the DC levels of a chroma component, 0 or 1 (9.3.3.1.1.9).
    ChromaDcFlag(u8),
    /// coded_block_flag of a block of AC levels of a chroma component (9.3.3.1.1.9).
    ChromaAcFlag(u8),
    /// It isn't skipped (9.3.3.1.1.1).
    NotSkipped,
    /// It is neither skipped nor B_Direct_16x16 (9.3.3.1.1.3).
    NotDirect,
    /// A quarter sends a reference index of a list, 0 or 1, that counts as greater than 0 beside a macroblock whose pair
    /// flag is this (9.3.3.1.1.6).
    Reference(u8, bool),
}

/// condTermFlagA and condTermFlagB of a place of the current macroblock; `missing` is that of a neighbour that isn't
/// available.
#[inline(always)]
pub(crate) fn flags(
    shape: &SliceShape,
    done: &Rows<Mb>,
    at: u32,
    field: bool,
    mb: &Mb,
    place: At,
    term: Term,
    missing: bool,
) -> (bool, bool)
    requires picture { IsInPicture shape.now at }
    requires place { IsPlace place }
    requires blocks { count_of place ≤ blocks_of term }
    requires component { HasComponent term }
    ensures a { (mbs : List Mb) → StandsAt (λ mb. mb) shape.now done.now mbs at → result.0 ≡ flag_a missing term shape.now mbs at field mb.now place }
    ensures b { (mbs : List Mb) → StandsAt (λ mb. mb) shape.now done.now mbs at → result.1 ≡ flag_b missing term shape.now mbs at field mb.now place }
{
    let a = left(shape, done, at, field, place);
    let b = above(shape, done, at, field, place);
    (
        flag(done, at, mb, a, term, missing),
        flag(done, at, mb, b, term, missing),
    )
}

/// condTermFlagN of a neighbour, where it was found.
#[inline(always)]
fn flag(done: &Rows<Mb>, at: u32, mb: &Mb, found: Option<Spot>, term: Term, missing: bool) -> bool
    requires block { IfSome found (λ spot. spot.block < blocks_of term) }
    requires component { HasComponent term }
    ensures { (shape : SliceShape) (mbs : List Mb) → AreRows (λ mb. mb) shape done.now mbs → IfSome found (λ spot. IsRecent done.now spot.mb)
        → result ≡ flag_at missing term mbs at mb.now found }
{
    let Some(spot) = found else {
        return missing;
    };
    if spot.mb == at {
        return answer(mb, spot.block, term);
    }
    match done.get(spot.mb) {
        Some(neighbour) => answer(neighbour, spot.block, term),
        None => missing,
    }
}

/// What a macroblock, or a block of it, says.
#[inline(always)]
fn answer(mb: &Mb, block: u8, term: Term) -> bool
    requires block { block < blocks_of term }
    requires component { HasComponent term }
    ensures { result ≡ term_of term mb.now block }
{
    let kind = mb.kind;
    let pattern = mb.coded_pattern();
    match term {
        Term::OtherType => !kind.is_i_nxn(),
        Term::ChromaMode => kind.is_intra() && !kind.is_i_pcm() && mb.chroma_mode != 0,
        Term::Transform8 => mb.t8,
        Term::NoLuma => !kind.is_i_pcm() && (kind.is_skip() || !has_luma(mb, block)),
        Term::Chroma => kind.is_i_pcm() || !kind.is_skip() && pattern.chroma != 0,
        Term::ChromaAc => kind.is_i_pcm() || !kind.is_skip() && pattern.chroma == 2,
        Term::LumaDcFlag => kind.is_i_pcm() || kind.is_i_16x16() && has_level(&mb.dc),
        Term::LumaFlag => {
            kind.is_i_pcm() || has_luma(mb, block / 4) && (mb.t8 || has_level(mb.block(block)))
        }
        Term::ChromaDcFlag(component) => {
            kind.is_i_pcm()
                || pattern.chroma != 0 && has_level(&mb.chroma_dc[usize::from(component)])
        }
        Term::ChromaAcFlag(component) => {
            let blocks = &mb.chroma_ac[usize::from(component)];
            kind.is_i_pcm() || pattern.chroma == 2 && has_level(&blocks[usize::from(block)])
        }
        Term::NotSkipped => !kind.is_skip(),
        Term::NotDirect => !(kind.is_skip() || kind == MbKind::B(0)),
        Term::Reference(list, field) => uses(mb, list, block) && counts(mb, list, block, field),
    }
}

/// A quarter sends its reference index and vectors of a list.
#[inline(always)]
pub(crate) fn uses(mb: &Mb, list: u8, quarter: u8) -> bool
    requires { quarter < 4 }
    ensures { result ≡ list_is_used mb.now list quarter }
{
    let sub = mb.subs[usize::from(quarter)];
    mb.kind.prediction(sub, quarter).uses(list)
}

/// The reference index of a quarter counts as greater than 0 beside a macroblock whose pair flag is `field`.
#[inline(always)]
fn counts(mb: &Mb, list: u8, quarter: u8, field: bool) -> bool
    requires list { list < 2 }
    requires quarter { quarter < 4 }
    ensures { result ≡ nat_lt (zero_ref field mb.now.field) (ref_at mb.now list quarter) }
{
    let zero = u8::from(!field && mb.field);
    mb.refs[usize::from(list)][usize::from(quarter)] > zero
}

/// The pattern has a bit for a luma quarter.
#[inline(always)]
fn has_luma(mb: &Mb, quarter: u8) -> bool
    requires { quarter < 4 }
    ensures { result ≡ has_luma mb.now quarter }
{
    (mb.coded_pattern().luma >> quarter) % 2 == 1
}

/// A level isn't 0.
#[inline(always)]
fn has_level(levels: &[i32]) -> bool
    ensures { result ≡ has_level levels.now }
{
    let mut any = false;
    for level in levels {
        any |= *level != 0;
    }
    any
}
