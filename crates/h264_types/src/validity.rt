//! Which lists of macroblocks are a slice's, test by test as the definition has its facts.
ghost use Rattle.std.specs.Prelude.{◌≡◌, ℕ, ◌+◌, ◌*◌, ◌<◌, ◌≤◌, ◌↔◌, length, IsTrue, All, slice_index, slice_index_or, unsigned_abs, pos};
ghost use Rattle.h264_types.specs.Partition.{partition_of, part_of};
ghost use Rattle.h264_types.specs.Macroblock.{quarter_of};
ghost use Rattle.h264_types.specs.Slice.{IsInPicture};
ghost use Rattle.h264_types.specs.Valid.{RefsRepeat, MvdRepeats, IsListSent, IsQuarterCoded, IsLumaCoded, IsChromaCoded, IsQpDelta, IsPattern, pattern_bound, qp_delta_bound, sample_bound, luma_bound, last_luma_bound, dc_bound, chroma_dc_bound, chroma_ac_bound, mode_bound, sub_bound, ref_at, ref_bound, mvd_of, mvd_bound, list_is_used, is_kind_in, is_ref0, IsTyped, IsIntraPredicted, IsInterPredicted, IsCoded, IsMacroblock, IsPair, ArePairs, IsSlice, IsWithin};

use crate::macroblock::{Mb, MbKind};
use crate::sent::mode_count;
use crate::sizes::has_sizes;
use crate::slice_order::{inferred_field, is_field_at, is_skipped_at};
use crate::slice_shape::{SliceKind, SliceShape};

fn is_kind_of(slice: SliceKind, kind: MbKind) -> bool
    ensures { result ≡ is_kind_in slice kind }
{
    match (slice, kind) {
        (_, MbKind::Intra(number)) => number <= 25,
        (SliceKind::I, _) => false,
        (_, MbKind::Skip) => true,
        (SliceKind::P, MbKind::P(number)) => number <= 3,
        (SliceKind::B, MbKind::B(number)) => number <= 22,
        _ => false,
    }
}

/// Whether P_8x8ref0 says the same as this type and its reference indices (Table 7-13).
pub fn is_p_8x8ref0(mb: &Mb) -> bool
    ensures { result ≡ is_ref0 mb.now }
{
    matches!(mb.kind, MbKind::P(3)) && mb.refs[0].iter().all(|index| *index == 0)
}

fn is_typed(shape: &SliceShape, mb: &Mb) -> bool
    ensures { IsTrue result ↔ IsTyped shape.now mb.now }
{
    is_kind_of(shape.kind, mb.kind)
        && (!mb.ref0 || is_p_8x8ref0(mb))
        && (!mb.field || shape.mbaff)
        && (!mb.t8 || shape.sends_t8_first(mb.kind) || shape.sends_t8_last(mb))
}

fn is_within(bound: u32, values: &[i32]) -> bool
    ensures { IsTrue result ↔ IsWithin bound values.now }
{
    values.iter().all(|value| value.unsigned_abs() <= bound)
}

fn greatest_mode(mb: &Mb, place: u8) -> u8
    ensures { result ≡ mode_bound mb.now place }
{
    if mb.kind.is_i_nxn() && (place as usize) < mode_count(mb.t8) {
        8
    } else {
        0
    }
}

fn are_modes(mb: &Mb) -> bool
    ensures { IsTrue result ↔ ((k : ℕ) → k < 16 → slice_index mb.now.modes k ≤ mode_bound mb.now k) }
{
    for k in 0..16 {
        if mb.modes[k as usize] > greatest_mode(mb, k) {
            return false;
        }
    }
    true
}

fn is_intra_predicted(mb: &Mb) -> bool
    ensures { IsTrue result ↔ IsIntraPredicted mb.now }
{
    let greatest = if mb.kind.is_intra() && !mb.kind.is_i_pcm() {
        3
    } else {
        0
    };
    are_modes(mb) && mb.chroma_mode <= greatest
}

fn greatest_sub(kind: MbKind) -> u8
    ensures { result ≡ sub_bound kind }
{
    match kind {
        MbKind::P(3) => 3,
        MbKind::B(22) => 12,
        _ => 0,
    }
}

fn is_list_used(mb: &Mb, list: u8, quarter: u8) -> bool
    requires { quarter < 4 }
    ensures { result ≡ list_is_used mb.now list quarter }
{
    mb.kind
        .prediction(mb.subs[quarter as usize], quarter)
        .uses(list)
}

/// Twice the references in a field macroblock of a frame.
fn greatest_ref(shape: &SliceShape, mb: &Mb, list: u8, quarter: u8) -> u16
    requires list { list < 2 }
    requires quarter { quarter < 4 }
    ensures { result ≡ ref_bound shape.now mb.now list quarter }
{
    if is_list_used(mb, list, quarter) {
        let fields = if shape.mbaff && mb.field { 2 } else { 1 };
        (u16::from(shape.refs[list as usize]) * fields).saturating_sub(1)
    } else {
        0
    }
}

fn are_refs(shape: &SliceShape, mb: &Mb, list: u8) -> bool
    requires { list < 2 }
    ensures { IsTrue result ↔ ((q : ℕ) → q < 4 → ref_at mb.now list q ≤ ref_bound shape.now mb.now list q) }
{
    for q in 0..4 {
        if u16::from(mb.refs[list as usize][q as usize]) > greatest_ref(shape, mb, list, q) {
            return false;
        }
    }
    true
}

fn ref_repeats(mb: &Mb, list: u8, quarter: u8) -> bool
    requires list { list < 2 }
    requires quarter { quarter < 4 }
    ensures { IsTrue result ↔ ((r : ℕ) → r < 4 → partition_of mb.now.kind quarter ≡ partition_of mb.now.kind r → ref_at mb.now list quarter ≡ ref_at mb.now list r) }
{
    let refs = &mb.refs[list as usize];
    for r in 0..4 {
        if mb.kind.partition(quarter) == mb.kind.partition(r)
            && refs[quarter as usize] != refs[r as usize]
        {
            return false;
        }
    }
    true
}

fn do_refs_repeat(mb: &Mb, list: u8) -> bool
    requires { list < 2 }
    ensures { IsTrue result ↔ RefsRepeat mb.now list }
{
    for q in 0..4 {
        if !ref_repeats(mb, list, q) {
            return false;
        }
    }
    true
}

fn greatest_mvd(mb: &Mb, list: u8, block: u8) -> u32
    requires { block < 16 }
    ensures { result ≡ mvd_bound mb.now list block }
{
    if is_list_used(mb, list, block / 4) {
        32767
    } else {
        0
    }
}

fn are_mvd(mb: &Mb, list: u8) -> bool
    requires { list < 2 }
    ensures { IsTrue result ↔ ((n : ℕ) → n < 16 → IsWithin (mvd_bound mb.now list n) (mvd_of mb.now list n)) }
{
    for n in 0..16 {
        if !is_within(
            greatest_mvd(mb, list, n),
            &mb.mvd[list as usize][n as usize],
        ) {
            return false;
        }
    }
    true
}

impl Mb {
    /// A number for the partition or sub-macroblock partition of 4x4 block 0 to 15: blocks with one number have one vector.
    pub fn part(&self, block: u8) -> u8
        requires { block < 16 }
        ensures { result ≡ part_of self.now.kind self.now.subs block }
    {
        let quarter = block / 4;
        let part = if self.kind.has_sub_macroblocks() {
            self.kind
                .sub_partition(self.subs[quarter as usize], block % 4)
        } else {
            0
        };
        4 * self.kind.partition(quarter) + part
    }
}

fn mvd_repeats(mb: &Mb, list: u8, block: u8) -> bool
    requires list { list < 2 }
    requires block { block < 16 }
    ensures { IsTrue result ↔ MvdRepeats mb.now list block }
{
    let vector = mvd_at(mb, list, block);
    for m in 0..16 {
        if mb.part(block) == mb.part(m) && !is_same_vector(vector, mvd_at(mb, list, m)) {
            return false;
        }
    }
    true
}

fn mvd_at(mb: &Mb, list: u8, block: u8) -> &[i32; 2]
    requires list { list < 2 }
    requires block { block < 16 }
    ensures { result.now ≡ mvd_of mb.now list block }
{
    &mb.mvd[list as usize][block as usize]
}

fn is_same_vector(a: &[i32; 2], b: &[i32; 2]) -> bool
    ensures { IsTrue result ↔ (a.now ≡ b.now) }
{
    a == b
}

fn do_mvd_repeat(mb: &Mb, list: u8) -> bool
    requires { list < 2 }
    ensures { IsTrue result ↔ ((n : ℕ) → n < 16 → MvdRepeats mb.now list n) }
{
    for n in 0..16 {
        if !mvd_repeats(mb, list, n) {
            return false;
        }
    }
    true
}

fn is_list_sent(shape: &SliceShape, mb: &Mb, list: u8) -> bool
    requires { list < 2 }
    ensures { IsTrue result ↔ IsListSent shape.now mb.now list }
{
    are_refs(shape, mb, list)
        && do_refs_repeat(mb, list)
        && are_mvd(mb, list)
        && do_mvd_repeat(mb, list)
}

fn are_at_most(bound: u8, values: &[u8]) -> bool
    ensures { IsTrue result ↔ All (λ value. value ≤ bound) values.now }
{
    values.iter().all(|value| *value <= bound)
}

fn is_inter_predicted(shape: &SliceShape, mb: &Mb) -> bool
    ensures { IsTrue result ↔ IsInterPredicted shape.now mb.now }
{
    are_at_most(greatest_sub(mb.kind), &mb.subs)
        && is_list_sent(shape, mb, 0)
        && is_list_sent(shape, mb, 1)
}

fn greatest_luma(mb: &Mb, quarter: u8) -> u32
    requires { quarter < 4 }
    ensures { result ≡ luma_bound mb.now quarter }
{
    if (mb.coded_pattern().luma >> quarter) & 1 == 1 {
        65535
    } else {
        0
    }
}

fn are_last_levels(mb: &Mb, quarter: u8) -> bool
    requires { quarter < 4 }
    ensures { IsTrue result ↔ ((k : ℕ) → k < 4 → unsigned_abs (slice_index_or (quarter_of mb.now quarter) (16 * k + 15) (pos 0)) ≤ last_luma_bound mb.now) }
{
    let bound = if mb.kind.is_i_16x16() { 0 } else { 65535 };
    for k in 0..4 {
        if mb.luma[quarter as usize][16 * k + 15].unsigned_abs() > bound {
            return false;
        }
    }
    true
}

fn is_quarter_coded(mb: &Mb, quarter: u8) -> bool
    requires { quarter < 4 }
    ensures { IsTrue result ↔ IsQuarterCoded mb.now quarter }
{
    is_within(greatest_luma(mb, quarter), &mb.luma[quarter as usize])
        && are_last_levels(mb, quarter)
}

fn are_quarters_coded(mb: &Mb) -> bool
    ensures { IsTrue result ↔ ((q : ℕ) → q < 4 → IsQuarterCoded mb.now q) }
{
    for q in 0..4 {
        if !is_quarter_coded(mb, q) {
            return false;
        }
    }
    true
}

fn greatest_dc(kind: MbKind) -> u32
    ensures { result ≡ dc_bound kind }
{
    if kind.is_i_16x16() { 65535 } else { 0 }
}

fn is_luma_coded(mb: &Mb) -> bool
    ensures { IsTrue result ↔ IsLumaCoded mb.now }
{
    is_within(greatest_dc(mb.kind), &mb.dc) && are_quarters_coded(mb)
}

fn greatest_chroma_dc(mb: &Mb) -> u32
    ensures { result ≡ chroma_dc_bound mb.now }
{
    if mb.coded_pattern().chroma > 0 {
        65535
    } else {
        0
    }
}

fn are_chroma_dc_within(bound: u32, lists: &[[i32; 4]]) -> bool
    ensures { IsTrue result ↔ All (IsWithin bound) lists.now }
{
    lists.iter().all(|levels| is_within(bound, levels))
}

fn greatest_chroma_ac(mb: &Mb) -> u32
    ensures { result ≡ chroma_ac_bound mb.now }
{
    if mb.coded_pattern().chroma == 2 {
        65535
    } else {
        0
    }
}

fn is_chroma_coded(mb: &Mb) -> bool
    ensures { IsTrue result ↔ IsChromaCoded mb.now }
{
    let bound = greatest_chroma_ac(mb);
    are_chroma_dc_within(greatest_chroma_dc(mb), &mb.chroma_dc)
        && are_within(bound, &mb.chroma_ac[0])
        && are_within(bound, &mb.chroma_ac[1])
}

fn are_within(bound: u32, blocks: &[[i32; 15]]) -> bool
    ensures { IsTrue result ↔ All (IsWithin bound) blocks.now }
{
    blocks.iter().all(|levels| is_within(bound, levels))
}

fn greatest_in_pattern(kind: MbKind, greatest: u8) -> u8
    ensures { result ≡ pattern_bound kind greatest }
{
    if kind.sends_pattern() { greatest } else { 0 }
}

fn greatest_qp_delta(mb: &Mb) -> u8
    ensures { result ≡ qp_delta_bound mb.now }
{
    if mb.kind.sends_qp_delta(mb.pattern) {
        26
    } else {
        0
    }
}

fn is_qp_delta(mb: &Mb) -> bool
    ensures { IsTrue result ↔ IsQpDelta mb.now }
{
    mb.qp_delta.unsigned_abs() <= greatest_qp_delta(mb) && mb.qp_delta <= 25
}

fn is_pattern(mb: &Mb) -> bool
    ensures { IsTrue result ↔ IsPattern mb.now }
{
    mb.pattern.luma <= greatest_in_pattern(mb.kind, 15)
        && mb.pattern.chroma <= greatest_in_pattern(mb.kind, 2)
}

fn greatest_sample(kind: MbKind) -> u8
    ensures { result ≡ sample_bound kind }
{
    if kind.is_i_pcm() { 255 } else { 0 }
}

fn is_coded(mb: &Mb) -> bool
    ensures { IsTrue result ↔ IsCoded mb.now }
{
    is_pattern(mb)
        && is_qp_delta(mb)
        && is_luma_coded(mb)
        && is_chroma_coded(mb)
        && are_at_most(greatest_sample(mb.kind), &mb.pcm)
}

fn is_macroblock(shape: &SliceShape, mb: &Mb) -> bool
    ensures { IsTrue result ↔ IsMacroblock shape.now mb.now }
{
    has_sizes(mb);
    is_typed(shape, mb) && is_intra_predicted(mb) && is_inter_predicted(shape, mb) && is_coded(mb)
}

fn are_macroblocks(shape: &SliceShape, mbs: &[Mb]) -> bool
    ensures { IsTrue result ↔ All (IsMacroblock shape.now) mbs.now }
{
    mbs.iter().all(|mb| is_macroblock(shape, mb))
}

fn is_same_flag(a: bool, b: bool) -> bool
    ensures { IsTrue result ↔ (a ≡ b) }
{
    a == b
}

fn is_pair(shape: &SliceShape, mbs: &[Mb], pair: usize) -> bool
    requires picture { IsInPicture shape.now (2 * pair) }
    requires whole { 2 * pair + 1 < length mbs.now }
    ensures { IsTrue result ↔ IsPair shape.now mbs.now pair }
{
    let field = is_field_at(mbs, 2 * pair);
    let skipped = is_skipped_at(mbs, 2 * pair) && is_skipped_at(mbs, 2 * pair + 1);
    is_same_flag(field, is_field_at(mbs, 2 * pair + 1))
        && (!skipped || is_same_flag(field, inferred_field(shape, mbs, pair)))
}

fn are_pairs(shape: &SliceShape, mbs: &[Mb]) -> bool
    requires { shape.now.first + length mbs.now ≤ shape.now.width * shape.now.height }
    ensures { IsTrue result ↔ ArePairs shape.now mbs.now }
{
    for pair in 0..mbs.len() / 2 {
        if !is_pair(shape, mbs, pair) {
            return false;
        }
    }
    mbs.len() % 2 == 0
}

fn is_inside(shape: &SliceShape, count: usize) -> bool
    ensures { IsTrue result ↔ (shape.now.first + count ≤ shape.now.width * shape.now.height) }
{
    let picture = shape.width as usize * shape.height as usize;
    count <= picture && shape.first as usize <= picture - count
}

/// Whether the macroblocks are those of a slice of this shape: the shape of a picture of Main or High within the limits,
/// each element present where 7.3.5 sends it and in its range, addresses inside the picture, and in MBAFF whole pairs with one flag each, inferred where both are skipped.
pub fn valid(shape: &SliceShape, mbs: &[Mb]) -> bool
    ensures { IsTrue result ↔ IsSlice shape.now mbs.now }
{
    shape.is_shape()
        && !mbs.is_empty()
        && is_inside(shape, mbs.len())
        && are_macroblocks(shape, mbs)
        && (!shape.mbaff || are_pairs(shape, mbs))
}
