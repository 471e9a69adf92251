ghost use Rattle.std.specs.Prelude.{◌≡◌, ◌+◌, ◌*◌, ◌==◌, ◌<◌, ◌≤◌, ℕ, true, false, List, [], length, slice_index_or, take, IfSome};
ghost use Rattle.std.specs.Int.{bit_at};
ghost use Rattle.h264_types.specs.Macroblock.{quarter_of};
ghost use Rattle.h264_types.specs.Valid.{IsCoded};
ghost use Rattle.h264_types.specs.LastRows.{AreRows};
ghost use Rattle.h264_types.specs.SliceShape.{IsSliceShape};
ghost use Rattle.h264_types.specs.declared.macroblock.Mb.{Mb};
ghost use Rattle.cavlc_residual.specs.Block.{total_coeff};
ghost use Rattle.cavlc_mb_residual.specs.LumaBlocks as lists;
ghost use Rattle.cavlc_mb_residual.specs.Counts as count;

use crate::pairs::around_in_pairs;
use crate::transform_8x8::every_fourth;
use circular_buffer::HeapCircularBuffer;
use h264_types::{Mb, OfMb, Rows, SliceShape};
use mb_neighbours::OfPair;

/// How many levels other than 0 the lists of a macroblock have that are sent of its blocks, as the macroblocks to its
/// right and below it count them (9.2.1).
#[derive(Clone, Copy, Debug, PartialEq, Eq)]
pub struct Counts {
    /// Of the 4x4 luma blocks, four to a quarter.
    pub luma: [u8; 16],
    /// Of the AC blocks of Cb.
    pub cb: [u8; 4],
    /// Of those of Cr.
    pub cr: [u8; 4],
    /// The macroblock's mb_field_decoding_flag, which tells its place beside those around it in MBAFF.
    pub field: bool,
}

/// What the blocks to the left of a macroblock's first column count, and those above its first row, of one component.
/// The two of chroma are named twice.
#[derive(Clone, Copy, Debug, PartialEq, Eq)]
pub struct Sides {
    pub left: Option<[u8; 4]>,
    pub above: Option<[u8; 4]>,
}

/// What stands around a macroblock, for the nC of its blocks.
#[derive(Clone, Copy, Debug, PartialEq, Eq)]
pub struct Around {
    pub luma: Sides,
    pub cb: Sides,
    pub cr: Sides,
}

/// TotalCoeff: how many levels aren't 0.
pub fn count_levels(levels: &[i32]) -> u8
    requires { length levels.now ≤ 16 }
    ensures value { result ≡ total_coeff levels.now }
    ensures most { result ≤ 16 }
{
    let mut count = 0u8;
    for level in levels {
        count += u8::from(*level != 0);
    }
    count
}

/// What the blocks of a macroblock count: in I_PCM 16, in I_16x16 the levels of their AC blocks alone.
impl OfMb for Counts {
    ghost use Rattle.cavlc_mb_residual.specs.Counts as count;

    ghost of = { count.counts_of };

    ghost Is = { count.AreSmallCounts };

    fn of(mb: &Mb) -> Counts {
        let [a, b, c, d] = &mb.luma;
        let [cb, cr] = &mb.chroma_ac;
        let quarters = [has_levels(a), has_levels(b), has_levels(c), has_levels(d)];
        counts_where(mb, quarters, have_levels(cb), have_levels(cr))
    }

    fn keep(mb: &Mb, kept: &mut HeapCircularBuffer<Counts>) {
        kept.push_back(Counts::of(mb));
    }

    fn keep_coded(mb: &Mb, kept: &mut HeapCircularBuffer<Counts>) {
        kept.push_back(coded_counts(mb));
    }
}

impl OfPair for Counts {
    fn is_field(&self) -> bool {
        self.field
    }
}

/// What the blocks of a macroblock count whose levels stand where its pattern sends them.
fn coded_counts(mb: &Mb) -> Counts
    requires { IsCoded mb.now }
    ensures value { result ≡ count.counts_of mb.now }
    ensures is { count.AreSmallCounts result }
{
    let pattern = mb.coded_pattern();
    let luma = pattern.luma;
    let ac = pattern.chroma == 2;
    counts_where(
        mb,
        [
            is_sent(luma, 0),
            is_sent(luma, 1),
            is_sent(luma, 2),
            is_sent(luma, 3),
        ],
        ac,
        ac,
    )
}

/// Whether quarter q is sent under this pattern.
fn is_sent(luma: u8, q: u8) -> bool
    requires { q < 4 }
    ensures { result ≡ (bit_at luma q == 1) }
{
    luma >> q & 1 == 1
}

/// What the blocks of a macroblock count, where false stands only for quarters, AC blocks of Cb and AC blocks of Cr
/// without levels.
#[tactic(auto, unfolding(crate::specs::LumaBlocks::sixteen))]
fn counts_where(mb: &Mb, quarters: [bool; 4], cb: bool, cr: bool) -> Counts
    requires quarters { (q : ℕ) → slice_index_or quarters q true ≡ false → total_coeff (quarter_of mb.now q) ≡ 0 }
    requires cb { cb ≡ false → (n : ℕ) → total_coeff (count.chroma_block mb.now 0 n) ≡ 0 }
    requires cr { cr ≡ false → (n : ℕ) → total_coeff (count.chroma_block mb.now 1 n) ≡ 0 }
    ensures value { result ≡ count.counts_of mb.now }
    ensures is { count.AreSmallCounts result }
{
    if mb.kind.is_i_pcm() {
        return Counts {
            luma: [16; 16],
            cb: [16; 4],
            cr: [16; 4],
            field: mb.field,
        };
    }
    Counts {
        luma: luma_counts(mb, quarters),
        cb: chroma_counts(&mb.chroma_ac[0], cb),
        cr: chroma_counts(&mb.chroma_ac[1], cr),
        field: mb.field,
    }
}

/// TotalCoeff of the list that is sent of luma block n.
fn luma_count(mb: &Mb, n: u8) -> u8
    requires { n < 16 }
    ensures value { result ≡ total_coeff (lists.sent_block mb.now n) }
    ensures most { result ≤ 16 }
{
    if mb.t8 {
        return count_levels(&every_fourth(&mb.luma[usize::from(n / 4)], usize::from(n % 4)));
    }
    count_levels(mb.block(n))
}

/// Whether a level isn't 0.
fn has_levels(levels: &[i32]) -> bool
    ensures { result ≡ false → total_coeff levels.now ≡ 0 }
{
    let mut some = false;
    for level in levels {
        some |= *level != 0;
    }
    some
}

/// TotalCoeff of the four luma blocks of quarter q, where `some` is false only if it has no levels.
fn quarter_counts(mb: &Mb, q: u8, some: bool) -> [u8; 4]
    requires q { q < 4 }
    requires none { some ≡ false → total_coeff (quarter_of mb.now q) ≡ 0 }
    ensures value { result ≡ lists.four (λ k. total_coeff (lists.sent_block mb.now (4 * q + k))) }
    ensures small { count.AreSmall result }
{
    if !some {
        return [0; 4];
    }
    [
        luma_count(mb, 4 * q),
        luma_count(mb, 4 * q + 1),
        luma_count(mb, 4 * q + 2),
        luma_count(mb, 4 * q + 3),
    ]
}

/// TotalCoeff of each luma block.
fn luma_counts(mb: &Mb, some: [bool; 4]) -> [u8; 16]
    requires none { (q : ℕ) → slice_index_or some q true ≡ false → total_coeff (quarter_of mb.now q) ≡ 0 }
    ensures value { result ≡ lists.sixteen (λ n. total_coeff (lists.sent_block mb.now n)) }
    ensures small { count.AreSmall result }
{
    let [a, b, c, d] = quarter_counts(mb, 0, some[0]);
    let [e, f, g, h] = quarter_counts(mb, 1, some[1]);
    let [i, j, k, l] = quarter_counts(mb, 2, some[2]);
    let [m, n, o, p] = quarter_counts(mb, 3, some[3]);
    [a, b, c, d, e, f, g, h, i, j, k, l, m, n, o, p]
}

/// Whether a block has a level that isn't 0.
fn have_levels(blocks: &[[i32; 15]; 4]) -> bool
    ensures { result ≡ false → (n : ℕ) → total_coeff (slice_index_or blocks.now n []) ≡ 0 }
{
    let [a, b, c, d] = blocks;
    has_levels(a) | has_levels(b) | has_levels(c) | has_levels(d)
}

/// TotalCoeff of an AC block.
fn ac_count(block: &[i32; 15]) -> u8
    ensures value { result ≡ total_coeff (take 15 block.now) }
    ensures most { result ≤ 16 }
{
    count_levels(block)
}

/// TotalCoeff of each AC block of a chroma component, where `some` is false only if they have no levels.
fn chroma_counts(blocks: &[[i32; 15]; 4], some: bool) -> [u8; 4]
    requires none { some ≡ false → (n : ℕ) → total_coeff (slice_index_or blocks.now n []) ≡ 0 }
    ensures value { result ≡ lists.four (λ n. total_coeff (take 15 (slice_index_or blocks.now n []))) }
    ensures small { count.AreSmall result }
{
    if !some {
        return [0; 4];
    }
    [
        ac_count(&blocks[0]),
        ac_count(&blocks[1]),
        ac_count(&blocks[2]),
        ac_count(&blocks[3]),
    ]
}

impl Around {
    /// What stands around a macroblock outside MBAFF, from what the macroblocks to its left and above it count.
    pub fn beside(left: Option<Counts>, above: Option<Counts>) -> Around
        requires left { IfSome left count.AreSmallCounts }
        requires above { IfSome above count.AreSmallCounts }
        ensures value { result ≡ count.around_from left above }
        ensures small { count.IsAround result }
    {
        Around {
            luma: luma_sides(left, above),
            cb: cb_sides(left, above),
            cr: cr_sides(left, above),
        }
    }

    /// What stands around the next macroblock of a slice, where `field` is the flag of its pair, which counts in MBAFF alone.
    pub fn of_next(shape: &SliceShape, rows: &Rows<Counts>, field: bool) -> Around
        requires shape { IsSliceShape shape.now }
        requires mbaff { rows.now.mbaff ≡ shape.now.mbaff }
        requires room { shape.now.first + rows.now.count < shape.now.width * shape.now.height }
        ensures value { (done : List Mb) → AreRows count.counts_of shape.now rows.now done → result ≡ count.around_of shape.now done (length done) field }
        ensures small { count.IsAround result }
    {
        if shape.mbaff {
            around_in_pairs(shape, rows, field)
        } else {
            Around::beside(rows.left(), rows.above())
        }
    }
}

/// The counts of the luma blocks to the left and above.
fn luma_sides(left: Option<Counts>, above: Option<Counts>) -> Sides
    requires left { IfSome left count.AreSmallCounts }
    requires above { IfSome above count.AreSmallCounts }
    ensures value { result ≡ (count.around_from left above).luma }
    ensures small { count.AreSides result }
{
    Sides {
        left: match left {
            Some(counts) => Some(four_of(&counts.luma, [5, 7, 13, 15])),
            None => None,
        },
        above: match above {
            Some(counts) => Some(four_of(&counts.luma, [10, 11, 14, 15])),
            None => None,
        },
    }
}

/// The counts of the Cb blocks to the left and above.
fn cb_sides(left: Option<Counts>, above: Option<Counts>) -> Sides
    requires left { IfSome left count.AreSmallCounts }
    requires above { IfSome above count.AreSmallCounts }
    ensures value { result ≡ (count.around_from left above).cb }
    ensures small { count.AreSides result }
{
    Sides {
        left: match left {
            Some(counts) => Some(four_of(&counts.cb, [1, 3, 1, 3])),
            None => None,
        },
        above: match above {
            Some(counts) => Some(four_of(&counts.cb, [2, 3, 2, 3])),
            None => None,
        },
    }
}

/// The counts of the Cr blocks to the left and above.
fn cr_sides(left: Option<Counts>, above: Option<Counts>) -> Sides
    requires left { IfSome left count.AreSmallCounts }
    requires above { IfSome above count.AreSmallCounts }
    ensures value { result ≡ (count.around_from left above).cr }
    ensures small { count.AreSides result }
{
    Sides {
        left: match left {
            Some(counts) => Some(four_of(&counts.cr, [1, 3, 1, 3])),
            None => None,
        },
        above: match above {
            Some(counts) => Some(four_of(&counts.cr, [2, 3, 2, 3])),
            None => None,
        },
    }
}

/// Four of the counts of a component, 0 past their end.
fn four_of(counts: &[u8], places: [usize; 4]) -> [u8; 4]
    requires small { count.AreSmall counts.now }
    ensures value { result ≡ lists.four (λ k. slice_index_or counts.now (slice_index_or places k 0) 0) }
    ensures small { count.AreSmall result }
{
    [
        count_or_none(counts, places[0]),
        count_or_none(counts, places[1]),
        count_or_none(counts, places[2]),
        count_or_none(counts, places[3]),
    ]
}

fn count_or_none(counts: &[u8], place: usize) -> u8
    requires { count.AreSmall counts.now }
    ensures value { result ≡ slice_index_or counts.now place 0 }
    ensures small { result ≤ 16 }
{
    counts.get(place).copied().unwrap_or(0)
}
