//! Macroblocks as their syntax elements. Contracts see an `Mb` by its fields, and its 4x4 luma blocks by number through
//! `luma_block`: a call that puts one says what is in that block, that the others stay, and that the rest does, and
//! none compares lists of lists. No body has a literal of `Mb`: it starts from [`Mb::without_elements`] and puts fields.
ghost use Rattle.h264_types.specs.Macroblock.{with_block};
ghost use Rattle.std.specs.Prelude.{◌≢◌, ◌≡◌, ℕ, ◌<◌, length};

use arrayvec::ArrayVec;

/// mb_type: a skipped macroblock, or the macroblock's number in the table of its prediction (7.4.5).
#[derive(Clone, Copy, Debug, PartialEq, Eq)]
pub enum MbKind {
    /// P_Skip or B_Skip: nothing is sent but that it is skipped.
    Skip,
    /// Table 7-11, 0 to 25: I_NxN, I_16x16 from 1 to 24, I_PCM. In P and B slices mb_type is 5 and 23 higher.
    Intra(u8),
    /// Table 7-13, 0 to 3; P_8x8ref0 is number 3 with `ref0`.
    P(u8),
    /// Table 7-14, 0 to 22.
    B(u8),
}

impl MbKind {
    ghost use Rattle.h264_types.specs.Kind as kind;

    /// Whether the macroblock is predicted from its own picture, I_PCM included.
    pub fn is_intra(self) -> bool
        ensures { result ≡ kind.is_intra self }
    {
        matches!(self, MbKind::Intra(_))
    }

    /// I_NxN: 4x4 or 8x8 prediction, as transform_size_8x8_flag says.
    pub fn is_i_nxn(self) -> bool
        ensures { result ≡ kind.is_i_nxn self }
    {
        matches!(self, MbKind::Intra(0))
    }

    /// I_16x16, whose type names its prediction mode and its pattern.
    pub fn is_i_16x16(self) -> bool
        ensures { result ≡ kind.is_i_16x16 self }
    {
        matches!(self, MbKind::Intra(1..=24))
    }

    /// I_PCM: samples in place of levels.
    pub fn is_i_pcm(self) -> bool
        ensures { result ≡ kind.is_i_pcm self }
    {
        matches!(self, MbKind::Intra(25))
    }

    /// P_Skip or B_Skip.
    pub fn is_skip(self) -> bool
        ensures { result ≡ kind.is_skip self }
    {
        matches!(self, MbKind::Skip)
    }

    /// Whether the macroblock is predicted from other pictures, skipped ones included.
    pub fn is_inter(self) -> bool
        ensures { result ≡ kind.is_inter self }
    {
        !self.is_intra()
    }

    /// P_8x8, P_8x8ref0 and B_8x8: four sub_mb_type are sent (7.3.5.2).
    pub fn has_sub_macroblocks(self) -> bool
        ensures { result ≡ kind.has_sub_macroblocks self }
    {
        matches!(self, MbKind::P(3) | MbKind::B(22))
    }
}

/// coded_block_pattern (7.4.5).
#[derive(Clone, Copy, Debug, PartialEq, Eq)]
pub struct Pattern {
    /// CodedBlockPatternLuma, 0 to 15: bit q stands for the 8x8 luma block q.
    pub luma: u8,
    /// CodedBlockPatternChroma: 0 for no chroma levels, 1 for DC ones alone, 2 for DC and AC ones.
    pub chroma: u8,
}

/// The transform coefficient levels of one residual block, lowest frequency first: 4, 15, 16 or 64.
pub type Levels = ArrayVec<i32, 64>;

/// A macroblock as its syntax elements (7.3.5, 7.4.5). Those that the syntax doesn't send hold 0 or false.
///
/// Quarters are the 8x8 luma blocks, and blocks the 4x4 ones, by their numbers of 6.4.5 and 6.4.3: four blocks to a
/// quarter.
#[derive(Clone, Copy, Debug, PartialEq, Eq)]
pub struct Mb {
    /// mb_type, or skipped.
    pub kind: MbKind,
    /// Whether mb_type was P_8x8ref0, which sends no reference index. All indices are 0 then.
    pub ref0: bool,
    /// mb_field_decoding_flag of the pair, sent or inferred (7.4.4); false outside MBAFF.
    pub field: bool,
    /// transform_size_8x8_flag.
    pub t8: bool,
    /// Of I_NxN the prediction mode of each block, with `t8` of each quarter at places 0 to 3: 8 where
    /// prev_intra4x4_pred_mode_flag or prev_intra8x8_pred_mode_flag is 1, else rem_intra4x4_pred_mode or
    /// rem_intra8x8_pred_mode, 0 to 7.
    pub modes: [u8; 16],
    /// intra_chroma_pred_mode, 0 to 3.
    pub chroma_mode: u8,
    /// sub_mb_type of each quarter: 0 to 3 in P (Table 7-17), 0 to 12 in B (Table 7-18).
    pub subs: [u8; 4],
    /// ref_idx_l0 and ref_idx_l1 for each quarter, alike in the quarters of one partition.
    pub refs: [[u8; 4]; 2],
    /// mvd_l0 and mvd_l1 for each block, x then y in quarter samples, -32767 to 32767, alike in the blocks of one
    /// partition or sub-macroblock partition.
    pub mvd: [[[i32; 2]; 16]; 2],
    /// coded_block_pattern as sent; 0 in I_16x16, whose type names it.
    pub pattern: Pattern,
    /// mb_qp_delta, -26 to 25.
    pub qp_delta: i8,
    /// The levels of Intra16x16DCLevel. All levels are from -65535 to 65535.
    pub dc: [i32; 16],
    /// Each quarter's levels: with `t8` 64 in scan order, else 16 a block, one block after the other. In I_16x16 a
    /// block has the 15 of Intra16x16ACLevel, and its last place is 0.
    pub luma: [[i32; 64]; 4],
    /// ChromaDCLevel of Cb and Cr.
    pub chroma_dc: [[i32; 4]; 2],
    /// ChromaACLevel of Cb and Cr, 15 a block.
    pub chroma_ac: [[[i32; 15]; 4]; 2],
    /// The samples of I_PCM: 256 of luma (pcm_sample_luma), then 64 of Cb and 64 of Cr (pcm_sample_chroma).
    pub pcm: [u8; 384],
}

// The value that all absent elements have.
static NO_ELEMENTS: Mb = Mb {
    kind: MbKind::Skip,
    ref0: false,
    field: false,
    t8: false,
    modes: [0; 16],
    chroma_mode: 0,
    subs: [0; 4],
    refs: [[0; 4]; 2],
    mvd: [[[0; 2]; 16]; 2],
    pattern: Pattern { luma: 0, chroma: 0 },
    qp_delta: 0,
    dc: [0; 16],
    luma: [[0; 64]; 4],
    chroma_dc: [[0; 4]; 2],
    chroma_ac: [[[0; 15]; 4]; 2],
    pcm: [0; 384],
};

impl Mb {
    ghost use Rattle.h264_types.specs.Macroblock.{no_elements, luma_block, pattern_of};

    /// A macroblock of this kind whose elements are all absent.
    pub fn without_elements(kind: MbKind) -> Mb
        ensures { result ≡ no_elements kind }
    {
        let none = &NO_ELEMENTS;
        let mut mb = *none;
        mb.kind = kind;
        mb
    }

    /// The 16 places of 4x4 luma block n, lowest frequency first.
    pub fn block(&self, n: u8) -> &[i32]
        requires { n < 16 }
        ensures value { result.now ≡ luma_block self.now n }
        ensures length { length result.now ≡ 16 }
    {
        let start = 16 * (n % 4) as usize;
        &self.luma[(n / 4) as usize][start..start + 16]
    }

    /// Puts the 16 places of 4x4 luma block n; all else stays.
    pub fn set_block(&mut self, n: u8, levels: &[i32])
        requires n { n < 16 }
        requires levels { length levels.now ≡ 16 }
        ensures block { luma_block self.new n ≡ levels.now }
        ensures others { (m : ℕ) → m < 16 → m ≢ n → luma_block self.new m ≡ luma_block self.old m }
        ensures rest { self.new ≡ record self.old { luma = self.new.luma } }
    {
        put_block(&mut self.luma[(n / 4) as usize], n % 4, levels);
    }

    /// coded_block_pattern, for I_16x16 the one that the type names (Table 7-11).
    pub fn coded_pattern(&self) -> Pattern
        ensures { result ≡ pattern_of self.now }
    {
        match self.kind {
            MbKind::Intra(number @ 1..=24) => Pattern {
                luma: if number >= 13 { 15 } else { 0 },
                chroma: (number - 1) / 4 % 3,
            },
            _ => self.pattern,
        }
    }
}

/// Puts block k of a quarter.
fn put_block(quarter: &mut [i32; 64], k: u8, levels: &[i32])
    requires k { k < 4 }
    requires levels { length levels.now ≡ 16 }
    ensures value { quarter.new ≡ with_block quarter.old k levels.now }
    ensures size { length quarter.old ≡ 64 }
{
    let start = 16 * k as usize;
    quarter[start..start + 16].copy_from_slice(levels);
}
