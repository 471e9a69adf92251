//! Which elements a macroblock sends (7.3.5, 7.3.5.1), by its type and the elements before them.
ghost use Rattle.std.specs.Prelude.{◌≡◌, ◌==◌, ◌&&◌, ◌||◌, not, nat_lt};
ghost use Rattle.std.specs.List.{list_all};
ghost use Rattle.h264_types.specs.Sent as sent;

use crate::macroblock::{Mb, MbKind, Pattern};
use crate::slice_shape::SliceShape;

/// Whether no sub-macroblock of a P macroblock is split.
fn are_whole(subs: &[u8]) -> bool
    ensures { result ≡ list_all (λ sub. sub == 0) subs.now }
{
    subs.iter().all(|sub| *sub == 0)
}

fn take_t8_in_b(direct8: bool, subs: &[u8]) -> bool
    ensures { result ≡ list_all (λ sub. nat_lt sub 4 && (direct8 || not (sub == 0))) subs.now }
{
    subs.iter().all(|sub| *sub < 4 && (direct8 || *sub != 0))
}

/// Whether no part of a P or B macroblock is smaller than 8x8, where direct ones are as direct_8x8_inference_flag says.
fn takes_t8(direct8: bool, kind: MbKind, subs: &[u8]) -> bool
    ensures { result ≡ sent.takes_t8 direct8 kind subs.now }
{
    match kind {
        MbKind::P(_) => are_whole(subs),
        MbKind::B(0) => direct8,
        MbKind::B(22) => take_t8_in_b(direct8, subs),
        MbKind::B(_) => true,
        MbKind::Skip | MbKind::Intra(_) => false,
    }
}

impl SliceShape {
    /// Whether transform_size_8x8_flag stands before the prediction of a macroblock of this type (7.3.5): of I_NxN.
    pub fn sends_t8_first(&self, kind: MbKind) -> bool
        ensures { result ≡ sent.sends_t8_first self.now kind }
    {
        self.t8_mode && kind.is_i_nxn()
    }

    /// Whether transform_size_8x8_flag stands behind the coded_block_pattern of a macroblock (7.3.5): of a P or B
    /// macroblock with luma levels and no part below 8x8, where direct ones are as direct_8x8_inference_flag says.
    pub fn sends_t8_last(&self, mb: &Mb) -> bool
        ensures { result ≡ sent.sends_t8_last self.now mb.now.kind mb.now.subs mb.now.pattern }
    {
        self.t8_mode && (mb.pattern.luma != 0 && takes_t8(self.direct8, mb.kind, &mb.subs))
    }
}

/// How many prediction modes I_NxN sends (7.3.5.1): one for each 8x8 block with transform_size_8x8_flag, else one for each
/// 4x4 block.
pub fn mode_count(t8: bool) -> usize
    ensures { result ≡ sent.mode_count t8 }
{
    if t8 { 4 } else { 16 }
}

impl MbKind {
    /// Whether coded_block_pattern is sent (7.3.5): neither in skipped nor in I_16x16 and I_PCM macroblocks.
    pub fn sends_pattern(self) -> bool
        ensures { result ≡ sent.sends_pattern self }
    {
        match self {
            MbKind::Intra(number) => number == 0,
            MbKind::P(_) | MbKind::B(_) => true,
            MbKind::Skip => false,
        }
    }

    /// Whether mb_qp_delta and the residual are sent with this coded_block_pattern (7.3.5): in I_16x16, and where it isn't 0.
    pub fn sends_qp_delta(self, pattern: Pattern) -> bool
        ensures { result ≡ sent.sends_qp_delta self pattern }
    {
        self.is_i_16x16() || !(pattern.luma == 0 && pattern.chroma == 0)
    }
}
