//! One macroblock.
ghost use Rattle.std.specs.Prelude.{◌≡◌, ◌≤◌, true, length, option_map};
ghost use Rattle.bit_texts.specs.Cursor.{cursor};
ghost use Rattle.bit_texts.specs.Readings.{Gives};
ghost use Rattle.bit_texts.specs.Texts.{Appends};
ghost use Rattle.h264_types.specs.SliceShape.{IsSliceShape};
ghost use Rattle.cavlc_mb_residual.specs.Counts.{IsAround};
ghost use Rattle.cavlc_macroblock.specs.Macroblock.{pcm_text, macroblock_text};
ghost use Rattle.cavlc_macroblock.specs.Reading.{pcm_at, IsSent, ReadsMacroblock};

use crate::layer::{read_layer, write_layer};
use crate::mb_type::{read_type, write_type};
use cavlc_mb_residual::Around;
use exp_golomb::{BitSink, BitSource};
use h264_types::{Mb, MbKind, SliceShape};
use pcm_samples::{read_alignment, read_samples, write_alignment, write_samples};
use std::alloc::AllocError as Memory;

/// Reads an I_PCM macroblock with this mb_field_decoding_flag behind its mb_type, into the one that is lent.
#[tactic(auto, unfolding(crate::specs::Reading::pcm_at))]
fn read_pcm<B: BitSource>(bits: &mut B, field: bool, mb: &mut Mb) -> Option<()>
    ensures { Gives (option_map (λ _. mb.new) result) (cursor (length (B.taken bits.new)) (B.left bits.new)) (pcm_at field (cursor (length (B.taken bits.old)) (B.left bits.old))) }
{
    read_alignment(bits)?;
    *mb = Mb::without_elements(MbKind::Intra(25));
    mb.field = field;
    let Some(()) = read_samples(bits, &mut mb.pcm) else {
        return None;
    };
    Some(())
}

/// Reads a macroblock that isn't skipped, its mb_type first, into the one that is lent. `field` is mb_field_decoding_flag of
/// its pair, false outside MBAFF; the bits that are read don't have it. None: no macroblock of this flag has a text, with
/// no level_prefix above `bound`, that begins the bits left; what the macroblock then holds isn't said.
pub fn read_macroblock<B: BitSource>(
    bits: &mut B,
    shape: &SliceShape,
    field: bool,
    around: &Around,
    bound: u8,
    mb: &mut Mb,
) -> Option<()>
    requires is_shape { IsSliceShape shape.now }
    requires pair { field ≡ true → shape.now.mbaff ≡ true }
    requires around { IsAround around.now }
    requires within { bound ≤ 20 }
    ensures { ReadsMacroblock shape.now field around.now bound (cursor (length (B.taken bits.old)) (B.left bits.old)) result mb.new (cursor (length (B.taken bits.new)) (B.left bits.new)) }
{
    let (kind, ref0) = read_type(bits, shape.kind)?;
    if kind.is_i_pcm() {
        return read_pcm(bits, field, mb);
    }
    read_layer(bits, shape, around, bound, kind, ref0, field, mb)
}

/// Appends what stands behind mb_type of I_PCM.
fn write_pcm<B: BitSink>(bits: &mut B, mb: &Mb) -> Result<(), Memory>
    ensures { Appends (B.bits bits.old) (B.bits bits.new) (pcm_text (length (B.bits bits.old)) mb.now) result }
{
    write_alignment(bits)?;
    write_samples(bits, &mb.pcm)
}

/// Appends the text of a macroblock that isn't skipped, without its mb_field_decoding_flag. Where memory runs out a front of
/// the text is written.
pub fn write_macroblock<B: BitSink>(
    bits: &mut B,
    shape: &SliceShape,
    around: &Around,
    mb: &Mb,
) -> Result<(), Memory>
    requires is_shape { IsSliceShape shape.now }
    requires around { IsAround around.now }
    requires sent { IsSent shape.now mb.now.field 20 mb.now }
    ensures { Appends (B.bits bits.old) (B.bits bits.new) (macroblock_text shape.now around.now (length (B.bits bits.old)) mb.now) result }
{
    write_type(bits, shape.kind, mb)?;
    if mb.kind.is_i_pcm() {
        write_pcm(bits, mb)
    } else {
        write_layer(bits, shape, around, mb)
    }
}
