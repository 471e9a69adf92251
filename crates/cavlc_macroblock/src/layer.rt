//! A macroblock behind its mb_type, of every type but I_PCM (ITU-T H.264, 7.3.5).
ghost use Rattle.std.specs.Prelude.{◌≡◌, ◌≤◌, ◌++◌, option_map};
ghost use Rattle.bit_texts.specs.Texts.{Reads, Appends};
ghost use Rattle.h264_types.specs.SliceShape.{IsSliceShape};
ghost use Rattle.cavlc_inter.specs.InterPrediction as inter;
ghost use Rattle.cavlc_mb_residual.specs.Counts.{IsAround};
ghost use Rattle.cavlc_macroblock.specs.MacroblockLayer as layer;

use crate::coding::{read_coding, write_coding};
use crate::prediction::{read_intra, write_intra};
use cavlc_inter::{read_inter, write_inter};
use cavlc_mb_residual::Around;
use exp_golomb::{BitSink, BitSource};
use h264_types::{Mb, MbKind, SliceShape};
use std::alloc::AllocError as Memory;

/// The active references of each list: a field macroblock of an MBAFF frame has twice as many (7.4.5.1).
fn active_refs(shape: &SliceShape, mb: &Mb) -> [u8; 2]
    requires { IsSliceShape shape.now }
    ensures { result ≡ inter.active_refs shape.now mb.now }
{
    let times = if shape.mbaff && mb.field { 2 } else { 1 };
    [shape.refs[0] * times, shape.refs[1] * times]
}

/// Reads the prediction of a macroblock of this type and mb_field_decoding_flag, and fills the macroblock that is lent with
/// it.
fn read_prediction<B: BitSource>(
    bits: &mut B,
    shape: &SliceShape,
    kind: MbKind,
    ref0: bool,
    field: bool,
    mb: &mut Mb,
) -> Option<()>
    requires { IsSliceShape shape.now }
    ensures reads { Reads (layer.IsPrediction shape.now kind ref0 field) (layer.prediction_text shape.now kind ref0) (B.left bits.old) (option_map (λ _. mb.new) result) (B.left bits.new) }
    ensures kept { B.taken bits.new ++ B.left bits.new ≡ B.taken bits.old ++ B.left bits.old }
{
    *mb = Mb::without_elements(kind);
    mb.ref0 = ref0;
    mb.field = field;
    if kind.is_intra() {
        read_intra(bits, shape, kind, mb)
    } else {
        let active = active_refs(shape, mb);
        read_inter(bits, kind, ref0, active, mb)
    }
}

/// Reads a macroblock of this type and mb_field_decoding_flag behind its mb_type, and fills the macroblock that is lent
/// with it. None exactly where no macroblock of this type in range has a text, with no level_prefix above `bound`, that
/// begins the bits left; what the macroblock then holds isn't said.
pub fn read_layer<B: BitSource>(
    bits: &mut B,
    shape: &SliceShape,
    around: &Around,
    bound: u8,
    kind: MbKind,
    ref0: bool,
    field: bool,
    mb: &mut Mb,
) -> Option<()>
    requires is_shape { IsSliceShape shape.now }
    requires around { IsAround around.now }
    requires within { bound ≤ 20 }
    ensures reads { Reads (layer.IsLayer shape.now kind ref0 field bound) (layer.layer_text shape.now around.now kind ref0) (B.left bits.old) (option_map (λ _. mb.new) result) (B.left bits.new) }
    ensures kept { B.taken bits.new ++ B.left bits.new ≡ B.taken bits.old ++ B.left bits.old }
{
    read_prediction(bits, shape, kind, ref0, field, mb)?;
    read_coding(bits, shape, around, bound, mb)
}

/// Appends the prediction of a macroblock.
fn write_prediction<B: BitSink>(bits: &mut B, shape: &SliceShape, mb: &Mb) -> Result<(), Memory>
    requires is_shape { IsSliceShape shape.now }
    requires layer { layer.IsLayer shape.now mb.now.kind mb.now.ref0 mb.now.field 20 mb.now }
    ensures { Appends (B.bits bits.old) (B.bits bits.new) (layer.prediction_text shape.now mb.now.kind mb.now.ref0 mb.now) result }
{
    if mb.kind.is_intra() {
        write_intra(bits, shape, mb)
    } else {
        write_inter(bits, active_refs(shape, mb), mb)
    }
}

/// Appends the text of a macroblock behind its mb_type, as `read_layer` reads it. Where memory runs out a front of the
/// text is written. Whether a level needs a level_prefix above a lower bound than 20 is what `is_beyond` tells before.
pub fn write_layer<B: BitSink>(
    bits: &mut B,
    shape: &SliceShape,
    around: &Around,
    mb: &Mb,
) -> Result<(), Memory>
    requires is_shape { IsSliceShape shape.now }
    requires around { IsAround around.now }
    requires layer { layer.IsLayer shape.now mb.now.kind mb.now.ref0 mb.now.field 20 mb.now }
    ensures { Appends (B.bits bits.old) (B.bits bits.new) (layer.layer_text shape.now around.now mb.now.kind mb.now.ref0 mb.now) result }
{
    write_prediction(bits, shape, mb)?;
    write_coding(bits, shape, around, mb)
}
