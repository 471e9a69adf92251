//! mb_field_decoding_flag, or the pair flag that stands for it (ITU-T H.264, 7.3.4, 7.4.4).
ghost use Rattle.std.specs.Prelude.{◌≡◌, ◌+◌, ◌*◌, ◌<◌, true, List, IfSome};
ghost use Rattle.bit_texts.specs.Readings.{Gives};
ghost use Rattle.bit_texts.specs.Texts.{Appends};
ghost use Rattle.cavlc_mb_residual.specs.Counts.{counts_of};
ghost use Rattle.h264_types.specs.LastRows.{AreRows};
ghost use Rattle.h264_types.specs.SliceShape.{IsSliceShape};
ghost use Rattle.h264_types.specs.declared.macroblock.Mb.{Mb};
ghost use Rattle.cavlc_syntax.specs.Reading.{next_field};
ghost use Rattle.cavlc_syntax.specs.SliceText as slices;
ghost use Rattle.cavlc_syntax.specs.Places.{place_in};

use cavlc_mb_residual::Counts;
use exp_golomb::{BitSink, BitSource, read_flag};
use h264_types::{Rows, SliceShape};
use mbaff_infer::inferred_flag;
use std::alloc::AllocError as Memory;

/// Whether number k of a slice is the bottom of a pair.
pub fn is_bottom(shape: &SliceShape, k: u32) -> bool
    ensures { result ≡ slices.is_bottom shape.now k }
{
    shape.mbaff && k % 2 == 1
}

/// The pair flag of the next macroblock, where `last` is that of the last one, and `skips` tells how many macroblocks of the
/// mb_skip_run that was read follow it; 0 before one that isn't skipped. None: no mb_field_decoding_flag stands here.
pub fn read_field<B: BitSource>(
    bits: &mut B,
    shape: &SliceShape,
    done: &Rows<Counts>,
    last: bool,
    skips: u32,
) -> Option<bool>
    requires shape { IsSliceShape shape.now }
    requires mbaff { done.now.mbaff ≡ shape.now.mbaff }
    requires room { shape.now.first + done.now.count < shape.now.width * shape.now.height }
    ensures reads { (mbs : List Mb) → AreRows counts_of shape.now done.now mbs → last ≡ slices.last_field mbs → Gives result (place_in B.taken B.left bits.new) (next_field shape.now mbs skips (place_in B.taken B.left bits.old)) }
    ensures pair { IfSome result (λ field. field ≡ true → shape.now.mbaff ≡ true) }
{
    if is_bottom(shape, done.count()) {
        return Some(last);
    }
    if !shape.mbaff {
        return Some(false);
    }
    if skips == 0 {
        return read_flag(bits);
    }
    Some(inferred_flag(shape, done, done.count() / 2))
}

/// Appends mb_field_decoding_flag, where it is sent.
pub fn write_field<B: BitSink>(bits: &mut B, sends_field: bool, field: bool) -> Result<(), Memory>
    ensures { Appends (B.bits bits.old) (B.bits bits.new) (slices.field_text sends_field field) result }
{
    if sends_field {
        return bits.put(field);
    }
    Ok(())
}
