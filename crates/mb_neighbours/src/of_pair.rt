//! The pair flags of the macroblocks that are kept (7.4.4).
ghost use Rattle.h264_types.specs.declared.macroblock.Mb.{Mb};

use h264_types::{Mb, OfMb, Rows};

/// What is kept of a macroblock, its mb_field_decoding_flag among it.
pub trait OfPair: OfMb {
    ghost use Rattle.std.specs.Prelude.{◌≡◌};

    fn is_field(&self) -> bool
        ensures { (mb : Mb) → self.now ≡ Self.of mb → result ≡ mb.field };
}

impl OfPair for Mb {
    fn is_field(&self) -> bool {
        self.field
    }
}

ghost use Rattle.std.specs.Prelude.{◌≡◌, List};
ghost use Rattle.h264_types.specs.LastRows.{AreRows, IsRecent};
ghost use Rattle.h264_types.specs.Slice.{field_at};
ghost use Rattle.h264_types.specs.declared.slice_shape.SliceShape.{SliceShape};

/// mb_field_decoding_flag of a macroblock of the last two rows.
pub fn is_field_at<K: OfPair>(done: &Rows<K>, number: u32) -> bool
    ensures { (shape : SliceShape) (mbs : List Mb) → AreRows K.of shape done.now mbs → IsRecent done.now number → result ≡ field_at mbs number }
{
    match done.get(number) {
        Some(kept) => kept.is_field(),
        None => false,
    }
}
