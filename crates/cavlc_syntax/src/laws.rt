//! What the layers above rest on: the text of slice data is that of one list, fills bytes, ends in the stop bit, and
//! doesn't rest on the column of the contexts of CABAC.
ghost use Rattle.std.specs.Prelude.{◌≡◌, ◌⊎◌, ◌+◌, ◌%◌, ◌<◌, ◌≤◌, ◌++◌, ◌∷◌, ℕ, Bool, true, false, List, length, replicate};
ghost use Rattle.cavlc_mb_residual.specs.Counts.{around_of};
ghost use Rattle.h264_types.specs.declared.macroblock.Mb.{Mb};
ghost use Rattle.h264_types.specs.declared.slice_shape.SliceShape.{SliceShape};
ghost use Rattle.h264_types.specs.SliceShape.{IsSliceShape, without_column};
ghost use Rattle.cavlc_syntax.specs.SliceText.{around_next, HasText, slice_text, NoList};

/// No bits are the text of two lists.
pub fn one_list()
    ensures { (shape : SliceShape) (pos : ℕ) (first second : List Mb) → HasText shape first → HasText shape second → slice_text shape pos first ≡ slice_text shape pos second → first ≡ second }
{}

/// Slice data end at a byte boundary.
pub fn text_fills_bytes()
    ensures { (shape : SliceShape) (pos : ℕ) (mbs : List Mb) → (pos + length (slice_text shape pos mbs)) % 8 ≡ 0 }
{}

/// The stop bit stands in the last byte, so that this isn't 0.
pub fn text_ends_in_stop_bit()
    ensures { (shape : SliceShape) (pos : ℕ) (mbs : List Mb) → (front : List Bool) × (zeros : ℕ) × (zeros < 8) × (slice_text shape pos mbs ≡ front ++ true ∷ replicate zeros false) }
{}

/// Shapes that differ in their columns alone have the same lists and texts.
pub fn text_without_column()
    ensures lists { (first second : SliceShape) (mbs : List Mb) → without_column first ≡ without_column second → second.column ≤ 3 → HasText first mbs → HasText second mbs }
    ensures texts { (first second : SliceShape) (pos : ℕ) (mbs : List Mb) → without_column first ≡ without_column second → slice_text first pos mbs ≡ slice_text second pos mbs }
{}

/// Bits are the text of a list, or of none.
pub fn bits_are_decided()
    ensures { (shape : SliceShape) (pos : ℕ) (bits : List Bool) → IsSliceShape shape → ((mbs : List Mb) × HasText shape mbs × (bits ≡ slice_text shape pos mbs)) ⊎ NoList shape pos bits }
{}

/// What stands around a macroblock in the whole list is what the list before it and its pair flag tell.
pub fn the_list_before_tells_counts()
    ensures { (shape : SliceShape) (before : List Mb) (mb : Mb) (behind : List Mb) → 0 < shape.width → around_of shape (before ++ mb ∷ behind) (length before) mb.field ≡ around_next shape mb.field before }
{}
