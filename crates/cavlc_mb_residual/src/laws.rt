//! What the layers above rest on: functions that do nothing, whose clauses are the laws.
ghost use Rattle.std.specs.Prelude.{◌≡◌, ◌↔◌, ◌<◌, ◌≤◌, ℕ, Bool, true, false, List, Some, ◌++◌, length, take, slice_get};
ghost use Rattle.bit_texts.specs.Texts.{IsPrefixFree};
ghost use Rattle.h264_types.specs.Kind.{is_i_16x16};
ghost use Rattle.h264_types.specs.Macroblock.{pattern_of};
ghost use Rattle.h264_types.specs.Slice.{field_at, left_number, above_number};
ghost use Rattle.h264_types.specs.Valid.{IsLumaCoded, IsChromaCoded};
ghost use Rattle.h264_types.specs.declared.macroblock.Mb.{Mb};
ghost use Rattle.h264_types.specs.declared.macroblock.Pattern.{Pattern};
ghost use Rattle.h264_types.specs.declared.slice_shape.SliceShape.{SliceShape};
ghost use Rattle.mb_neighbours.specs.declared.place.At.TheVariants.{Luma4, Chroma4};
ghost use Rattle.cavlc_mb_residual.specs.declared.counts.Around.{Around};
ghost use Rattle.cavlc_mb_residual.specs.Counts.{around_of, around_from, counts_at, counts_of, luma_nC, chroma_nC, nC};
ghost use Rattle.h264_types.specs.Sizes.{HasSizes};
ghost use Rattle.cavlc_mb_residual.specs.MacroblockResidual.{IsResidual, residual_text, with_residual, is_beyond_mb};

/// No text of a residual begins that of another one behind the same elements, and none is that of two.
pub fn no_residual_begins_another()
    ensures { (around : Around) (is_16x16 : Bool) (pattern : Pattern) (bound : ℕ) (old : Mb) → bound ≤ 20 → IsPrefixFree (λ m. IsResidual is_16x16 pattern bound m × (m ≡ with_residual old m)) (residual_text around is_16x16 pattern) }
{}

/// nC in a list of macroblocks is that of what stands around the macroblock and of its own blocks before.
pub fn counts_around_are_enough()
    ensures luma { (shape : SliceShape) (ms : List Mb) (at : ℕ) (mb : Mb) (n : ℕ) → slice_get ms at ≡ Some mb → n < 16 → luma_nC shape ms at n ≡ nC (around_of shape ms at (field_at ms at)).luma (take n (counts_of mb).luma) (Luma4 n) }
    ensures cb { (shape : SliceShape) (ms : List Mb) (at : ℕ) (mb : Mb) (n : ℕ) → slice_get ms at ≡ Some mb → n < 4 → chroma_nC shape ms at 0 n ≡ nC (around_of shape ms at (field_at ms at)).cb (take n (counts_of mb).cb) (Chroma4 n) }
    ensures cr { (shape : SliceShape) (ms : List Mb) (at : ℕ) (mb : Mb) (n : ℕ) → slice_get ms at ≡ Some mb → n < 4 → chroma_nC shape ms at 1 n ≡ nC (around_of shape ms at (field_at ms at)).cr (take n (counts_of mb).cr) (Chroma4 n) }
{}

/// Outside MBAFF what stands around a macroblock is what those to its left and above it count.
pub fn counts_beside_are_around()
    ensures { (shape : SliceShape) (ms : List Mb) (at : ℕ) (field : Bool) → shape.mbaff ≡ false → 0 < shape.width → at ≤ length ms → around_of shape ms at field ≡ around_from (counts_at ms (left_number shape.width shape.first at)) (counts_at ms (above_number shape.width at)) }
{}

/// What stands around a macroblock in the whole list is what the list before it tells, and its own pair flag.
pub fn the_list_before_tells_counts()
    ensures { (shape : SliceShape) (before rest : List Mb) (field : Bool) → 0 < shape.width → around_of shape (before ++ rest) (length before) field ≡ around_of shape before (length before) field }
{}

/// The macroblocks whose residual has a text are those of a valid residual, as far as no level needs a level_prefix above
/// the bound. I_16x16 has no 8x8 transform.
pub fn valid_residuals_have_a_text()
    ensures text { (bound : ℕ) (mb : Mb) → HasSizes mb → (mb.t8 ≡ true → is_i_16x16 mb.kind ≡ false) → is_beyond_mb bound mb ≡ false → (IsLumaCoded mb × IsChromaCoded mb) ↔ IsResidual (is_i_16x16 mb.kind) (pattern_of mb) bound mb }
    ensures within { (is_16x16 : Bool) (pattern : Pattern) (bound : ℕ) (mb : Mb) → IsResidual is_16x16 pattern bound mb → HasSizes mb × (is_beyond_mb bound mb ≡ false) }
{}
