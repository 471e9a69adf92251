//! What the layers above rest on: functions that do nothing, whose clauses are the laws.
ghost use Rattle.std.specs.Prelude.{◌≡◌, ◌↔◌, ◌/◌, ◌<◌, ℕ, true, false, if◌then◌else◌, List, [], All, map, slice_index_or};
ghost use Rattle.std.specs.Int.{bit_at};
ghost use Rattle.h264_types.specs.declared.macroblock.Mb.{Mb};
ghost use Rattle.h264_types.specs.declared.slice_shape.SliceShape.{SliceShape};
ghost use Rattle.h264_types.specs.Macroblock.{quarter_of};
ghost use Rattle.h264_types.specs.Qp.{qp_of};
ghost use Rattle.h264_types.specs.Valid.{IsMacroblock, IsSlice, IsWithin};
ghost use Rattle.pattern_fix.specs.NormalPattern.{IsEmptied, all_zero, is_empty, normal};

/// A macroblock in normal form stays as it is, and is refused where the one before was.
pub fn normal_stays()
    ensures form { (mb : Mb) → normal (normal mb) ≡ normal mb }
    ensures refusal { (mb : Mb) → IsEmptied (normal mb) ↔ IsEmptied mb }
{}

/// The bit of an 8x8 block is 0 where it stood for no level, and else stays; so do the bits above the four. So in normal
/// form an 8x8 block with one transform whose bit is 1 has a level other than 0.
pub fn bits_stand_for_levels()
    ensures block { (mb : Mb) (q : ℕ) → q < 4 → bit_at (normal mb).pattern.luma q ≡ (if is_empty mb q then 0 else bit_at mb.pattern.luma q) }
    ensures level { (mb : Mb) (q : ℕ) → q < 4 → normal mb ≡ mb → mb.t8 ≡ true → bit_at mb.pattern.luma q ≡ 1 → all_zero (quarter_of mb q) ≡ false }
    ensures above { (mb : Mb) → (normal mb).pattern.luma / 16 ≡ mb.pattern.luma / 16 }
{}

/// Nothing but CodedBlockPatternLuma and transform_size_8x8_flag changes: no level, no type, no mb_qp_delta. Without the
/// 8x8 transform nothing does.
pub fn other_elements_stay()
    ensures others { (mb : Mb) → normal mb ≡ record mb { pattern = record mb.pattern { luma = (normal mb).pattern.luma }; t8 = (normal mb).t8 } }
    ensures without_t8 { (mb : Mb) → mb.t8 ≡ false → normal mb ≡ mb }
{}

/// A macroblock of a slice is one in normal form too, where it isn't refused.
pub fn valid_macroblocks_stay_valid()
    ensures { (shape : SliceShape) (mb : Mb) → IsMacroblock shape mb → (IsEmptied mb → ⊥) → IsMacroblock shape (normal mb) }
{}

/// A slice of which no macroblock is refused is one with its macroblocks in normal form too, and QPY is the same.
pub fn slices_stay_valid()
    ensures valid { (shape : SliceShape) (mbs : List Mb) → IsSlice shape mbs → All (λ mb. IsEmptied mb → ⊥) mbs → IsSlice shape (map normal mbs) }
    ensures qp { (slice_qp : ℕ) (mbs : List Mb) (k : ℕ) → qp_of slice_qp (map normal mbs) k ≡ qp_of slice_qp mbs k }
{}

/// A macroblock of a slice that is refused has no level other than 0.
pub fn refused_macroblocks_have_no_levels()
    ensures dc { (shape : SliceShape) (mb : Mb) → IsMacroblock shape mb → IsEmptied mb → IsWithin 0 mb.dc }
    ensures luma { (shape : SliceShape) (mb : Mb) (q : ℕ) → IsMacroblock shape mb → IsEmptied mb → q < 4 → IsWithin 0 (quarter_of mb q) }
    ensures chroma_dc { (shape : SliceShape) (mb : Mb) → IsMacroblock shape mb → IsEmptied mb → All (IsWithin 0) mb.chroma_dc }
    ensures cb_ac { (shape : SliceShape) (mb : Mb) → IsMacroblock shape mb → IsEmptied mb → All (IsWithin 0) (slice_index_or mb.chroma_ac 0 []) }
    ensures cr_ac { (shape : SliceShape) (mb : Mb) → IsMacroblock shape mb → IsEmptied mb → All (IsWithin 0) (slice_index_or mb.chroma_ac 1 []) }
{}
