//! What the layers above rest on: functions that do nothing, whose clauses are the laws.
ghost use Rattle.std.specs.Prelude.{◌≡◌, ◌↔◌, ◌≤◌, ℕ, Bool, true, false, IsTrue};
ghost use Rattle.bit_texts.specs.Texts.{IsPrefixFree};
ghost use Rattle.h264_types.specs.declared.macroblock.MbKind.TheVariants.{Skip};
ghost use Rattle.h264_types.specs.declared.macroblock.Mb.{Mb};
ghost use Rattle.h264_types.specs.declared.slice_shape.SliceShape.{SliceShape};
ghost use Rattle.h264_types.specs.Kind.{is_skip};
ghost use Rattle.h264_types.specs.Valid.{IsMacroblock, is_kind_in, is_ref0};
ghost use Rattle.h264_types.specs.Sizes.{HasSizes};
ghost use Rattle.h264_types.specs.SliceShape.{IsSliceShape};
ghost use Rattle.cavlc_mb_residual.specs.declared.counts.Around.{Around};
ghost use Rattle.cavlc_mb_residual.specs.MacroblockResidual.{is_beyond_mb};
ghost use Rattle.cavlc_macroblock.specs.Macroblock.{macroblock_text, skipped};
ghost use Rattle.cavlc_macroblock.specs.Reading.{IsSent};

/// With one mb_field_decoding_flag no text of a macroblock begins that of another one, and none is that of two.
pub fn no_macroblock_begins_another()
    ensures { (shape : SliceShape) (field : Bool) (around : Around) (bound pos : ℕ) → IsSliceShape shape → bound ≤ 20 → IsPrefixFree (IsSent shape field bound) (macroblock_text shape around pos) }
{}

/// The macroblocks that have a text are the valid ones that aren't skipped, as far as no level needs a level_prefix above
/// the bound. A skipped one has its pair's mb_field_decoding_flag, and no element.
pub fn valid_macroblocks_have_a_text()
    ensures sent { (shape : SliceShape) (bound : ℕ) (mb : Mb) → is_skip mb.kind ≡ false → is_beyond_mb bound mb ≡ false → IsMacroblock shape mb ↔ IsSent shape mb.field bound mb }
    ensures flag { (shape : SliceShape) (field : Bool) (bound : ℕ) (mb : Mb) → IsSent shape field bound mb → mb.field ≡ field }
    ensures within { (shape : SliceShape) (field : Bool) (bound : ℕ) (mb : Mb) → IsSent shape field bound mb → HasSizes mb × (is_beyond_mb bound mb ≡ false) }
    ensures skipped { (shape : SliceShape) (mb : Mb) → mb.kind ≡ Skip → IsMacroblock shape mb ↔ ((mb ≡ skipped mb.field) × (is_kind_in shape.kind Skip ≡ true) × (mb.field ≡ true → shape.mbaff ≡ true)) }
    ensures no_levels { (field : Bool) (bound : ℕ) → HasSizes (skipped field) × (is_beyond_mb bound (skipped field) ≡ false) }
{}

/// P_8x8ref0 has the reference indices 0.
pub fn ref0_has_no_index()
    ensures { (shape : SliceShape) (field : Bool) (bound : ℕ) (mb : Mb) → IsSent shape field bound mb → mb.ref0 ≡ true → IsTrue (is_ref0 mb) }
{}
