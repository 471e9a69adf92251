//! Laws of the texts and of the macroblocks that have one: each is the contract of a function that does nothing.
ghost use Rattle.std.specs.Prelude.{◌≡◌, ◌↔◌, ◌≤◌, ℕ, Bool, List, IsTrue, slice_index};
ghost use Rattle.bit_texts.specs.Texts.{IsPrefixFree};
ghost use Rattle.h264_types.specs.declared.macroblock.MbKind.{MbKind};
ghost use Rattle.h264_types.specs.declared.macroblock.Mb.{Mb};
ghost use Rattle.h264_types.specs.declared.slice_shape.SliceShape.{SliceShape};
ghost use Rattle.h264_types.specs.Valid.{IsInterPredicted, is_ref0};
ghost use Rattle.h264_types.specs.Sizes.{HasSizes};
ghost use Rattle.cavlc_inter.specs.InterPrediction.{IsInter, inter_text, with_inter, active_refs};

/// No text of a prediction begins that of another one of its type, and none is that of two.
pub fn no_prediction_begins_another()
    ensures { (kind : MbKind) (ref0 : Bool) (active : List ℕ) (old : Mb) → slice_index active 0 ≤ 255 → slice_index active 1 ≤ 255 → IsPrefixFree (λ m. IsInter kind ref0 active m × (m ≡ with_inter old m)) (inter_text kind ref0 active) }
{}

/// The macroblocks whose prediction has a text are those of a valid prediction.
pub fn valid_predictions_have_a_text()
    ensures { (shape : SliceShape) (mb : Mb) → HasSizes mb → (IsTrue mb.ref0 → IsTrue (is_ref0 mb)) → IsInterPredicted shape mb ↔ IsInter mb.kind mb.ref0 (active_refs shape mb) mb }
{}
