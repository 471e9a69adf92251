//! What the layers above rest on, whatever the macroblock.
ghost use Rattle.std.specs.Prelude.{◌≡◌, ℕ, Bool, List};
ghost use Rattle.cabac_engine.specs.Bins.{Slot};
ghost use Rattle.binarisation.specs.BinString.{IsPrefixFree, HasOneString, Spells};
ghost use Rattle.h264_types.specs.Sizes.{HasSizes};
ghost use Rattle.h264_types.specs.Slice.{IsInPicture};
ghost use Rattle.h264_types.specs.SliceShape.{IsSliceShape};
ghost use Rattle.h264_types.specs.Valid.{IsInterPredicted};
ghost use Rattle.h264_types.specs.declared.macroblock.Mb.{Mb};
ghost use Rattle.h264_types.specs.declared.slice_shape.SliceShape.{SliceShape};
ghost use Rattle.cabac_inter.specs.InterPrediction.{inter_prediction};
ghost use Rattle.cabac_inter.specs.Stages.{typed, predicted};

/// No bins are those of two predictions, and none begin the bins of another one.
pub fn no_prediction_begins_another()
    ensures { (shape : SliceShape) (done : List Mb) (at : ℕ) (mb : Mb) → IsPrefixFree (inter_prediction shape done at mb) }
{}

/// A prediction has one string of bins at most, so that a writer's contract says which bins it puts.
pub fn each_prediction_has_one_string()
    ensures { (shape : SliceShape) (done : List Mb) (at : ℕ) (mb : Mb) → HasSizes mb → HasOneString (inter_prediction shape done at mb) }
{}

/// What bins spell is the macroblock with a valid prediction.
pub fn what_is_spelled_is_valid()
    ensures valid { (shape : SliceShape) (done : List Mb) (at : ℕ) (mb made : Mb) (bins : List (Slot × Bool)) → HasSizes mb → Spells (inter_prediction shape done at mb) bins made → IsInterPredicted shape made }
    ensures sizes { (shape : SliceShape) (done : List Mb) (at : ℕ) (mb made : Mb) (bins : List (Slot × Bool)) → HasSizes mb → Spells (inter_prediction shape done at mb) bins made → HasSizes made }
    ensures others { (shape : SliceShape) (done : List Mb) (at : ℕ) (mb made : Mb) (bins : List (Slot × Bool)) → HasSizes mb → Spells (inter_prediction shape done at mb) bins made → made ≡ record mb { subs = made.subs; refs = made.refs; mvd = made.mvd } }
    // the macroblock that a reader begins with
    ensures typed { (mb : Mb) → HasSizes (typed mb) }
{}

/// The prediction of a macroblock of a slice has bins.
pub fn each_prediction_has_bins()
    ensures { (shape : SliceShape) (done : List Mb) (at : ℕ) (mb : Mb) → IsInPicture shape at → IsSliceShape shape → HasSizes mb → IsInterPredicted shape mb
        → (bins : List (Slot × Bool)) × Spells (inter_prediction shape done at (typed mb)) bins (predicted mb) }
{}
