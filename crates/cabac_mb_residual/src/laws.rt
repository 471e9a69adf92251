//! What the layers above rest on, whatever the macroblock.

ghost use Rattle.std.specs.Prelude.{◌≡◌, ℕ, Bool, true, false, List};
ghost use Rattle.binarisation.specs.BinString.{Spells, IsPrefixFree, HasOneString};
ghost use Rattle.cabac_engine.specs.Bins.{Slot};
ghost use Rattle.h264_types.specs.Kind.{is_i_16x16};
ghost use Rattle.h264_types.specs.Sizes.{HasSizes};
ghost use Rattle.h264_types.specs.Slice.{IsInPicture};
ghost use Rattle.h264_types.specs.declared.macroblock.Mb.{Mb};
ghost use Rattle.h264_types.specs.declared.slice_shape.SliceShape.{SliceShape};
ghost use Rattle.cabac_mb_residual.specs.Levels.{IsResidual, without_levels};
ghost use Rattle.cabac_mb_residual.specs.MacroblockResidual.{residual};

/// No bins are those of the residuals of two macroblocks, and none begin the bins of another one.
pub fn no_residual_begins_another()
    ensures { (shape : SliceShape) (done : List Mb) (at : ℕ) (mb : Mb) → IsPrefixFree (residual shape done at mb) }
{}

/// A residual has one string of bins at most, so that a writer's contract says which bins it puts.
pub fn each_residual_has_one_string()
    ensures { (shape : SliceShape) (done : List Mb) (at : ℕ) (mb : Mb) → HasOneString (residual shape done at (without_levels mb)) }
{}

/// What bins spell is a residual that may be written, in a macroblock that is the same but for its levels. I_16x16 has no 8x8
/// transform.
pub fn what_is_spelled_is_a_residual()
    ensures { (shape : SliceShape) (done : List Mb) (at : ℕ) (mb : Mb) (bins : List (Slot × Bool)) (m : Mb) → HasSizes mb → (mb.t8 ≡ true → is_i_16x16 mb.kind ≡ false) → Spells (residual shape done at (without_levels mb)) bins m → IsResidual m × HasSizes m × (without_levels m ≡ without_levels mb) }
{}

/// A residual that may be written has bins.
pub fn each_residual_has_bins()
    ensures { (shape : SliceShape) (done : List Mb) (at : ℕ) (mb : Mb) → IsInPicture shape at → HasSizes mb → IsResidual mb → (bins : List (Slot × Bool)) × Spells (residual shape done at (without_levels mb)) bins mb }
{}
