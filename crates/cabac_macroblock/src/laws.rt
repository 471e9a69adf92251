//! What the layers above rest on, whatever the macroblock.

ghost use Rattle.std.specs.Prelude.{◌≡◌, ℕ, Bool, false, true, List};
ghost use Rattle.cabac_engine.specs.Bins.{Slot};
ghost use Rattle.binarisation.specs.BinString.{IsPrefixFree, HasOneString, Spells};
ghost use Rattle.h264_types.specs.Kind.{is_i_pcm};
ghost use Rattle.h264_types.specs.Valid.{IsMacroblock};
ghost use Rattle.h264_types.specs.declared.macroblock.Mb.{Mb};
ghost use Rattle.h264_types.specs.declared.macroblock.MbKind.TheVariants.{Intra};
ghost use Rattle.h264_types.specs.declared.slice_shape.SliceShape.{SliceShape};
ghost use Rattle.cabac_mb_residual.specs.Levels.{IsResidual};
ghost use Rattle.cabac_macroblock.specs.MacroblockLayer.{macroblock};
ghost use Rattle.cabac_macroblock.specs.MbType.{of_kind};

/// No bins are those of two macroblocks, and none begin the bins of another one.
pub fn no_macroblock_begins_another()
    ensures { (shape : SliceShape) (done : List Mb) (at : ℕ) (field : Bool) → IsPrefixFree (macroblock shape done at field) }
{}

/// A macroblock has one string of bins at most, so that a writer's contract says which bins it puts.
pub fn each_macroblock_has_one_string()
    ensures { (shape : SliceShape) (done : List Mb) (at : ℕ) (field : Bool) → HasOneString (macroblock shape done at field) }
{}

/// What bins spell is a macroblock of the slice that can be written, with the flag of its pair. It isn't P_8x8ref0. An I_PCM
/// macroblock has no element but those, and its samples are to come.
pub fn what_is_spelled_is_valid()
    ensures valid { (shape : SliceShape) (done : List Mb) (at : ℕ) (field : Bool) (bins : List (Slot × Bool)) (mb : Mb) → Spells (macroblock shape done at field) bins mb
        → is_i_pcm mb.kind ≡ false → (field ≡ true → shape.mbaff ≡ true) → IsMacroblock shape mb × IsResidual mb }
    ensures typed { (shape : SliceShape) (done : List Mb) (at : ℕ) (field : Bool) (bins : List (Slot × Bool)) (mb : Mb) → Spells (macroblock shape done at field) bins mb
        → (mb.ref0 ≡ false) × (mb.field ≡ field) }
    ensures pcm { (shape : SliceShape) (done : List Mb) (at : ℕ) (field : Bool) (bins : List (Slot × Bool)) (mb : Mb) → Spells (macroblock shape done at field) bins mb
        → is_i_pcm mb.kind ≡ true → mb ≡ of_kind field (Intra 25) }
{}
