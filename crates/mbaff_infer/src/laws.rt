//! What the layers above rest on.
ghost use Rattle.std.specs.Prelude.{◌≡◌, ◌<◌, ◌≤◌, ◌*◌, ◌++◌, ℕ, List, length};
ghost use Rattle.h264_types.specs.Slice.{inferred_field};
ghost use Rattle.h264_types.specs.declared.macroblock.Mb.{Mb};
ghost use Rattle.h264_types.specs.declared.slice_shape.SliceShape.{SliceShape};

/// The flag that is inferred on a list that has the pairs before is that on each of its continuations.
pub fn the_pairs_before_are_enough()
    ensures { (shape : SliceShape) (done rest : List Mb) (pair : ℕ) → 0 < shape.width → 2 * pair ≤ length done → inferred_field shape (done ++ rest) pair ≡ inferred_field shape done pair }
{}
