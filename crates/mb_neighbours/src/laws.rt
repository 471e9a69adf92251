//! What the layers above rest on: neighbours are found among what stands before, and by it alone.
ghost use Rattle.std.specs.Prelude.{◌≡◌, ℕ, ◌<◌, Bool, Some, List, ◌++◌};
ghost use Rattle.h264_types.specs.declared.macroblock.Mb.{Mb};
ghost use Rattle.h264_types.specs.declared.slice_shape.SliceShape.{SliceShape};
ghost use Rattle.h264_types.specs.LastRows.{LastRows, StandsAt, IsAtHand};
ghost use Rattle.h264_types.specs.Slice.{earlier};
ghost use Rattle.mb_neighbours.specs.declared.place.At.{At};
ghost use Rattle.mb_neighbours.specs.declared.place.Spot.{Spot};
ghost use Rattle.mb_neighbours.specs.Place.{IsPlace};
ghost use Rattle.mb_neighbours.specs.Near.{HasPairsBefore, IsBefore, above_of, left_of};

/// The answer on a list that has the pairs before is the answer on each of its continuations.
pub fn the_list_before_is_enough()
    ensures left { (shape : SliceShape) (done rest : List Mb) (at : ℕ) (field : Bool) (place : At) → HasPairsBefore shape done at → left_of shape (done ++ rest) at field place ≡ left_of shape done at field place }
    ensures above { (shape : SliceShape) (done rest : List Mb) (at : ℕ) (field : Bool) (place : At) → 0 < shape.width → HasPairsBefore shape done at → above_of shape (done ++ rest) at field place ≡ above_of shape done at field place }
{}

/// A neighbour is in an earlier macroblock, or an earlier block of the same one.
pub fn neighbours_are_before()
    ensures left { (shape : SliceShape) (mbs : List Mb) (at : ℕ) (field : Bool) (place : At) (found : Spot) → IsPlace place → left_of shape mbs at field place ≡ Some found → IsBefore found at place }
    ensures above { (shape : SliceShape) (mbs : List Mb) (at : ℕ) (field : Bool) (place : At) (found : Spot) → 0 < shape.width → IsPlace place → above_of shape mbs at field place ≡ Some found → IsBefore found at place }
{}

/// The macroblock before `at` and those that have the neighbours of a place of it are `at` itself, in MBAFF of its pair,
/// or held.
pub fn neighbours_are_held<K>()
    ensures before { (of : Mb → K) (shape : SliceShape) (rows : LastRows K) (mbs : List Mb) (at number : ℕ) → StandsAt of shape rows mbs at → earlier at 1 ≡ Some number → IsAtHand shape rows at number }
    ensures left { (of : Mb → K) (shape : SliceShape) (rows : LastRows K) (mbs : List Mb) (at : ℕ) (field : Bool) (place : At) (found : Spot) → StandsAt of shape rows mbs at → left_of shape mbs at field place ≡ Some found → IsAtHand shape rows at found.mb }
    ensures above { (of : Mb → K) (shape : SliceShape) (rows : LastRows K) (mbs : List Mb) (at : ℕ) (field : Bool) (place : At) (found : Spot) → StandsAt of shape rows mbs at → above_of shape mbs at field place ≡ Some found → IsAtHand shape rows at found.mb }
{}
