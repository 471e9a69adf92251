//! What the layers above rest on, whatever the block.

ghost use Rattle.std.specs.Prelude.{◌≡◌, ℕ, ℤ, pos, Bool, List, length, replicate};
ghost use Rattle.binarisation.specs.BinString.{IsPrefixFree, HasOneString, Spells};
ghost use Rattle.cabac_engine.specs.Bins.{Slot};
ghost use Rattle.cabac_residual.specs.Block.{block, AreLevels};

/// No bins are those of two blocks, and none begin the bins of another block.
pub fn no_block_begins_another()
    ensures { (cat : ℕ) (field : Bool) (inc max : ℕ) → IsPrefixFree (block cat field inc max) }
{}

/// A block has one string of bins at most, so that a writer's contract says which bins it puts.
pub fn each_block_has_one_string()
    ensures { (cat : ℕ) (field : Bool) (inc max : ℕ) → HasOneString (block cat field inc max) }
{}

/// A block of levels in range has bins, but for one of category 5 whose levels are all 0.
pub fn each_block_has_bins()
    ensures { (cat : ℕ) (field : Bool) (inc : ℕ) (levels : List ℤ) → AreLevels levels → (cat ≡ 5 → (n : ℕ) → levels ≡ replicate n (pos 0) → ⊥)
        → (bins : List (Slot × Bool)) × Spells (block cat field inc (length levels)) bins levels }
{}
