//! What the layers above rest on: no text of a block begins another one.
ghost use Rattle.std.specs.Prelude.{List, ◌≡◌, ℕ, ℤ, false, ◌<◌, ◌≤◌};
ghost use Rattle.std.specs.List.{AllByRecursion};
ghost use Rattle.bit_texts.specs.Texts.{IsPrefixFree};
ghost use Rattle.cavlc_residual.specs.Block.{IsBlock, IsShape, block_text, is_beyond};
ghost use Rattle.cavlc_residual.specs.Coefficients.{magnitude};
ghost use Rattle.cavlc_residual.specs.Level.{IsLevelWord, level_code, level_word};

/// With a bound of 20 no block in range is beyond it.
pub fn never_beyond()
    ensures { (levels : List ℤ) → AllByRecursion (λ l. magnitude l ≤ 65535) levels → is_beyond 20 levels ≡ false }
{}

/// No text of a block begins another one, and no two blocks have one text.
pub fn no_block_begins_another()
    ensures { (nc : ℤ) (max bound : ℕ) → IsShape nc max → bound ≤ 20 → IsPrefixFree (IsBlock max bound) (block_text nc) }
{}

/// A levelCode has just the level_prefix and level_suffix from which the formula of 9.2.2.1 makes it.
pub fn a_level_code_has_one_word()
    ensures made { (s p x : ℕ) → s < 7 → IsLevelWord s 20 (p, x) → level_word s (level_code s p x) ≡ (p, x) }
    ensures word { (s code : ℕ) → s < 7 → (level_word s code).0 ≤ 20 → IsLevelWord s 20 (level_word s code) × (level_code s (level_word s code).0 (level_word s code).1 ≡ code) }
{}
