//! What the layers above rest on: no code word of a table begins another one, the tables have their words, and each
//! coded block pattern has one code.
ghost use Rattle.std.specs.Prelude.{◌≡◌, ◌<◌, ℕ, ℤ, Bool, Some};
ghost use Rattle.code_tables.specs.CodedBlockPattern.{pattern_at};
ghost use Rattle.h264_types.specs.declared.macroblock.Pattern.{Pattern};
ghost use Rattle.code_tables.specs.Codes.{IsCodeTable, weight};
ghost use Rattle.code_tables.specs.CoeffToken.{coeff_token_0, coeff_token_2, coeff_token_4, coeff_token_8, coeff_token_dc, coeff_token_list};
ghost use Rattle.code_tables.specs.RunBefore.{run_before_list};
ghost use Rattle.code_tables.specs.TotalZeros.{total_zeros_list};

/// No code word of coeff_token begins another one of its column.
pub fn no_coeff_token_begins_another()
    ensures { (nc : ℤ) → IsCodeTable (coeff_token_list nc) }
{}

/// No code word of total_zeros begins another one of its column.
pub fn no_total_zeros_begins_another()
    ensures { (max total : ℕ) → IsCodeTable (total_zeros_list max total) }
{}

/// No code word of run_before begins another one of its column.
pub fn no_run_before_begins_another()
    ensures { (left : ℕ) → IsCodeTable (run_before_list left) }
{}

/// How many of the 2^16 texts of 16 bits begin with a code word of coeff_token.
pub fn coeff_token_weights()
    ensures low { weight coeff_token_0 ≡ 65534 }
    ensures middle { weight coeff_token_2 ≡ 65528 }
    ensures high { weight coeff_token_4 ≡ 65472 }
    ensures fixed { weight coeff_token_8 ≡ 63488 }
    ensures chroma_dc { weight coeff_token_dc ≡ 65536 }
{}

/// Each coded block pattern has one codeNum (Table 9-4).
pub fn patterns_have_one_code()
    ensures some { (intra : Bool) (p : Pattern) → p.luma < 16 → p.chroma < 3 → (place : ℕ) × (pattern_at intra place ≡ Some p) }
    ensures once { (intra : Bool) (first second : ℕ) (p : Pattern) → pattern_at intra first ≡ Some p → pattern_at intra second ≡ Some p → first ≡ second }
{}
