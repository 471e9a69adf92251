ghost use Rattle.std.specs.Prelude.{◌≡◌, ◌≤◌, [], ◌++◌, map, option_map};
ghost use Rattle.bit_texts.specs.Texts.{Reads};
ghost use Rattle.cavlc_residual.specs.Coefficients.{is_minus};
ghost use Rattle.cavlc_residual.specs.Block.{first_suffix_length, first_extra, levels_text};
ghost use Rattle.cavlc_residual.specs.Parts.{IsToken, token_text, AreOnes, AreLevels};

use crate::coefficients::{Coefficients, read_coefficients};
use crate::words::read_code;
use code_tables::coeff_token_table;
use exp_golomb::BitSource;

/// Reads coeff_token of a block of at most `max` levels other than 0: TotalCoeff and TrailingOnes.
pub fn read_token<B: BitSource>(b: &mut B, nc: i8, max: u8) -> Option<(u8, u8)>
    ensures reads { Reads (IsToken nc max) (token_text nc) (B.left b.old) result (B.left b.new) }
    ensures kept { B.taken b.new ++ B.left b.new ≡ B.taken b.old ++ B.left b.old }
{
    let place = read_code(b, &coeff_token_table(nc))?;
    let total = place / 4;
    if total > max {
        return None;
    }
    Some((total, place % 4))
}

/// Reads the signs of the trailing ones into a list.
fn read_ones<B: BitSource>(b: &mut B, count: u8, ones: &mut Coefficients) -> Option<()>
    requires few { count ≤ 3 }
    requires empty { ones.old.items ≡ [] }
    ensures reads { Reads (AreOnes count) (map is_minus) (B.left b.old) (option_map (λ _. ones.new.items) result) (B.left b.new) }
    ensures kept { B.taken b.new ++ B.left b.new ≡ B.taken b.old ++ B.left b.old }
{
    for _i in 0..count {
        let minus = b.bit()?;
        ones.push(if minus { -1 } else { 1 });
    }
    Some(())
}

/// suffixLength of the first level that is no trailing one.
pub fn suffix_length_first(total: u8, ones: u8) -> u8
    ensures value { result ≡ first_suffix_length total ones }
    ensures small { result ≤ 1 }
{
    if total > 10 && ones < 3 { 1 } else { 0 }
}

/// What is taken off its levelCode.
pub fn extra_first(ones: u8) -> u8
    ensures value { result ≡ first_extra ones }
    ensures small { result ≤ 2 }
{
    if ones < 3 { 2 } else { 0 }
}

/// Reads the levels other than 0, from the highest frequency down, into a list.
pub fn read_nonzero<B: BitSource>(
    b: &mut B,
    total: u8,
    ones: u8,
    bound: u8,
    levels: &mut Coefficients,
) -> Option<()>
    requires few { total ≤ 16 }
    requires ones { ones ≤ total }
    requires ones_small { ones ≤ 3 }
    requires within { bound ≤ 20 }
    requires empty { levels.old.items ≡ [] }
    ensures reads { Reads (AreLevels (total, ones) bound) levels_text (B.left b.old) (option_map (λ _. levels.new.items) result) (B.left b.new) }
    ensures kept { B.taken b.new ++ B.left b.new ≡ B.taken b.old ++ B.left b.old }
{
    read_ones(b, ones, levels)?;
    if total == ones {
        return Some(());
    }
    let suffix_length = suffix_length_first(total, ones);
    read_coefficients(
        b,
        total - ones,
        suffix_length,
        extra_first(ones),
        bound,
        levels,
    )
}
