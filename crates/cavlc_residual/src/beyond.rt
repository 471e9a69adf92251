ghost use Rattle.std.specs.Prelude.{◌≡◌, ◌≤◌, true, length};
ghost use Rattle.std.specs.List.{AllByRecursion};
ghost use Rattle.cavlc_residual.specs.Coefficients.{magnitude};
ghost use Rattle.cavlc_residual.specs.Block.{is_nonzero, is_above, levels_above as above_test, is_beyond as beyond_test};

use crate::coefficients::{is_prefix_above, suffix_length_after};
use crate::parts::{extra_first, suffix_length_first};
use crate::writing::{count_ones, separate};

/// Whether some level needs a level_prefix above the bound.
fn is_above_bound(levels: &[i32], suffix_length: u8, extra: u8, bound: u8) -> bool
    requires nonzero { AllByRecursion (λ l. is_nonzero l ≡ true) levels.now }
    requires level_small { AllByRecursion (λ l. magnitude l ≤ 65535) levels.now }
    requires small { suffix_length ≤ 6 }
    requires within { bound ≤ 20 }
    ensures { result ≡ is_above bound suffix_length extra levels.now }
{
    let mut suffix_length = suffix_length;
    let mut extra = extra;
    for i in 0..levels.len() {
        let level = levels[i];
        if is_prefix_above(level, suffix_length, extra, bound) {
            return true;
        }
        suffix_length = suffix_length_after(suffix_length, level);
        extra = 0;
    }
    false
}

/// Whether some level other than 0 of a block needs a level_prefix above the bound. None needs one above 20.
pub fn levels_above(levels: &[i32], bound: u8) -> bool
    requires few { length levels.now ≤ 16 }
    requires nonzero { AllByRecursion (λ l. is_nonzero l ≡ true) levels.now }
    requires small { AllByRecursion (λ l. magnitude l ≤ 65535) levels.now }
    requires within { bound ≤ 20 }
    ensures { result ≡ above_test bound levels.now }
{
    if bound == 20 {
        return false;
    }
    let total = levels.len() as u8;
    let ones = count_ones(levels);
    let (_ones, others) = levels.split_at(usize::from(ones));
    is_above_bound(
        others,
        suffix_length_first(total, ones),
        extra_first(ones),
        bound,
    )
}

/// Whether some level of a block needs a level_prefix above the bound (9.2.2.1).
pub fn is_beyond(levels: &[i32], bound: u8) -> bool
    requires few { length levels.now ≤ 16 }
    requires small { AllByRecursion (λ l. magnitude l ≤ 65535) levels.now }
    requires within { bound ≤ 20 }
    ensures { result ≡ beyond_test bound levels.now }
{
    let parts = separate(levels);
    levels_above(&parts.levels[..usize::from(parts.count)], bound)
}
