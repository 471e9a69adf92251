ghost use Rattle.std.specs.Prelude.{◌≡◌, ◌<◌, ◌≤◌, ◌^◌, true, length, map, take, filter, reverse, sum, pos};
ghost use Rattle.std.specs.List.{AllByRecursion};
ghost use Rattle.bit_texts.specs.Bits.{binary};
ghost use Rattle.bit_texts.specs.Texts.{Appends};
ghost use Rattle.cavlc_residual.specs.Coefficients.{magnitude, is_minus, coefficients_text, AreCoefficients};
ghost use Rattle.cavlc_residual.specs.Block.{is_nonzero, is_one as one_test, trailing_ones, runs_text};
ghost use Rattle.cavlc_residual.specs.Places.{places_of, gaps, AreFalling};

use crate::coefficients::{suffix_length_after, write_coefficient};
use crate::runs::write_run;
use exp_golomb::BitSink;
use std::alloc::AllocError as Memory;

fn are_zeros(a: i32, b: i32, c: i32, d: i32) -> bool
    ensures { result ≡ true → (a ≡ pos 0) × ((b ≡ pos 0) × ((c ≡ pos 0) × (d ≡ pos 0))) }
{
    a == 0 && b == 0 && c == 0 && d == 0
}

/// How many levels stand before the zeros at the end, which are taken off by fours.
fn count_before_fours(levels: &[i32]) -> usize
    requires { AllByRecursion (λ l. magnitude l ≤ 65535) levels.now }
    ensures within { result ≤ length levels.now }
    ensures levels { filter is_nonzero (reverse levels.now) ≡ filter is_nonzero (reverse (take result levels.now)) }
    ensures places { places_of (reverse levels.now) ≡ places_of (reverse (take result levels.now)) }
{
    let mut count = levels.len();
    while count >= 4 {
        if !are_zeros(
            levels[count - 1],
            levels[count - 2],
            levels[count - 3],
            levels[count - 4],
        ) {
            return count;
        }
        count -= 4;
    }
    count
}

/// The levels of a block other than 0, from the highest frequency down, and their places in it, each in the first
/// `count` elements of its array. What stands behind them has no meaning.
#[derive(Clone, Copy)]
pub struct Separated {
    pub levels: [i32; 16],
    pub places: [u8; 16],
    pub count: u8,
}

/// Takes the levels other than 0 out of a block. Each level is stored, and counts only where it isn't 0, so that the next
/// one takes the place of a zero: which levels are 0 is hard to foretell, and no branch depends on it.
pub fn separate(levels: &[i32]) -> Separated
    requires few { length levels.now ≤ 16 }
    requires small { AllByRecursion (λ l. magnitude l ≤ 65535) levels.now }
    ensures few { result.count ≤ length levels.now }
    ensures levels { take result.count result.levels ≡ filter is_nonzero (reverse levels.now) }
    ensures places { take result.count result.places ≡ places_of (reverse levels.now) }
{
    let mut found = [0i32; 16];
    let mut places = [0u8; 16];
    let mut count = 0u8;
    let mut left = count_before_fours(levels);
    while left > 0 {
        left -= 1;
        let level = levels[left];
        found[usize::from(count)] = level;
        places[usize::from(count)] = left as u8;
        count += u8::from(level != 0);
    }
    Separated {
        levels: found,
        places,
        count,
    }
}

/// How many trailing ones there are.
pub fn count_ones(levels: &[i32]) -> u8
    ensures { result ≡ trailing_ones levels.now }
{
    match levels {
        [first, second, third, ..] if is_one(*first) && is_one(*second) && is_one(*third) => 3,
        [first, second, ..] if is_one(*first) && is_one(*second) => 2,
        [first, ..] if is_one(*first) => 1,
        _ => 0,
    }
}

fn is_one(level: i32) -> bool
    ensures { result ≡ one_test level }
{
    level == 1 || level == -1
}

/// The signs of trailing ones as a number of as many bits.
pub fn signs_of(ones: &[i32]) -> u64
    requires { length ones.now ≤ 3 }
    ensures bits { binary (length ones.now) result ≡ map is_minus ones.now }
    ensures fits { result < 2 ^ length ones.now }
{
    let mut signs = 0;
    for i in 0..ones.len() {
        signs = 2 * signs + u64::from(ones[i] < 0);
    }
    signs
}

/// Appends the levels behind the trailing ones.
pub fn write_coefficients<B: BitSink>(
    b: &mut B,
    levels: &[i32],
    suffix_length: u8,
    extra: u8,
) -> Result<(), Memory>
    requires small { suffix_length ≤ 6 }
    requires levels { AreCoefficients 20 suffix_length extra levels.now }
    ensures { Appends (B.bits b.old) (B.bits b.new) (coefficients_text suffix_length extra levels.now) result }
{
    let mut suffix_length = suffix_length;
    let mut extra = extra;
    for i in 0..levels.len() {
        let level = levels[i];
        write_coefficient(b, level, suffix_length, extra)?;
        suffix_length = suffix_length_after(suffix_length, level);
        extra = 0;
    }
    Ok(())
}

/// total_zeros of levels at these places: how many zeros the runs behind them have.
pub fn count_zeros(places: &[u8]) -> u8
    requires { AreFalling 16 places.now }
    ensures { result ≡ sum (gaps places.now) }
{
    match places.first() {
        Some(highest) => *highest - (places.len() as u8 - 1),
        None => 0,
    }
}

/// Appends the runs of zeros behind all levels but the last, which stand at these places.
pub fn write_runs<B: BitSink>(b: &mut B, zeros: u8, places: &[u8]) -> Result<(), Memory>
    requires falling { AreFalling 16 places.now }
    requires fits { sum (gaps places.now) ≤ zeros }
    ensures { Appends (B.bits b.old) (B.bits b.new) (runs_text zeros (gaps places.now)) result }
{
    let mut left = zeros;
    for i in 1..places.len() {
        if left == 0 {
            return Ok(());
        }
        let run = places[i - 1] - places[i] - 1;
        write_run(b, left, run)?;
        left -= run;
    }
    Ok(())
}
