//! The printed tables of CAVLC (Tables 9-4, 9-5 and 9-7 to 9-10) and the maps of 8x8 blocks (Table 9-43), against sums that were
//! made from another copy of them.
ghost use Rattle.std.specs.Prelude.{◌≤◌};

use code_tables::{
    Code, code_of_pattern, coeff_token, last_map, pattern_of, run_before, sig_map, total_zeros,
};

/// One word more in the sum of (place + 1) * (256 * length + value) over the code words of a column.
fn sum_with(sum: u64, place: u8, word: Option<Code>) -> u64 {
    match word {
        Some((length, value)) => {
            let number = u64::from(length) * 256 + u64::from(value);
            sum.saturating_add((u64::from(place) + 1).saturating_mul(number))
        }
        None => sum,
    }
}

/// The sum of 2^(16 - length) over the words of a column of coeff_token, and the sum over the words in their order.
fn sums_of_coeff_token(nc: i8) -> (u64, u64) {
    let (mut taken, mut sum) = (0u64, 0);
    for place in 0u8..68 {
        let word = coeff_token(nc, place / 4, place % 4);
        sum = sum_with(sum, place, word);
        if let Some((length, _)) = word {
            taken = taken.saturating_add(65_536u64.checked_shr(u32::from(length)).unwrap_or(0));
        }
    }
    (taken, sum)
}

/// The table leaves no room beside its words but what the standard leaves.
#[test]
fn coeff_token_has_its_words(rt: HostRuntime) {
    assert!(rt; sums_of_coeff_token(-1) == (65_536, 282_066));
    assert!(rt; sums_of_coeff_token(0) == (65_534, 8_086_978));
    assert!(rt; sums_of_coeff_token(2) == (65_528, 6_752_920));
    assert!(rt; sums_of_coeff_token(4) == (65_472, 4_861_559));
    assert!(rt; sums_of_coeff_token(8) == (63_488, 3_643_465));
}

/// The number of levels of a block, TotalCoeff, and the sum over the words of total_zeros.
static TOTAL_ZEROS: [(u8, u8, u64); 18] = [
    (16, 1, 248_887),
    (16, 2, 152_357),
    (16, 3, 123_634),
    (16, 4, 95_473),
    (16, 5, 78_025),
    (16, 6, 63_385),
    (16, 7, 52_322),
    (16, 8, 41_539),
    (16, 9, 30_767),
    (16, 10, 21_031),
    (16, 11, 14_372),
    (16, 12, 9_486),
    (16, 13, 5_129),
    (16, 14, 2_309),
    (16, 15, 770),
    (4, 1, 6_662),
    (4, 2, 2_819),
    (4, 3, 769),
];

fn sum_of_total_zeros(max: u8, total: u8) -> u64
    requires { max ≤ 16 }
{
    let mut sum = 0;
    for zeros in 0u8..16 {
        sum = sum_with(sum, zeros, total_zeros(max, total, zeros));
    }
    sum
}

#[test]
fn total_zeros_has_its_words(rt: HostRuntime) {
    for (max, total, wanted) in &TOTAL_ZEROS {
        assert!(rt; *max <= 16);
        assert!(rt; sum_of_total_zeros(*max, *total) == *wanted);
    }
}

/// zerosLeft, and the sum over the words of run_before.
static RUN_BEFORE: [(u8, u64); 7] = [
    (1, 769),
    (2, 2_819),
    (3, 5_130),
    (4, 9_998),
    (5, 15_389),
    (6, 21_334),
    (14, 209_072),
];

fn sum_of_run_before(left: u8) -> u64 {
    let mut sum = 0;
    for run in 0u8..15 {
        sum = sum_with(sum, run, run_before(left, run));
    }
    sum
}

#[test]
fn run_before_has_its_words(rt: HostRuntime) {
    for (left, wanted) in &RUN_BEFORE {
        assert!(rt; sum_of_run_before(*left) == *wanted);
    }
}

/// An entry more in a sum of entries, each times its place and one.
fn sum_with_entry(sum: u32, place: u8, entry: u8) -> u32 {
    sum.saturating_add((u32::from(place) + 1).saturating_mul(u32::from(entry)))
}

fn sum_of_map(field: bool) -> u32 {
    let mut sum = 0;
    for place in 0u8..63 {
        sum = sum_with_entry(sum, place, sig_map(field, place));
    }
    sum
}

fn sum_of_last_map() -> u32 {
    let mut sum = 0;
    for place in 0u8..63 {
        sum = sum_with_entry(sum, place, last_map(place));
    }
    sum
}

#[test]
fn maps_have_their_entries(rt: HostRuntime) {
    assert!(rt; sum_of_map(false) == 18_509);
    assert!(rt; sum_of_map(true) == 20_832);
    assert!(rt; sum_of_last_map() == 8_663);
}

/// The sum of the patterns, 16 times chroma and luma, each times its place and one; none where a code isn't that of its pattern.
fn sum_of_patterns(intra: bool) -> Option<u32> {
    let mut sum = 0u32;
    for place in 0u8..48 {
        let pattern = pattern_of(intra, place)?;
        if code_of_pattern(intra, pattern)? != place {
            return None;
        }
        let number = u32::from(pattern.chroma) * 16 + u32::from(pattern.luma);
        sum = sum.saturating_add(number.saturating_mul(u32::from(place) + 1));
    }
    Some(sum)
}

/// For I_NxN, and for the other types.
#[test]
fn patterns_have_their_codes(rt: HostRuntime) {
    assert!(rt; sum_of_patterns(true) == Some(28_594));
    assert!(rt; sum_of_patterns(false) == Some(32_605));
}
