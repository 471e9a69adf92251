//! The two tables of the arithmetic code (Tables 9-44 and 9-45), against sums that were made from another copy of them.
ghost use Rattle.std.specs.Prelude.{◌<◌};

use cabac_interval::{range_lps, trans_lps};

/// The sum of a quarter of the range over the states, each entry times its state and one.
fn sum_of_ranges(quarter: u8) -> u32
    requires { quarter < 4 }
{
    let mut sum = 0u32;
    for p in 0u8..64 {
        let entry = u32::from(range_lps(p, quarter));
        sum = sum.saturating_add(entry.saturating_mul(u32::from(p) + 1));
    }
    sum
}

/// The same sum of transIdxLps.
fn sum_of_transitions() -> u32 {
    let mut sum = 0u32;
    for p in 0u8..64 {
        let entry = u32::from(trans_lps(p));
        sum = sum.saturating_add(entry.saturating_mul(u32::from(p) + 1));
    }
    sum
}

#[test]
fn tables_have_their_entries(rt: HostRuntime) {
    let ranges = [
        sum_of_ranges(0),
        sum_of_ranges(1),
        sum_of_ranges(2),
        sum_of_ranges(3),
    ];
    assert!(rt; ranges == [47_040, 57_570, 67_927, 78_548]);
    assert!(rt; sum_of_transitions() == 61_354);
}
