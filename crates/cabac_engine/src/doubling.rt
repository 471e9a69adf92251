ghost use Rattle.std.specs.Prelude.{◌≡◌, ◌<◌, ◌≤◌};
ghost use Rattle.cabac_interval.specs.Interval.{doublings_of};

/// How often a range is doubled until it is at least 256 (9.3.3.2.2).
#[inline(always)]
pub(crate) fn doublings(range: u16) -> u8
    requires some { 2 ≤ range }
    requires nine_bits { range < 512 }
    ensures { result ≡ doublings_of range }
{
    ((range.leading_zeros() + 1) & 7) as u8
}

/// The same for a range that is doubled once at most.
#[inline(always)]
pub(crate) fn doublings_of_most(range: u16) -> u8
    requires many { 128 ≤ range }
    requires nine_bits { range < 512 }
    ensures { result ≡ doublings_of range }
{
    u8::from(range < 256)
}
