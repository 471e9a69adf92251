// What a tap has counted.

/// The sums over some events. Each stops at the greatest `u64`.
#[derive(Clone, Copy, Debug, Default, PartialEq, Eq)]
pub struct Tally {
    pub units: u64,

    /// The units of `nal_unit_type` 1 or 5.
    pub slices: u64,
    pub macroblocks: u64,

    /// The bytes of the units as they were read, without start codes.
    pub bytes_in: u64,

    /// The bytes that were written, with start codes.
    pub bytes_out: u64,
}
