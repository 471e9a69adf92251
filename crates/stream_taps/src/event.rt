// What a tap is told of a unit.

/// One unit of a stream, once its written form was taken.
#[derive(Clone, Copy, Debug, PartialEq, Eq)]
pub struct Event {
    /// The unit's `nal_unit_type` (ITU-T H.264, table 7-1).
    pub kind: u8,

    /// How many macroblocks a slice has, skipped ones counted; 0 for a unit of another kind.
    pub macroblocks: u32,

    /// The unit's bytes as they were read, with its header byte and its emulation prevention bytes, without its
    /// start code.
    pub bytes_in: u64,

    /// The bytes that were written for it, start codes included.
    pub bytes_out: u64,
}
