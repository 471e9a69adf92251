use h264_types::{Layer, Mb};
use slice_header::Header;

/// A coded slice: its header and its macroblocks, skipped ones too (7.3.3, 7.3.4).
#[derive(Drop)]
pub struct Slice {
    pub header: Header,
    pub mbs: Vec<Mb>,
}

/// How a slice is to be written.
#[derive(Clone, Copy, Debug, PartialEq, Eq)]
pub struct How {
    /// The entropy layer.
    pub to: Layer,
    /// The number of the picture parameter set that the header names, 0 to 255.
    pub number: u8,
    /// cabac_init_idc where it stands, 0 to 2.
    pub idc: u8,
}

/// A slice in its written form.
#[derive(Drop)]
pub struct Written {
    /// The payload of its unit.
    pub payload: Vec<u8>,
    /// How many macroblocks it has.
    pub macroblocks: u32,
}
