// What a run is to do.

use h264_types::Layer;

/// What recoding is to give.
#[derive(Clone, Copy, Debug, PartialEq, Eq)]
pub struct Plan {
    /// The wanted entropy layer.
    pub to: Layer,

    /// The first and the last IDR period to be recoded, where the run is partial. Slices outside of them are written
    /// as they were read.
    pub range: Option<(u32, u32)>,
}
