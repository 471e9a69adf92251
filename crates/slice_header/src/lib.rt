//! Slice headers (ITU-T H.264, 7.3.3) of I, P and B slices, read under the parameter sets that stand and written again.
//! The syntax tables stand in specs/, element by element, with the place of each refusal.
//! `shape` is what the slice's macroblocks rest on beside one another.
#![tactic(auto)]

pub mod laws;
mod read_header_text;
mod read_start_text;
mod slice_shape;
mod slice_start;
mod write_header_text;

pub use header_parts::{ActiveSets, Header, HeaderFault, MemoryManagement};
pub use read_header_text::{read_header, read_header_with_sets};
pub use slice_shape::{shape, shape_under};
pub use write_header_text::{sets_of, write_header, write_header_under};
