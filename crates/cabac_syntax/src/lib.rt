//! The data of slices in CABAC (ITU-T H.264, 7.3.4 and 9.3), read and written one macroblock at a time, outside MBAFF. specs/SliceData has the data of a list of macroblocks, specs/Standing and specs/Written what a reader
//! and a writer stand for. `laws` has what the layers above rest on.
#![tactic(auto)]

pub mod laws;
mod ones;
mod out_segment;
mod reader;
mod segment;
mod tail;
mod writer;

pub use reader::CabacReader;
pub use writer::CabacWriter;
