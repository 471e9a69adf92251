//! The data of slices in CAVLC (ITU-T H.264, 7.3.4 and 7.3.2.10), read and written one macroblock at a time: I, P and B
//! slices of fields and frames, in MBAFF too. specs/SliceText has the text of a list of macroblocks, specs/Standing and
//! specs/Written what a reader and a writer stand for. `laws` has what the layers above rest on.
#![tactic(auto)]

mod bound;
mod end;
mod field;
pub mod laws;
mod reader;
mod run;
mod writer;

pub use reader::CavlcReader;
pub use writer::CavlcWriter;
