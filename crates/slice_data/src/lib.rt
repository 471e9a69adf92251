//! The data of a slice (ITU-T H.264, 7.3.4), read and written one macroblock at a time: what a reader and a writer are,
//! whichever entropy layer they are of.
#![tactic(auto)]

mod fault;
mod reader;
mod writer;

pub use fault::{PutFault, SliceFault};
pub use reader::{SliceReader, Step};
pub use writer::SliceWriter;
