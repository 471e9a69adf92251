//! The residual of macroblocks in CAVLC (ITU-T H.264, 7.3.5.3): which blocks are sent, in what order, and with what nC
//! (9.2.1), read and written, with the 4x4 and the 8x8 transform.
#![tactic(auto)]

mod beyond;
mod chroma;
mod counts;
pub mod laws;
mod lists;
mod luma;
mod nc;
mod pairs;
mod residual;
mod transform_8x8;

pub use beyond::is_beyond;
pub use counts::{Around, Counts, Sides};
pub use residual::{read_residual, write_residual};
