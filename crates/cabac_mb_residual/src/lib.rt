//! The residual of macroblocks in CABAC (ITU-T H.264, 7.3.5.3): which lists of levels are sent, in what order, and in which
//! contexts (9.3.3.1.1.9), read from any source of bins and written to any sink, with the 4x4 and the 8x8 transform.
#![tactic(auto)]

mod chroma;
pub mod laws;
mod luma;
mod residual;

pub use residual::{read_residual, write_residual};
