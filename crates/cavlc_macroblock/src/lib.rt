//! Macroblocks in CAVLC (ITU-T H.264, 7.3.5), read and written: mb_type, the samples of I_PCM, prediction,
//! coded_block_pattern, transform_size_8x8_flag, mb_qp_delta and the residual.
#![tactic(auto)]

mod coding;
pub mod laws;
mod layer;
mod macroblock;
mod mb_type;
mod pattern;
mod prediction;
mod transform_size;

pub use macroblock::{read_macroblock, write_macroblock};
