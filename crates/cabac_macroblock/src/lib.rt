//! Macroblocks in CABAC (ITU-T H.264, 7.3.4 and 7.3.5): mb_skip_flag, mb_type, prediction, coded_block_pattern,
//! transform_size_8x8_flag, mb_qp_delta and the residual, read from any source of bins and written to any sink. The samples of
//! I_PCM, which are no bins, are left to the caller.
#![tactic(auto)]

mod coding;
pub mod laws;
mod macroblock;
mod mb_type;
mod pattern;
mod prediction;
mod transform_size;

pub use macroblock::{read_macroblock, write_macroblock};
