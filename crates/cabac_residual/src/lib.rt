//! The residual blocks of CABAC (ITU-T H.264, 7.3.5.3.3, with the contexts of 9.3.3.1.3): lists of levels in scan order, read
//! from any source of bins and written to any sink.
#![tactic(auto)]

mod block;
mod contexts;
pub mod laws;
mod level;
mod marks;

pub use block::{read_block, read_levels, write_block, write_levels};
