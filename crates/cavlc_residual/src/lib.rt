//! Residual blocks in CAVLC (ITU-T H.264, 7.3.5.3.2 and 9.2): their transform coefficient levels, read and written.
//! The text of a block stands in specs/, from the highest frequency down as the standard has it.
#![tactic(auto)]

mod beyond;
mod block;
mod coefficients;
mod fault;
pub mod laws;
mod level;
mod parts;
mod runs;
mod words;
mod writing;

pub use beyond::is_beyond;
pub use block::{read_block, read_levels, read_onto_zeros, write_block, write_empty, write_levels};
pub use fault::BlockFault;
