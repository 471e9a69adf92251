//! The normal form of a macroblock's coded_block_pattern, which CAVLC and CABAC can both say: with the 8x8 transform no
//! luma bit stands for levels that are all 0 (ITU-T H.264, 7.3.5, 7.3.5.3.3, 7.4.5). `laws` has what follows from it.
#![tactic(auto)]

pub mod laws;
mod normal;

pub use normal::{Emptied, fix, is_normal, normalise};
