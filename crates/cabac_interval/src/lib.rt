//! The intervals of CABAC's arithmetic code (ITU-T H.264, 9.3.1.2 and 9.3.3.2): the two tables by which a bin splits a range,
//! the interval of a list of bins in whole numbers (`specs`), and the laws (`laws`) by which the bits of a segment are
//! those of one list of bins.
#![tactic(auto)]

pub mod laws;
mod tables;

pub use tables::{range_lps, trans_lps};
