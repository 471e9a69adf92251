//! The samples of I_PCM macroblocks, and the zero bits up to the byte boundary before them (ITU-T H.264, 7.3.5), which are
//! alike in both entropy layers.
#![tactic(auto)]

mod alignment;
mod samples;

pub use alignment::{read_alignment, write_alignment};
pub use samples::{read_samples, write_samples};
