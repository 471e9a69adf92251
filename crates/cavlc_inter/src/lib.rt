//! The prediction of P and B macroblocks in CAVLC (ITU-T H.264, 7.3.5.1 and 7.3.5.2): sub_mb_type, reference indices and
//! motion vector differences, read and written, each once for its partition and repeated over the quarters and blocks of
//! it. Skipped and direct parts send nothing.
#![tactic(auto)]

mod inter;
pub mod laws;
mod parts;
mod refs;
mod subs;
mod vectors;

pub use inter::{read_inter, write_inter};
