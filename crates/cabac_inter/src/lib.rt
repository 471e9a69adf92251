//! The prediction of P and B macroblocks in CABAC (ITU-T H.264, 7.3.5.1 and 7.3.5.2): sub_mb_type, reference indices and
//! vector differences, read from any source of bins and written to any sink, each once for its partition and repeated over
//! the quarters and blocks of it. Skipped and direct parts send nothing.
#![tactic(auto)]

mod inter;
pub mod laws;
mod parts;
mod refs;
mod subs;
mod vectors;

pub use inter::{read_inter_prediction, write_inter_prediction};
