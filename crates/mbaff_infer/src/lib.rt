//! mb_field_decoding_flag of a pair that sends none (ITU-T H.264, 7.4.4): both of its macroblocks are skipped, and the pairs
//! before tell it.
#![tactic(auto)]

mod infer;
pub mod laws;

pub use infer::inferred_flag;
