//! The context variables of CABAC (ITU-T H.264, 9.3.1.1) and which of them codes a bin (9.3.3.1.1): 460 cells as they start,
//! a decoder and an encoder that have them, and the increments of ctxIdx that rest on neighbouring macroblocks.
//! `laws` joins the steps of the two coders to the codes of segments. Nothing here takes memory but what the encoder writes.
#![tactic(auto)]

mod contexts;
mod in_coder;
mod increments;
pub mod laws;
mod magnitude;
mod out_coder;
mod term;

pub use contexts::Contexts;
pub use in_coder::InCoder;
pub use increments::{
    ctx_inc_block, ctx_inc_chroma, ctx_inc_chroma_mode, ctx_inc_luma, ctx_inc_mvd,
    ctx_inc_qp_delta, ctx_inc_ref, ctx_inc_skip, ctx_inc_t8, ctx_inc_type_b, ctx_inc_type_i,
};
pub use out_coder::OutCoder;
