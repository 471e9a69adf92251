//! The bin strings of the syntax elements of CABAC (ITU-T H.264, 9.3.2), read from any source of bins and written to any
//! sink, with the numbers of their contexts (9.3.3.1).
#![tactic(auto)]

mod codes;
mod elements;
mod flags;
pub mod laws;
mod types;
mod ueg;
mod vectors;

pub use codes::{read_unary, write_unary};
pub use elements::{
    read_chroma_mode, read_mode, read_pattern_chroma, read_qp_delta, read_ref_idx,
    write_chroma_mode, write_mode, write_pattern_chroma, write_qp_delta, write_ref_idx,
};
pub use flags::{
    read_end_of_slice, read_field, read_mode_flag, read_pattern_luma, read_skip_b, read_skip_p,
    read_t8, write_end_of_slice, write_field, write_mode_flag, write_pattern_luma, write_skip_b,
    write_skip_p, write_t8,
};
pub use types::{
    read_sub_b, read_sub_p, read_type_b, read_type_i, read_type_p, write_sub_b, write_sub_p,
    write_type_b, write_type_i, write_type_p,
};
pub use ueg::{read_signed, read_ueg, write_signed, write_ueg};
pub use vectors::{read_mvd_x, read_mvd_y, write_mvd_x, write_mvd_y};
