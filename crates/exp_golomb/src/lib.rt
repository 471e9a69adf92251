//! Bitstreams and the codes of syntax elements (ITU-T H.264, 7.2 and 9.1): u(n), ue(v), te(v), se(v).
//! A reader answers the value whose code begins the bits that are left, or that they begin with no code of its values.
//! `specs` also has syntax tables, and the payload in the escaped bytes of a unit (7.3.1, 7.4.1).
#![tactic(auto)]

mod bit_vec;
mod laws;
mod read;
mod sink;
mod slice_bits;
mod source;
mod write;

pub use bit_vec::BitVec;
pub use laws::{
    bits_spell_one_outcome, escaped_bytes_have_one_payload, no_code_begins_another,
    payload_is_that_of_its_escape,
};
pub use read::{read_flag, read_se, read_te, read_u, read_ue};
pub use sink::BitSink;
pub use slice_bits::SliceBits;
pub use source::BitSource;
pub use write::{write_se, write_te, write_u, write_ue};
