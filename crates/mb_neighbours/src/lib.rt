//! The neighbours to the left and above that syntax elements are predicted from and coded by (ITU-T H.264, 6.4): the
//! macroblock and block, or none in this slice, in frames and fields as in macroblock-adaptive frames. specs/ finds
//! them in the whole list of a slice by address; `laws` says that the macroblocks before are enough.
#![tactic(auto)]

pub mod laws;
mod near;
mod of_pair;
mod pairs;
mod place;
mod rows;

pub use near::{above, left};
pub use of_pair::{OfPair, is_field_at};
pub use place::{At, Spot};
