//! The types that the layers of the recoder share: macroblocks and the shape of a slice, layers and refusals; which
//! lists of macroblocks are a slice's (ITU-T H.264, 7.3.4, 7.3.5, 7.4.4, 7.4.5), and the byte stream format of Annex B,
//! as definitions over whole lists of bytes: which units a stream has, and what of them the bytes so far show.
//! `laws` has what follows from these definitions.
#![tactic(auto)]

mod fault;
pub mod laws;
mod layer;
pub mod macroblock;
pub mod partition;
mod rows;
mod sent;
mod sizes;
pub mod slice_order;
pub mod slice_shape;
pub mod validity;

pub use fault::{Case, Place, Stopped, Why};
pub use layer::Layer;
pub use macroblock::{Levels, Mb, MbKind, Pattern};
pub use partition::Prediction;
pub use rows::{OfMb, Rows};
pub use sent::mode_count;
pub use sizes::has_sizes;
pub use slice_shape::{SliceKind, SliceShape};
pub use validity::valid;
