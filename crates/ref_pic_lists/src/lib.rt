//! The modification of reference picture lists and the table of prediction weights of slice headers (ITU-T H.264,
//! 7.3.3.1 and 7.3.3.2), read and written again, with chroma of 4:2:0.
//! The syntax tables stand in specs/, element by element.
#![tactic(auto)]

mod fault;
pub mod laws;
mod modification;
mod read_element;
mod read_modification_text;
mod read_weights_text;
mod weights;
mod write_element;
mod write_modification_text;
mod write_weights_text;

pub use fault::ListFault;
pub use modification::{ListModification, PicNumModification};
pub use read_modification_text::read_modification;
pub use read_weights_text::read_weights;
pub use weights::{ChromaWeights, EntryWeights, Weight, WeightTable};
pub use write_modification_text::write_modification;
pub use write_weights_text::write_weights;
