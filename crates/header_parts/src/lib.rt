//! The parts of slice headers (ITU-T H.264, 7.3.3 and 7.3.3.3), read under the parameter sets of the slice and written
//! again. The syntax tables stand in specs/, element by element, with the place of each refusal.
#![tactic(auto)]

mod active_sets;
mod fault;
mod header;
mod parts;
pub mod read_element;
mod read_lists;
mod read_marking_text;
mod read_parts;
mod read_references;
mod slice_types;
pub mod write_element;
mod write_lists;
mod write_marking_text;
mod write_parts;
mod write_references;

pub use active_sets::ActiveSets;
pub use fault::HeaderFault;
pub use header::{Header, MemoryManagement};
pub use parts::{
    ActiveReferences, Deblocking, Marking, PictureNumber, PictureOrder, ReferenceLists,
};
pub use read_lists::read_reference_lists;
pub use read_marking_text::read_marking;
pub use read_parts::{
    read_deblocking, read_picture_number, read_picture_order, read_slice_qp, slice_qp_y_of,
};
pub use read_references::{active_references_l0, active_references_l1, read_active_references};
pub use slice_types::{is_b_slice, is_i_slice, is_p_slice};
pub use write_lists::write_reference_lists;
pub use write_marking_text::write_marking;
pub use write_parts::{write_deblocking, write_picture_number, write_picture_order};
pub use write_references::{references, write_active_references};
