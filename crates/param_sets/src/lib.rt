//! Sequence and picture parameter sets (ITU-T H.264, 7.3.2.1 and 7.3.2.2), read from their payloads and written again.
//! The syntax tables stand in specs/, element by element, with the place of each refusal.
//! `Sets` holds the sets in force: the last one put of each number.
#![tactic(auto)]

mod elements;
mod fault;
pub mod laws;
mod pps;
mod read_element;
mod read_pps_text;
mod read_scaling;
mod read_sps_text;
mod read_trailing;
mod sets;
mod sps;
mod write_pps_text;
mod write_sps_text;
mod write_values;

pub use elements::Elements;
pub use fault::SetFault;
pub use pps::Pps;
pub use read_pps_text::read_pps;
pub use read_sps_text::read_sps;
pub use sets::Sets;
pub use sps::Sps;
pub use write_pps_text::write_pps;
pub use write_sps_text::write_sps;
