//! Byte streams of ITU-T H.264, Annex B, and their units (7.3.1): splitting in pieces of any size, and the payload of a
//! unit without and with emulation prevention.
//! `laws` has what follows from the definitions of both.
#![tactic(auto)]

mod escaping;
pub mod laws;
mod splitter;
mod unescaping;
mod writing;

pub use escaping::escape;
pub use splitter::{SplitFault, Splitter};
pub use unescaping::{EscapeFault, has_payload, unescape};
pub use writing::write_unit;
