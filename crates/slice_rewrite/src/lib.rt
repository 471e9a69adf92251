//! One slice, read and written (ITU-T H.264, 7.3.2.8): `read_slice` and `write_slice` on whole lists of macroblocks,
//! `recode_slice` with one macroblock at a time. What the units of a stream are read as, what ends its recoding, what is
//! written for it and what two streams have in common stand in specs/, over whole lists; `laws` has what follows.
#![tactic(auto)]

mod choice;
mod fault;
mod kinds;
pub mod laws;
mod opening;
mod pick;
mod plan;
mod put;
mod reading;
mod recoding;
mod slice;
mod standing;
mod writing;
mod written_shape;

pub use fault::RewriteFault;
pub use kinds::{UnitKind, unit_kind, unit_type};
pub use opening::{OpenSlice, open_slice};
pub use pick::{FixedInit, InitPick, Tries};
pub use plan::Plan;
pub use reading::read_slice;
pub use recoding::recode_slice;
pub use slice::{How, Slice, Written};
pub use writing::write_slice;
