//! Taps watch a run over a stream: each unit that was written is an event, which a tap adds to its tally.
//! What a unit is, and which of them are slices, is that of NAL units (ITU-T H.264, 7.3.1 and table 7-1).
//! A tap may have enough after some units, and then says so.
#![tactic(auto)]

mod event;
mod tally;
mod tap;

pub use event::Event;
pub use tally::Tally;
pub use tap::{Tap, Wish};
