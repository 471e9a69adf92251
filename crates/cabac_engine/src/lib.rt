//! The arithmetic coder of CABAC (ITU-T H.264, 9.3.1.2, 9.3.3.2 and 9.3.4): a decoder that takes the bins of a segment from a
//! source of bits, an encoder that writes them into a sink, and the two traits, `BinSource` and `BinSink`, over which the
//! syntax elements of CABAC are read and written.
#![tactic(auto)]

mod bin_sink;
mod bin_source;
mod cell;
mod decoder;
mod doubling;
mod encoder;
pub mod laws;
mod low_bits;
mod offset_bits;
mod pending_bits;

pub use bin_sink::BinSink;
pub use bin_source::BinSource;
pub use cell::Cell;
pub use decoder::{Decoder, NoStart};
pub use encoder::Encoder;
