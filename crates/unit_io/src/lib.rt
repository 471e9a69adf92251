//! Where the bytes of a stream come from and where they go: sources and sinks that count their faults.
//! A source or a sink may tell its bytes to contracts, and the ones over standard input, output and error don't.
//! What stands above is generic over `Source` and `Sink`, and proved once for every end.
#![tactic(auto)]

mod clean_sink;
mod clean_source;
mod failing;
mod mem_sink;
mod mem_source;
mod sink;
mod source;
mod std_sink;
mod std_source;

pub use clean_sink::CleanSink;
pub use clean_source::CleanSource;
pub use mem_sink::MemSink;
pub use mem_source::MemSource;
pub use sink::{Sink, SinkFault, put_all};
pub use source::{Failed, Source};
pub use std_sink::StdSink;
pub use std_source::StdSource;
