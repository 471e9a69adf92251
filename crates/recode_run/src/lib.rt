//! A whole run: reads an H.264 byte stream (ITU-T H.264, annex B) from a source, writes it for another entropy layer to a
//! sink, and reports how that ended. Parameter sets and slices are rewritten, and the units beside them are carried.
//! The top call is `run::run`, and its contract is what the program promises.
#![tactic(auto)]

pub mod account;
pub mod laws;
pub mod report;
pub mod run;
pub mod status;
pub mod words;
