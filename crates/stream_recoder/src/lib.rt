//! The recoder of whole streams (ITU-T H.264, Annex B): the bytes of a stream in, in pieces of any size, its units as they
//! are written out. What a stream is read as, what ends its recoding and what is written for it stand in `slice_rewrite`'s
//! specs/, over whole lists; here stand what a recoder holds of them, and the events of its units.
#![tactic(auto)]

pub mod laws;
mod periods;
mod recoder;
mod unit_form;

pub use recoder::Recoder;
