//! The table of initial pairs of the context variables of CABAC (ITU-T H.264, 9.3.1.1). The standard prints its values; here
//! they are read from a text that is handed in, and every text that is a table's serves.
//! Nothing here takes memory.
#![tactic(auto)]

mod numbers;
mod table;
mod text;
mod words;

pub use table::{BadTable, InitTable};
