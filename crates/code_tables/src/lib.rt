//! The code tables of CAVLC (ITU-T H.264, 9.2): coeff_token, total_zeros and run_before, the mapping of coded_block_pattern
//! (9.1.2), and the maps of 8x8 blocks in CABAC (9.3.3.1.3). The tables are printed in specs/, to be compared with the
//! standard's, and the lists of the code are proved to be those.
//! A `CodeTable` finds the code word that the next bits begin with, at once. Nothing here takes memory.
#![tactic(auto)]

pub mod laws;
mod maps;
mod patterns;
mod places;
mod runs;
mod table;
mod tokens;
mod zeros;

pub use maps::{last_map, sig_map};
pub use patterns::{code_of_pattern, pattern_of};
pub use runs::{run_before, run_before_table};
pub use table::{Code, CodeTable};
pub use tokens::{coeff_token, coeff_token_table};
pub use zeros::{total_zeros, total_zeros_table};
