//! Tries of CABAC (ITU-T H.264, 9.3): segments whose bits were worked out by hand, the bin strings and first contexts that
//! the standard prints, and blocks and macroblocks down to their bins and up to their bytes.
#![tactic(auto)]

#[cfg(test)]
mod bins;
#[cfg(test)]
mod blocks;
#[cfg(test)]
mod contexts;
#[cfg(test)]
mod increments;
#[cfg(test)]
mod intervals;
#[cfg(test)]
mod macroblocks;
#[cfg(test)]
mod rows;
#[cfg(test)]
mod segments;
#[cfg(test)]
mod slices;
#[cfg(test)]
mod strings;
#[cfg(test)]
mod vectors;
