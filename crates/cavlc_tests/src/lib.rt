//! Tries of macroblocks, their neighbours, and CAVLC (ITU-T H.264, 6.4, 7.3.4, 7.3.5, 7.4.5 and 9.2): the tables that the
//! standard prints, and texts of blocks, macroblocks and slices that were put together bit by bit.
#![tactic(auto)]

#[cfg(test)]
mod blocks;
#[cfg(test)]
mod inter;
#[cfg(test)]
mod macroblocks;
#[cfg(test)]
mod neighbours;
#[cfg(test)]
mod pairs;
#[cfg(test)]
mod residuals;
#[cfg(test)]
mod rows;
#[cfg(test)]
mod slices;
#[cfg(test)]
mod spots;
#[cfg(test)]
mod tables;
#[cfg(test)]
mod valid;
