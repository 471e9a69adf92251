//! What neither a contract nor the table of `stream_rows` says of streams: ends that fail, small bounds, the order of
//! flushes, taps, and the calls of the crates below with known values.
#![tactic(auto)]

#[cfg(test)]
mod ends;
#[cfg(test)]
mod failures;
#[cfg(test)]
mod flushes;
#[cfg(test)]
mod picks;
#[cfg(test)]
mod prompt;
#[cfg(test)]
mod reports;
#[cfg(test)]
mod runs;
#[cfg(test)]
mod slices;
#[cfg(test)]
mod tables;
#[cfg(test)]
mod taps;
#[cfg(test)]
mod units;
