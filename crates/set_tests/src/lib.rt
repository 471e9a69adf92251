//! Tries of what bits, parameter sets and slice headers say (ITU-T H.264, 7.2, 7.3.2, 7.3.3 and 9.1): the codes that the
//! standard prints, payloads that encoders wrote, and headers that were put together bit by bit.
#![tactic(auto)]

#[cfg(test)]
mod codes;
#[cfg(test)]
mod elements;
#[cfg(test)]
mod headers;
#[cfg(test)]
mod lists;
#[cfg(test)]
mod payload;
#[cfg(test)]
mod refusals;
#[cfg(test)]
mod sets;
#[cfg(test)]
mod under;
