use exp_golomb::{BitSink, BitVec};
use std::alloc::Global;
use std::test::Fail;

/// Bits with a stop bit and zero bits behind them.
pub fn payload_of(alloc: Global, mut bits: BitVec) -> Result<Vec<u8>, Fail> {
    bits.put(true)?;
    for _zeros in 0..7u8 {
        if !bits.aligned() {
            bits.put(false)?;
        }
    }
    if bits.aligned() {
        return Ok(bits.into_bytes());
    }
    Ok(Vec::new(alloc))
}
