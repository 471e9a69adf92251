//! The codes of Tables 9-2 and 9-3.
use exp_golomb::{BitSink, BitVec, SliceBits, read_se, read_ue, write_se, write_ue};
use std::alloc::Global;
use std::test::Fail;

/// The codes of Table 9-2 up to code number 9, one after another.
const CODES: [u8; 6] = [0xa6, 0x42, 0x98, 0xe2, 0x04, 0x8a];

/// The values that se(v) has by Table 9-3 for these code numbers.
const VALUES: [i32; 10] = [0, 1, -1, 2, -2, 3, -3, 4, -4, 5];

#[test]
fn codes_are_read(rt: HostRuntime) {
    let mut numbers = SliceBits::new(&CODES);
    let mut values = SliceBits::new(&CODES);
    for code_number in 0u8..10 {
        let value = VALUES[usize::from(code_number)];
        assert!(rt; read_ue(&mut numbers, 9) == Some(u32::from(code_number)));
        assert!(rt; read_se(&mut values, -5, 5) == Some(value));
    }
}

fn numbers_in(alloc: Global) -> Result<Vec<u8>, Fail> {
    let mut bits = BitVec::new(alloc);
    for code_number in 0u8..10 {
        write_ue(&mut bits, u32::from(code_number))?;
    }
    if bits.aligned() {
        return Ok(bits.into_bytes());
    }
    Ok(Vec::new(alloc))
}

fn values_in(alloc: Global) -> Result<Vec<u8>, Fail> {
    let mut bits = BitVec::new(alloc);
    for code_number in 0u8..10 {
        write_se(&mut bits, VALUES[usize::from(code_number)])?;
    }
    if bits.aligned() {
        return Ok(bits.into_bytes());
    }
    Ok(Vec::new(alloc))
}

#[test]
fn codes_are_written(rt: HostRuntime) -> Result<(), Fail> {
    assert!(rt; numbers_in(rt.alloc())?.as_slice() == CODES.as_slice());
    assert!(rt; values_in(rt.alloc())?.as_slice() == CODES.as_slice());
    Ok(())
}
