// Payloads without and with emulation prevention.
use annexb_units::{EscapeFault, escape, has_payload, unescape};
use std::alloc::Global;
use std::test::Fail;

/// The payloads of units, and the bytes behind the header's.
const PAIRS: [(&[u8], &[u8]); 8] = [
    (&[], &[]),
    (&[0x80, 0, 0x80], &[0x80, 0, 0x80]),
    (&[0, 0, 0, 0x80], &[0, 0, 3, 0, 0x80]),
    (&[0, 0, 1, 0, 0, 2], &[0, 0, 3, 1, 0, 0, 3, 2]),
    (&[0, 0, 3, 0, 0, 4], &[0, 0, 3, 3, 0, 0, 4]),
    (&[0x80, 0, 0], &[0x80, 0, 0, 3]),
    (&[0x80, 0, 0, 0, 0], &[0x80, 0, 0, 3, 0, 0, 3]),
    (&[0, 0, 0, 0, 1], &[0, 0, 3, 0, 0, 3, 1]),
];

/// Units whose bytes behind the header are those of no payload.
const BAD: [&[u8]; 6] = [
    &[0x06, 0, 0, 2, 0x80],
    &[0x06, 0, 0, 1],
    &[0x06, 0, 0, 3, 4],
    &[0x06, 0x80, 0],
    &[0x06, 0x80, 0, 0],
    &[0x06, 0x80, 0, 0, 3, 0],
];

// Whether the bytes behind a unit's header are read as this payload, and this is written as they are.
fn are_of(alloc: Global, bytes: &[u8], payload: &[u8]) -> Result<bool, Fail> {
    let mut unit = [0x65].to_vec(alloc)?;
    unit.extend_from_slice(bytes)?;
    let Ok(found) = unescape(alloc, unit.as_slice()) else {
        return Ok(false);
    };
    let written = escape(alloc, found.as_slice())?;
    Ok(has_payload(unit.as_slice()) && found.as_slice() == payload && written.as_slice() == bytes)
}

fn has_none(alloc: Global, unit: &[u8]) -> bool {
    if unit.is_empty() || has_payload(unit) {
        return false;
    }
    matches!(unescape(alloc, unit), Err(EscapeFault::BadEscape))
}

#[test]
fn payloads_are_escaped(rt: HostRuntime) -> Result<(), Fail> {
    for (payload, bytes) in &PAIRS {
        assert!(rt; are_of(rt.alloc(), bytes, payload)?, "{payload:?}");
    }
    for unit in &BAD {
        assert!(rt; has_none(rt.alloc(), unit), "{unit:?}");
    }
    Ok(())
}
