//! Segments of the arithmetic code (9.3.1.2, 9.3.4), worked out by hand, where each context bin has a cell of its own.
use Coded::{Bypass, Context, End};
use cabac_engine::{Cell, Decoder, Encoder};
use exp_golomb::{BitSink, BitSource, BitVec, SliceBits};
use std::alloc::{AllocError as Memory, Global};
use std::test::Fail;

const FRESH: Cell = Cell { p: 0, mps: true };

/// A bin to be encoded.
#[derive(Clone, Copy)]
enum Coded {
    Context(bool),
    Bypass(bool),
    End(bool),
}

/// Bits with zero bits up to a byte boundary.
pub fn filled(bits: BitVec) -> Result<Option<Vec<u8>>, Memory> {
    let mut bits = bits;
    for _i in 0..7 {
        if !bits.aligned() {
            bits.put(false)?;
        }
    }
    if bits.aligned() {
        Ok(Some(bits.into_bytes()))
    } else {
        Ok(None)
    }
}

/// The bytes of a segment of these bins.
fn encoded(alloc: Global, bins: &[Coded]) -> Result<Option<Vec<u8>>, Memory> {
    let mut encoder = Encoder::start(alloc, BitVec::new(alloc));
    for bin in bins {
        match *bin {
            Context(bit) => {
                let mut cell = FRESH;
                encoder.bin(&mut cell, bit)?;
            }
            Bypass(bit) => encoder.bypass(bit)?,
            End(false) => encoder.end(false)?,
            End(true) => {
                encoder.end(true)?;
                return Ok(filled(encoder.close()?)?);
            }
        }
    }
    Ok(None)
}

/// Bins, and the bytes of their segment.
static SEGMENTS: [(&[Coded], [u8; 2]); 4] = [
    // 111111101
    (&[End(true)], [0xFE, 0x80]),
    // 100001101
    (&[Context(true), End(true)], [0x86, 0x80]),
    // low and range after the bypass bin are 510, so the code is 1018 or 1019: 1111111011
    (&[Bypass(true), End(true)], [0xFE, 0xC0]),
    // bits that are outstanding: 0111010111111111
    (
        &[
            Context(true),
            End(false),
            Context(false),
            Context(false),
            Context(true),
            Context(false),
            Context(false),
            Context(false),
            Context(false),
            End(true),
        ],
        [0x75, 0xFF],
    ),
];

fn is_segment(alloc: Global, bins: &[Coded], bytes: &[u8; 2]) -> Result<bool, Memory> {
    match encoded(alloc, bins)? {
        Some(segment) => Ok(segment.as_slice() == bytes.as_slice()),
        None => Ok(false),
    }
}

#[test]
fn segments_are_encoded(rt: HostRuntime) -> Result<(), Fail> {
    for (bins, bytes) in &SEGMENTS {
        assert!(rt; is_segment(rt.alloc(), bins, bytes)?);
    }
    Ok(())
}

/// Eight bits, and nine bits that are 510 and 511.
static NO_SEGMENTS: [&[u8]; 3] = [&[0xFF], &[0xFF, 0x00], &[0xFF, 0x80]];

#[test]
fn segments_are_refused(rt: HostRuntime) {
    for bytes in &NO_SEGMENTS {
        assert!(rt; Decoder::start(SliceBits::new(bytes)).is_err());
    }
}

/// A context bin 1, the end, and seven bits behind: 100001101.
#[test]
fn a_context_bin_is_decoded(rt: HostRuntime) {
    match Decoder::start(SliceBits::new(&[0x86, 0x80])) {
        Err(_) => assert!(rt; false),
        Ok(mut decoder) => {
            let first = decoder.bin(&mut FRESH);
            assert!(rt; first == Some(true));
            if first.is_some() {
                assert!(rt; decoder.end() == Some(true));
            }
            let mut rest = decoder.into_bits();
            assert!(rt; rest.skip(7) && rest.bit().is_none());
        }
    }
}

#[test]
fn a_bypass_bin_is_decoded(rt: HostRuntime) {
    match Decoder::start(SliceBits::new(&[0xFE, 0xC0])) {
        Err(_) => assert!(rt; false),
        Ok(mut decoder) => {
            let first = decoder.bypass();
            assert!(rt; first == Some(true));
            if first.is_some() {
                assert!(rt; decoder.end() == Some(true));
            }
        }
    }
}
