//! Residual blocks in CAVLC (9.2): worked texts, and the levels at the end of the escape.
ghost use Rattle.std.specs.Prelude.{◌≤◌};

use cavlc_residual::{BlockFault, read_block, read_levels, write_block, write_levels};
use exp_golomb::{BitSink, BitVec, SliceBits};
use h264_types::Levels;
use std::alloc::Global;
use std::test::Fail;

/// The bytes of a block with one level, at its first place, filled up with zero bits; none where the level is beyond the
/// bound.
fn text_of(alloc: Global, level: u16, bound: u8) -> Result<Option<Vec<u8>>, Fail>
    requires { bound ≤ 20 }
{
    let mut levels = [0; 16];
    levels[0] = i32::from(level);
    let mut bits = BitVec::new(alloc);
    match write_levels(&mut bits, 0, &levels, bound) {
        Ok(()) => {}
        Err(BlockFault::Beyond) => return Ok(None),
        Err(fault) => return Err(fault.into()),
    }
    for _zero in 0..7u8 {
        if !bits.aligned() {
            bits.put(false)?;
        }
    }
    if bits.aligned() {
        return Ok(Some(bits.into_bytes()));
    }
    Ok(None)
}

/// The greatest level of level_prefix 15, and the first one of level_prefix 16, which is refused where 15 is the bound.
static ESCAPES: [(u16, u8, &[u8]); 3] = [
    (2064, 15, &[0x14, 0x00, 0x07, 0xff, 0xa0]),
    (2065, 15, &[]),
    (2065, 20, &[0x14, 0x00, 0x02, 0x00, 0x08]),
];

#[test]
fn levels_at_the_end_of_the_escape(rt: HostRuntime) -> Result<(), Fail> {
    for (level, bound, wanted) in &ESCAPES {
        assert!(rt; *bound <= 20);
        match text_of(rt.alloc(), *level, *bound)? {
            Some(text) => assert!(rt; text.as_slice() == *wanted),
            None => assert!(rt; wanted.is_empty()),
        }
    }
    Ok(())
}

/// A text of nC 0 is that of these levels.
fn is_text(text: &[u8], total: u8, levels: &[i32; 16]) -> bool {
    let mut read = [7; 16];
    let answer = read_levels(&mut SliceBits::new(text), 0, &mut read, 15);
    if answer != Some(total) || read != *levels {
        return false;
    }
    match read_block(&mut SliceBits::new(text), 0, 16, 15) {
        Some(block) => block.as_slice() == levels.as_slice(),
        None => false,
    }
}

/// The bytes of a text of nC 0, TotalCoeff, and the levels.
static TEXTS: [(&[u8], u8, [i32; 16]); 4] = [
    (
        &[0x08, 0xe5, 0xed],
        5,
        [0, 3, 0, 1, -1, -1, 0, 1, 0, 0, 0, 0, 0, 0, 0, 0],
    ),
    (
        &[0x01, 0xa2, 0x42, 0xe6, 0x00],
        5,
        [-2, 4, 3, -3, 0, 0, -1, 0, 0, 0, 0, 0, 0, 0, 0, 0],
    ),
    (
        &[0x1c, 0x72],
        3,
        [0, 0, 0, 1, 0, 1, 0, 0, 0, -1, 0, 0, 0, 0, 0, 0],
    ),
    (
        &[0x14, 0x00, 0x07, 0xff, 0xa0],
        1,
        [2064, 0, 0, 0, 0, 0, 0, 0, 0, 0, 0, 0, 0, 0, 0, 0],
    ),
];

#[test]
fn texts_are_read(rt: HostRuntime) {
    for (text, total, levels) in &TEXTS {
        assert!(rt; is_text(text, *total, levels));
    }
}

/// A level_prefix of 16, and a text that is cut short.
#[test]
fn texts_are_refused(rt: HostRuntime) {
    let beyond = [0x14, 0x00, 0x02, 0x00, 0x08];
    assert!(rt; read_block(&mut SliceBits::new(&beyond), 0, 16, 15).is_none());
    assert!(rt; read_block(&mut SliceBits::new(&beyond), 0, 16, 20).is_some());
    assert!(rt; read_block(&mut SliceBits::new(&[0x08, 0xe5]), 0, 16, 15).is_none());
}

#[test]
fn a_list_of_levels_is_written(rt: HostRuntime) -> Result<(), Fail> {
    let mut levels = Levels::new();
    levels.push(1);
    levels.push(0);
    levels.push(0);
    levels.push(0);
    let mut bits = BitVec::new(rt.alloc());
    write_block(&mut bits, -1, &levels, 15)?;
    // 1, the sign 0, and total_zeros 1
    bits.put_bits(0, 5)?;
    if bits.aligned() {
        assert_eq!(rt; bits.into_bytes().as_slice(), [0xa0].as_slice());
    } else {
        assert!(rt; false);
    }
    Ok(())
}
