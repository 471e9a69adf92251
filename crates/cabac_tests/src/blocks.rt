//! Residual blocks as bins (7.3.5.3.3, with the contexts of 9.3.3.1.3).
ghost use Rattle.std.specs.Prelude.{◌≡◌, ◌≤◌, false, IfOk, pos, length, replicate};
ghost use Rattle.cabac_residual.specs.Block.{AreLevels};
ghost use Rattle.cabac_residual.specs.Contexts.{IsShape};

use crate::bins::{Bins, Kind};
use Kind::{Bypass, Context};
use cabac_residual::{read_block, read_levels, write_block, write_levels};
use h264_types::Levels;
use std::alloc::{AllocError as Memory, Global};
use std::test::Fail;

/// The bins of a block, to be read.
fn written(
    alloc: Global,
    cat: u8,
    field: bool,
    flag_inc: u8,
    levels: &[i32],
) -> Result<Bins, Memory>
    requires shape { IsShape cat (length levels.now) }
    requires inc { flag_inc ≤ 3 }
    requires small { AreLevels levels.now }
    requires some { cat ≡ 5 → levels.now ≡ replicate (length levels.now) (pos 0) → ⊥ }
    ensures { IfOk result (λ bins. bins.is_over ≡ false) }
{
    let mut bins = Bins::new(alloc);
    write_levels(&mut bins, cat, field, flag_inc, levels)?;
    Ok(bins.again())
}

/// A level of 16: coded_block_flag, the map, fourteen ones of the level, and its suffix and sign.
static SIXTEEN: [(Kind, bool); 21] = [
    (Context(99), true),
    (Context(149), true),
    (Context(210), true),
    (Context(258), true),
    (Context(262), true),
    (Context(262), true),
    (Context(262), true),
    (Context(262), true),
    (Context(262), true),
    (Context(262), true),
    (Context(262), true),
    (Context(262), true),
    (Context(262), true),
    (Context(262), true),
    (Context(262), true),
    (Context(262), true),
    (Context(262), true),
    (Bypass, true),
    (Bypass, false),
    (Bypass, false),
    (Bypass, false),
];

#[test]
fn a_level_of_sixteen(rt: HostRuntime) -> Result<(), Fail> {
    let levels = [16, 0, 0, 0];
    let mut bins = written(rt.alloc(), 3, false, 2, &levels)?;
    assert!(rt; bins.is_list(&SIXTEEN));
    let mut read = [7; 4];
    assert!(rt; read_levels(&mut bins, 3, false, 2, &mut read).is_some());
    assert!(rt; read == levels && bins.is_read());
    Ok(())
}

static LAST_PLACE: [(Kind, bool); 6] = [
    (Context(97), true),
    (Context(321), false),
    (Context(322), false),
    (Context(323), false),
    (Context(258), false),
    (Bypass, true),
];

#[test]
fn a_level_at_the_last_place(rt: HostRuntime) -> Result<(), Fail> {
    let mut levels = Levels::new();
    levels.push(0);
    levels.push(0);
    levels.push(0);
    levels.push(-1);
    let mut bins = Bins::new(rt.alloc());
    write_block(&mut bins, 3, &levels, true, 0)?;
    assert!(rt; bins.is_list(&LAST_PLACE));
    match read_block(&mut bins.again(), 3, 4, true, 0) {
        Some(read) => assert!(rt; read.as_slice() == levels.as_slice()),
        None => assert!(rt; false),
    }
    Ok(())
}

/// In a frame macroblock, and in a field one.
static LONG: [[(Kind, bool); 4]; 2] = [
    [
        (Context(402), true),
        (Context(417), true),
        (Context(427), false),
        (Bypass, true),
    ],
    [
        (Context(436), true),
        (Context(451), true),
        (Context(427), false),
        (Bypass, true),
    ],
];

#[test]
fn a_block_of_64_has_no_flag(rt: HostRuntime) -> Result<(), Fail> {
    let mut levels = [0; 64];
    levels[0] = -1;
    let frame = written(rt.alloc(), 5, false, 0, &levels)?;
    assert!(rt; frame.is_list(&LONG[0]));
    let field = written(rt.alloc(), 5, true, 0, &levels)?;
    assert!(rt; field.is_list(&LONG[1]));
    Ok(())
}
