ghost use Rattle.std.specs.Prelude.{◌≡◌, ◌<◌, ◌≤◌, ◌≤ℤ◌, pos, negsuc, false, true, OnOk, OnSome, OnErr};
ghost use Rattle.binarisation.specs.BinString.{Reads, Writes};
ghost use Rattle.binarisation.specs.Elements.{mvd};

use crate::ueg::{read_signed, read_ueg, write_signed, write_ueg};
use cabac_engine::{BinSink, BinSource};
use std::alloc::AllocError as Memory;

/// Reads a vector difference, -32767 to 32767.
fn read_mvd<S: BinSource>(s: &mut S, ctx: u16, inc: u8) -> Option<i32>
    requires going { S.over s.old ≡ false }
    requires ctx { ctx < 400 }
    requires inc { inc ≤ 2 }
    ensures reads { Reads S.step (mvd ctx inc) result s.old s.new }
    ensures going { OnSome result (S.over s.new ≡ false) }
{
    let contexts = [ctx + u16::from(inc), ctx + 3, ctx + 4, ctx + 5, ctx + 6];
    let magnitude = read_ueg(s, &contexts, 9, 3, 12)?;
    read_signed(s, magnitude, 32767)
}

/// Writes a vector difference.
fn write_mvd<S: BinSink>(s: &mut S, ctx: u16, inc: u8, value: i32) -> Result<(), Memory>
    requires going { S.over s.old ≡ false }
    requires ctx { ctx < 400 }
    requires inc { inc ≤ 2 }
    requires least { negsuc 32766 ≤ℤ value }
    requires greatest { value ≤ℤ pos 32767 }
    ensures writes { OnOk result (Writes S.step (mvd ctx inc) value s.old s.new) }
    ensures going { OnOk result (S.over s.new ≡ false) }
    ensures err { OnErr result (S.over s.new ≡ true) }
{
    let contexts = [ctx + u16::from(inc), ctx + 3, ctx + 4, ctx + 5, ctx + 6];
    let magnitude = value.unsigned_abs();
    write_ueg(s, &contexts, 9, 3, 12, magnitude)?;
    write_signed(s, magnitude, 32767, value < 0)
}

/// Reads the horizontal component of mvd_l0 or mvd_l1, -32767 to 32767.
pub fn read_mvd_x<S: BinSource>(s: &mut S, inc: u8) -> Option<i32>
    requires going { S.over s.old ≡ false }
    requires inc { inc ≤ 2 }
    ensures reads { Reads S.step (mvd 40 inc) result s.old s.new }
    ensures going { OnSome result (S.over s.new ≡ false) }
{
    read_mvd(s, 40, inc)
}

/// Writes the horizontal component of mvd_l0 or mvd_l1.
pub fn write_mvd_x<S: BinSink>(s: &mut S, inc: u8, value: i32) -> Result<(), Memory>
    requires going { S.over s.old ≡ false }
    requires inc { inc ≤ 2 }
    requires least { negsuc 32766 ≤ℤ value }
    requires greatest { value ≤ℤ pos 32767 }
    ensures writes { OnOk result (Writes S.step (mvd 40 inc) value s.old s.new) }
    ensures going { OnOk result (S.over s.new ≡ false) }
    ensures err { OnErr result (S.over s.new ≡ true) }
{
    write_mvd(s, 40, inc, value)
}

/// Reads the vertical component of mvd_l0 or mvd_l1, -32767 to 32767.
pub fn read_mvd_y<S: BinSource>(s: &mut S, inc: u8) -> Option<i32>
    requires going { S.over s.old ≡ false }
    requires inc { inc ≤ 2 }
    ensures reads { Reads S.step (mvd 47 inc) result s.old s.new }
    ensures going { OnSome result (S.over s.new ≡ false) }
{
    read_mvd(s, 47, inc)
}

/// Writes the vertical component of mvd_l0 or mvd_l1.
pub fn write_mvd_y<S: BinSink>(s: &mut S, inc: u8, value: i32) -> Result<(), Memory>
    requires going { S.over s.old ≡ false }
    requires inc { inc ≤ 2 }
    requires least { negsuc 32766 ≤ℤ value }
    requires greatest { value ≤ℤ pos 32767 }
    ensures writes { OnOk result (Writes S.step (mvd 47 inc) value s.old s.new) }
    ensures going { OnOk result (S.over s.new ≡ false) }
    ensures err { OnErr result (S.over s.new ≡ true) }
{
    write_mvd(s, 47, inc, value)
}
