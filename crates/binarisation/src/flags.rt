ghost use Rattle.std.specs.Prelude.{◌≡◌, ◌≤◌, false, true, IfSome, OnOk, OnSome, OnErr};
ghost use Rattle.binarisation.specs.BinString.{Reads, Writes};
ghost use Rattle.binarisation.specs.Elements.{skip_p, skip_b, field, t8, end_of_slice, mode_flag, pattern_luma};

use cabac_engine::{BinSink, BinSource};
use std::alloc::AllocError as Memory;

/// Reads mb_skip_flag in a P slice.
pub fn read_skip_p<S: BinSource>(s: &mut S, inc: u8) -> Option<bool>
    requires going { S.over s.old ≡ false }
    requires inc { inc ≤ 2 }
    ensures reads { Reads S.step (skip_p inc) result s.old s.new }
    ensures going { OnSome result (S.over s.new ≡ false) }
{
    s.bin(11 + u16::from(inc))
}

/// Writes mb_skip_flag in a P slice.
pub fn write_skip_p<S: BinSink>(s: &mut S, inc: u8, value: bool) -> Result<(), Memory>
    requires going { S.over s.old ≡ false }
    requires inc { inc ≤ 2 }
    ensures writes { OnOk result (Writes S.step (skip_p inc) value s.old s.new) }
    ensures going { OnOk result (S.over s.new ≡ false) }
    ensures err { OnErr result (S.over s.new ≡ true) }
{
    s.bin(11 + u16::from(inc), value)
}

/// Reads mb_skip_flag in a B slice.
pub fn read_skip_b<S: BinSource>(s: &mut S, inc: u8) -> Option<bool>
    requires going { S.over s.old ≡ false }
    requires inc { inc ≤ 2 }
    ensures reads { Reads S.step (skip_b inc) result s.old s.new }
    ensures going { OnSome result (S.over s.new ≡ false) }
{
    s.bin(24 + u16::from(inc))
}

/// Writes mb_skip_flag in a B slice.
pub fn write_skip_b<S: BinSink>(s: &mut S, inc: u8, value: bool) -> Result<(), Memory>
    requires going { S.over s.old ≡ false }
    requires inc { inc ≤ 2 }
    ensures writes { OnOk result (Writes S.step (skip_b inc) value s.old s.new) }
    ensures going { OnOk result (S.over s.new ≡ false) }
    ensures err { OnErr result (S.over s.new ≡ true) }
{
    s.bin(24 + u16::from(inc), value)
}

/// Reads mb_field_decoding_flag.
pub fn read_field<S: BinSource>(s: &mut S, inc: u8) -> Option<bool>
    requires going { S.over s.old ≡ false }
    requires inc { inc ≤ 2 }
    ensures reads { Reads S.step (field inc) result s.old s.new }
    ensures going { OnSome result (S.over s.new ≡ false) }
{
    s.bin(70 + u16::from(inc))
}

/// Writes mb_field_decoding_flag.
pub fn write_field<S: BinSink>(s: &mut S, inc: u8, value: bool) -> Result<(), Memory>
    requires going { S.over s.old ≡ false }
    requires inc { inc ≤ 2 }
    ensures writes { OnOk result (Writes S.step (field inc) value s.old s.new) }
    ensures going { OnOk result (S.over s.new ≡ false) }
    ensures err { OnErr result (S.over s.new ≡ true) }
{
    s.bin(70 + u16::from(inc), value)
}

/// Reads transform_size_8x8_flag.
pub fn read_t8<S: BinSource>(s: &mut S, inc: u8) -> Option<bool>
    requires going { S.over s.old ≡ false }
    requires inc { inc ≤ 2 }
    ensures reads { Reads S.step (t8 inc) result s.old s.new }
    ensures going { OnSome result (S.over s.new ≡ false) }
{
    s.bin(399 + u16::from(inc))
}

/// Writes transform_size_8x8_flag.
pub fn write_t8<S: BinSink>(s: &mut S, inc: u8, value: bool) -> Result<(), Memory>
    requires going { S.over s.old ≡ false }
    requires inc { inc ≤ 2 }
    ensures writes { OnOk result (Writes S.step (t8 inc) value s.old s.new) }
    ensures going { OnOk result (S.over s.new ≡ false) }
    ensures err { OnErr result (S.over s.new ≡ true) }
{
    s.bin(399 + u16::from(inc), value)
}

/// Reads prev_intra4x4_pred_mode_flag.
pub fn read_mode_flag<S: BinSource>(s: &mut S) -> Option<bool>
    requires going { S.over s.old ≡ false }
    ensures reads { Reads S.step mode_flag result s.old s.new }
    ensures going { OnSome result (S.over s.new ≡ false) }
{
    s.bin(68)
}

/// Writes prev_intra4x4_pred_mode_flag.
pub fn write_mode_flag<S: BinSink>(s: &mut S, value: bool) -> Result<(), Memory>
    requires going { S.over s.old ≡ false }
    ensures writes { OnOk result (Writes S.step mode_flag value s.old s.new) }
    ensures going { OnOk result (S.over s.new ≡ false) }
    ensures err { OnErr result (S.over s.new ≡ true) }
{
    s.bin(68, value)
}

/// Reads the bit of coded_block_pattern for a luma quarter.
pub fn read_pattern_luma<S: BinSource>(s: &mut S, inc: u8) -> Option<bool>
    requires going { S.over s.old ≡ false }
    requires inc { inc ≤ 3 }
    ensures reads { Reads S.step (pattern_luma inc) result s.old s.new }
    ensures going { OnSome result (S.over s.new ≡ false) }
{
    s.bin(73 + u16::from(inc))
}

/// Writes the bit of coded_block_pattern for a luma quarter.
pub fn write_pattern_luma<S: BinSink>(s: &mut S, inc: u8, value: bool) -> Result<(), Memory>
    requires going { S.over s.old ≡ false }
    requires inc { inc ≤ 3 }
    ensures writes { OnOk result (Writes S.step (pattern_luma inc) value s.old s.new) }
    ensures going { OnOk result (S.over s.new ≡ false) }
    ensures err { OnErr result (S.over s.new ≡ true) }
{
    s.bin(73 + u16::from(inc), value)
}

/// Reads end_of_slice_flag. After one that is 1 no bin follows.
pub fn read_end_of_slice<S: BinSource>(s: &mut S) -> Option<bool>
    requires going { S.over s.old ≡ false }
    ensures reads { Reads S.step end_of_slice result s.old s.new }
    ensures over { IfSome result (λ last. S.over s.new ≡ last) }
{
    s.end()
}

/// Writes end_of_slice_flag. After one that is 1 no bin follows.
pub fn write_end_of_slice<S: BinSink>(s: &mut S, value: bool) -> Result<(), Memory>
    requires going { S.over s.old ≡ false }
    ensures writes { OnOk result (Writes S.step end_of_slice value s.old s.new) }
    ensures over { OnOk result (S.over s.new ≡ value) }
    ensures err { OnErr result (S.over s.new ≡ true) }
{
    s.end(value)
}
