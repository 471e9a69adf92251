ghost use Rattle.std.specs.Prelude.{◌≡◌, ◌≢◌, ◌<◌, ◌≤◌, ◌⊎◌, ◌+◌, ◌==◌, false, true, IfSome, OnOk, OnSome, OnErr};
ghost use Rattle.binarisation.specs.BinString.{Reads, Writes};
ghost use Rattle.binarisation.specs.MacroblockType.{two_bits, three_bits, intra_parts, intra, type_i, in_i, in_inter, AreContexts, intra_from, type_p, type_b_last, type_b_more, type_b, sub_p, sub_b_more, sub_b};

use crate::codes::{read_up_to_two, write_up_to_two};
use cabac_engine::{BinSink, BinSource};
use std::alloc::AllocError as Memory;

/// Reads one of four numbers, the first of which is `base`.
#[tactic(auto, unfolding(crate::specs::MacroblockType::two_bits))]
fn read_two_bits<S: BinSource>(s: &mut S, high: u16, low: u16, base: u8) -> Option<u8>
    requires going { S.over s.old ≡ false }
    requires high { high < 460 }
    requires low { low < 460 }
    requires base { base ≤ 48 }
    ensures reads { Reads S.step (two_bits high low base) result s.old s.new }
    ensures going { OnSome result (S.over s.new ≡ false) }
    ensures least { IfSome result (λ value. base ≤ value) }
    ensures most { IfSome result (λ value. value ≤ base + 3) }
{
    let first = s.bin(high)?;
    let second = s.bin(low)?;
    Some(base + 2 * u8::from(first) + u8::from(second))
}

/// Writes one of four numbers.
#[tactic(auto, unfolding(crate::specs::MacroblockType::two_bits))]
fn write_two_bits<S: BinSink>(
    s: &mut S,
    high: u16,
    low: u16,
    base: u8,
    value: u8,
) -> Result<(), Memory>
    requires going { S.over s.old ≡ false }
    requires high { high < 460 }
    requires low { low < 460 }
    requires base { base ≤ value }
    requires value { value ≤ base + 3 }
    ensures writes { OnOk result (Writes S.step (two_bits high low base) value s.old s.new) }
    ensures going { OnOk result (S.over s.new ≡ false) }
    ensures err { OnErr result (S.over s.new ≡ true) }
{
    s.bin(high, value - base >= 2)?;
    s.bin(low, (value - base) % 2 == 1)
}

/// Reads one of eight numbers, the first of which is `base`.
#[tactic(auto, unfolding(crate::specs::MacroblockType::three_bits))]
fn read_three_bits<S: BinSource>(s: &mut S, ctx: u16, base: u8) -> Option<u8>
    requires going { S.over s.old ≡ false }
    requires ctx { ctx < 460 }
    requires base { base ≤ 48 }
    ensures reads { Reads S.step (three_bits ctx base) result s.old s.new }
    ensures going { OnSome result (S.over s.new ≡ false) }
    ensures range { IfSome result (λ value. value ≤ base + 7) }
{
    let high = s.bin(ctx)?;
    let middle = s.bin(ctx)?;
    let low = s.bin(ctx)?;
    Some(base + 4 * u8::from(high) + 2 * u8::from(middle) + u8::from(low))
}

/// Writes one of eight numbers.
#[tactic(auto, unfolding(crate::specs::MacroblockType::three_bits))]
fn write_three_bits<S: BinSink>(s: &mut S, ctx: u16, base: u8, value: u8) -> Result<(), Memory>
    requires going { S.over s.old ≡ false }
    requires ctx { ctx < 460 }
    requires base { base ≤ value }
    requires value { value ≤ base + 7 }
    ensures writes { OnOk result (Writes S.step (three_bits ctx base) value s.old s.new) }
    ensures going { OnOk result (S.over s.new ≡ false) }
    ensures err { OnErr result (S.over s.new ≡ true) }
{
    s.bin(ctx, value - base >= 4)?;
    s.bin(ctx, (value - base) / 2 % 2 == 1)?;
    s.bin(ctx, (value - base) % 2 == 1)
}

/// The contexts of the bins of an intra macroblock's type: of the first one, of the bin that says whether all luma levels
/// may be other than 0, of those that say which chroma levels may be, and of Intra16x16PredMode.
#[derive(Clone, Copy)]
struct IntraContexts {
    first: u16,
    luma: u16,
    chroma: u16,
    both: u16,
    high: u16,
    low: u16,
}

/// Those in an I slice.
fn in_i(inc: u8) -> IntraContexts
    requires { inc ≤ 2 }
    ensures { result ≡ in_i inc }
{
    IntraContexts {
        first: 3 + u16::from(inc),
        luma: 6,
        chroma: 7,
        both: 8,
        high: 9,
        low: 10,
    }
}

/// Those in a P or B slice.
fn in_inter(first: u16) -> IntraContexts
    requires { first < 400 }
    ensures { result ≡ in_inter first }
{
    IntraContexts {
        first,
        luma: first + 1,
        chroma: first + 2,
        both: first + 2,
        high: first + 3,
        low: first + 3,
    }
}

/// Reads which chroma levels of an Intra_16x16 macroblock may be other than 0, and its prediction mode.
fn read_intra_parts<S: BinSource>(s: &mut S, c: IntraContexts, base: u8) -> Option<u8>
    requires going { S.over s.old ≡ false }
    requires contexts { AreContexts c }
    requires base { base ≤ 13 }
    ensures reads { Reads S.step (intra_parts c base) result s.old s.new }
    ensures going { OnSome result (S.over s.new ≡ false) }
    ensures least { IfSome result (λ value. base ≤ value) }
    ensures most { IfSome result (λ value. value ≤ base + 11) }
{
    let chroma = read_up_to_two(s, c.chroma, c.both)?;
    read_two_bits(s, c.high, c.low, base + 4 * chroma)
}

fn write_intra_parts<S: BinSink>(
    s: &mut S,
    c: IntraContexts,
    base: u8,
    value: u8,
) -> Result<(), Memory>
    requires going { S.over s.old ≡ false }
    requires contexts { AreContexts c }
    requires least { base ≤ value }
    requires most { value ≤ base + 11 }
    requires base { base ≤ 13 }
    ensures writes { OnOk result (Writes S.step (intra_parts c base) value s.old s.new) }
    ensures going { OnOk result (S.over s.new ≡ false) }
    ensures err { OnErr result (S.over s.new ≡ true) }
{
    let chroma = (value - base) / 4;
    write_up_to_two(s, c.chroma, c.both, chroma)?;
    write_two_bits(s, c.high, c.low, base + 4 * chroma, value)
}

/// Reads the type of an intra macroblock, 0 to 25. After 25, I_PCM, no bin follows.
#[tactic(auto, unfolding(crate::specs::MacroblockType::intra))]
fn read_intra<S: BinSource>(s: &mut S, c: IntraContexts) -> Option<u8>
    requires going { S.over s.old ≡ false }
    requires contexts { AreContexts c }
    ensures reads { Reads S.step (intra c) result s.old s.new }
    ensures over { IfSome result (λ value. S.over s.new ≡ (value == 25)) }
    ensures most { IfSome result (λ value. value ≤ 25) }
{
    if !s.bin(c.first)? {
        return Some(0);
    }
    if s.end()? {
        return Some(25);
    }
    if s.bin(c.luma)? {
        read_intra_parts(s, c, 13)
    } else {
        read_intra_parts(s, c, 1)
    }
}

#[tactic(auto, unfolding(crate::specs::MacroblockType::intra))]
fn write_intra<S: BinSink>(s: &mut S, c: IntraContexts, value: u8) -> Result<(), Memory>
    requires going { S.over s.old ≡ false }
    requires contexts { AreContexts c }
    requires most { value ≤ 25 }
    ensures writes { OnOk result (Writes S.step (intra c) value s.old s.new) }
    ensures over { OnOk result (S.over s.new ≡ (value == 25)) }
    ensures err { OnErr result (S.over s.new ≡ true) }
{
    s.bin(c.first, value != 0)?;
    if value == 0 {
        return Ok(());
    }
    s.end(value == 25)?;
    if value == 25 {
        return Ok(());
    }
    s.bin(c.luma, value >= 13)?;
    if value >= 13 {
        write_intra_parts(s, c, 13, value)
    } else {
        write_intra_parts(s, c, 1, value)
    }
}

/// Reads mb_type in an I slice, 0 to 25. After 25, I_PCM, no bin follows.
pub fn read_type_i<S: BinSource>(s: &mut S, inc: u8) -> Option<u8>
    requires going { S.over s.old ≡ false }
    requires inc { inc ≤ 2 }
    ensures reads { Reads S.step (type_i inc) result s.old s.new }
    ensures over { IfSome result (λ value. S.over s.new ≡ (value == 25)) }
    ensures most { IfSome result (λ value. value ≤ 25) }
{
    read_intra(s, in_i(inc))
}

/// Writes mb_type in an I slice.
pub fn write_type_i<S: BinSink>(s: &mut S, inc: u8, value: u8) -> Result<(), Memory>
    requires going { S.over s.old ≡ false }
    requires inc { inc ≤ 2 }
    requires most { value ≤ 25 }
    ensures writes { OnOk result (Writes S.step (type_i inc) value s.old s.new) }
    ensures over { OnOk result (S.over s.new ≡ (value == 25)) }
    ensures err { OnErr result (S.over s.new ≡ true) }
{
    write_intra(s, in_i(inc), value)
}

/// Reads the type of an intra macroblock in a P or B slice, where the first one has the number `base`.
fn read_intra_from<S: BinSource>(s: &mut S, ctx: u16, base: u8) -> Option<u8>
    requires going { S.over s.old ≡ false }
    requires ctx { ctx < 400 }
    requires base { base ≤ 23 }
    ensures reads { Reads S.step (intra_from ctx base) result s.old s.new }
    ensures over { IfSome result (λ value. S.over s.new ≡ (value == base + 25)) }
    ensures least { IfSome result (λ value. base ≤ value) }
    ensures most { IfSome result (λ value. value ≤ base + 25) }
{
    let number = read_intra(s, in_inter(ctx))?;
    Some(base + number)
}

fn write_intra_from<S: BinSink>(s: &mut S, ctx: u16, base: u8, value: u8) -> Result<(), Memory>
    requires going { S.over s.old ≡ false }
    requires ctx { ctx < 400 }
    requires least { base ≤ value }
    requires most { value ≤ base + 25 }
    ensures writes { OnOk result (Writes S.step (intra_from ctx base) value s.old s.new) }
    ensures over { OnOk result (S.over s.new ≡ (value == base + 25)) }
    ensures err { OnErr result (S.over s.new ≡ true) }
{
    write_intra(s, in_inter(ctx), value - base)
}

/// Reads mb_type in a P slice: 0 to 3, or 5 and the type of an intra macroblock. After 30, I_PCM, no bin follows.
pub fn read_type_p<S: BinSource>(s: &mut S) -> Option<u8>
    requires going { S.over s.old ≡ false }
    ensures reads { Reads S.step type_p result s.old s.new }
    ensures over { IfSome result (λ value. S.over s.new ≡ (value == 30)) }
    ensures most { IfSome result (λ value. value ≤ 30) }
{
    if s.bin(14)? {
        return read_intra_from(s, 17, 5);
    }
    if s.bin(15)? {
        Some(if s.bin(17)? { 1 } else { 2 })
    } else {
        Some(if s.bin(16)? { 3 } else { 0 })
    }
}

/// Writes mb_type in a P slice, other than 4.
pub fn write_type_p<S: BinSink>(s: &mut S, value: u8) -> Result<(), Memory>
    requires going { S.over s.old ≡ false }
    requires most { value ≤ 30 }
    requires sent { value ≢ 4 }
    ensures writes { OnOk result (Writes S.step type_p value s.old s.new) }
    ensures over { OnOk result (S.over s.new ≡ (value == 30)) }
    ensures err { OnErr result (S.over s.new ≡ true) }
{
    s.bin(14, value >= 5)?;
    if value >= 5 {
        return write_intra_from(s, 17, 5, value);
    }
    let is_split = value == 1 || value == 2;
    s.bin(15, is_split)?;
    if is_split {
        s.bin(17, value == 1)
    } else {
        s.bin(16, value == 3)
    }
}

/// Reads what follows the bins 1111 of mb_type in a B slice.
#[tactic(auto, unfolding(crate::specs::MacroblockType::type_b_last))]
fn read_type_b_last<S: BinSource>(s: &mut S) -> Option<u8>
    requires going { S.over s.old ≡ false }
    ensures reads { Reads S.step type_b_last result s.old s.new }
    ensures over { IfSome result (λ value. S.over s.new ≡ (value == 48)) }
    ensures most { IfSome result (λ value. value ≤ 48) }
{
    let third = s.bin(32)?;
    let fourth = s.bin(32)?;
    if third {
        Some(if fourth { 22 } else { 11 })
    } else if fourth {
        read_intra_from(s, 32, 23)
    } else {
        Some(20 + u8::from(s.bin(32)?))
    }
}

/// Reads what follows the bins 11 of mb_type in a B slice.
#[tactic(auto, unfolding(crate::specs::MacroblockType::type_b_more))]
fn read_type_b_more<S: BinSource>(s: &mut S) -> Option<u8>
    requires going { S.over s.old ≡ false }
    ensures reads { Reads S.step type_b_more result s.old s.new }
    ensures over { IfSome result (λ value. S.over s.new ≡ (value == 48)) }
    ensures most { IfSome result (λ value. value ≤ 48) }
{
    if !s.bin(31)? {
        return read_three_bits(s, 32, 3);
    }
    if !s.bin(32)? {
        return read_three_bits(s, 32, 12);
    }
    read_type_b_last(s)
}

/// Reads mb_type in a B slice: 0 to 22, or 23 and the type of an intra macroblock. After 48, I_PCM, no bin follows.
pub fn read_type_b<S: BinSource>(s: &mut S, inc: u8) -> Option<u8>
    requires going { S.over s.old ≡ false }
    requires inc { inc ≤ 2 }
    ensures reads { Reads S.step (type_b inc) result s.old s.new }
    ensures over { IfSome result (λ value. S.over s.new ≡ (value == 48)) }
    ensures most { IfSome result (λ value. value ≤ 48) }
{
    if !s.bin(27 + u16::from(inc))? {
        return Some(0);
    }
    if s.bin(30)? {
        read_type_b_more(s)
    } else {
        Some(1 + u8::from(s.bin(32)?))
    }
}

#[tactic(auto, unfolding(crate::specs::MacroblockType::type_b_last))]
fn write_type_b_last<S: BinSink>(s: &mut S, value: u8) -> Result<(), Memory>
    requires going { S.over s.old ≡ false }
    requires value { value ≡ 11 ⊎ (20 ≤ value × value ≤ 48) }
    ensures writes { OnOk result (Writes S.step type_b_last value s.old s.new) }
    ensures over { OnOk result (S.over s.new ≡ (value == 48)) }
    ensures err { OnErr result (S.over s.new ≡ true) }
{
    let is_split = value == 11 || value == 22;
    s.bin(32, is_split)?;
    s.bin(32, value >= 22)?;
    if is_split {
        return Ok(());
    }
    if value >= 23 {
        write_intra_from(s, 32, 23, value)
    } else {
        s.bin(32, value == 21)
    }
}

#[tactic(auto, unfolding(crate::specs::MacroblockType::type_b_more))]
fn write_type_b_more<S: BinSink>(s: &mut S, value: u8) -> Result<(), Memory>
    requires going { S.over s.old ≡ false }
    requires least { 3 ≤ value }
    requires most { value ≤ 48 }
    ensures writes { OnOk result (Writes S.step type_b_more value s.old s.new) }
    ensures over { OnOk result (S.over s.new ≡ (value == 48)) }
    ensures err { OnErr result (S.over s.new ≡ true) }
{
    if value < 11 {
        s.bin(31, false)?;
        return write_three_bits(s, 32, 3, value);
    }
    s.bin(31, true)?;
    if value != 11 && value < 20 {
        s.bin(32, false)?;
        return write_three_bits(s, 32, 12, value);
    }
    s.bin(32, true)?;
    write_type_b_last(s, value)
}

/// Writes mb_type in a B slice.
pub fn write_type_b<S: BinSink>(s: &mut S, inc: u8, value: u8) -> Result<(), Memory>
    requires going { S.over s.old ≡ false }
    requires inc { inc ≤ 2 }
    requires most { value ≤ 48 }
    ensures writes { OnOk result (Writes S.step (type_b inc) value s.old s.new) }
    ensures over { OnOk result (S.over s.new ≡ (value == 48)) }
    ensures err { OnErr result (S.over s.new ≡ true) }
{
    s.bin(27 + u16::from(inc), value != 0)?;
    if value == 0 {
        return Ok(());
    }
    s.bin(30, value >= 3)?;
    if value >= 3 {
        write_type_b_more(s, value)
    } else {
        s.bin(32, value == 2)
    }
}

/// Reads sub_mb_type in a P slice, 0 to 3.
pub fn read_sub_p<S: BinSource>(s: &mut S) -> Option<u8>
    requires going { S.over s.old ≡ false }
    ensures reads { Reads S.step sub_p result s.old s.new }
    ensures going { OnSome result (S.over s.new ≡ false) }
    ensures most { IfSome result (λ value. value ≤ 3) }
{
    if s.bin(21)? {
        return Some(0);
    }
    if !s.bin(22)? {
        return Some(1);
    }
    Some(if s.bin(23)? { 2 } else { 3 })
}

/// Writes sub_mb_type in a P slice.
pub fn write_sub_p<S: BinSink>(s: &mut S, value: u8) -> Result<(), Memory>
    requires going { S.over s.old ≡ false }
    requires most { value ≤ 3 }
    ensures writes { OnOk result (Writes S.step sub_p value s.old s.new) }
    ensures going { OnOk result (S.over s.new ≡ false) }
    ensures err { OnErr result (S.over s.new ≡ true) }
{
    s.bin(21, value == 0)?;
    if value == 0 {
        return Ok(());
    }
    s.bin(22, value != 1)?;
    if value == 1 {
        return Ok(());
    }
    s.bin(23, value == 2)
}

/// Reads what follows the bins 11 of sub_mb_type in a B slice.
#[tactic(auto, unfolding(crate::specs::MacroblockType::sub_b_more))]
fn read_sub_b_more<S: BinSource>(s: &mut S) -> Option<u8>
    requires going { S.over s.old ≡ false }
    ensures reads { Reads S.step sub_b_more result s.old s.new }
    ensures going { OnSome result (S.over s.new ≡ false) }
    ensures most { IfSome result (λ value. value ≤ 12) }
{
    if !s.bin(38)? {
        return read_two_bits(s, 39, 39, 3);
    }
    if s.bin(39)? {
        Some(11 + u8::from(s.bin(39)?))
    } else {
        read_two_bits(s, 39, 39, 7)
    }
}

/// Reads sub_mb_type in a B slice, 0 to 12.
pub fn read_sub_b<S: BinSource>(s: &mut S) -> Option<u8>
    requires going { S.over s.old ≡ false }
    ensures reads { Reads S.step sub_b result s.old s.new }
    ensures going { OnSome result (S.over s.new ≡ false) }
    ensures most { IfSome result (λ value. value ≤ 12) }
{
    if !s.bin(36)? {
        return Some(0);
    }
    if !s.bin(37)? {
        return Some(1 + u8::from(s.bin(39)?));
    }
    read_sub_b_more(s)
}

#[tactic(auto, unfolding(crate::specs::MacroblockType::sub_b_more))]
fn write_sub_b_more<S: BinSink>(s: &mut S, value: u8) -> Result<(), Memory>
    requires going { S.over s.old ≡ false }
    requires least { 3 ≤ value }
    requires most { value ≤ 12 }
    ensures writes { OnOk result (Writes S.step sub_b_more value s.old s.new) }
    ensures going { OnOk result (S.over s.new ≡ false) }
    ensures err { OnErr result (S.over s.new ≡ true) }
{
    s.bin(38, value >= 7)?;
    if value < 7 {
        return write_two_bits(s, 39, 39, 3, value);
    }
    s.bin(39, value >= 11)?;
    if value < 11 {
        write_two_bits(s, 39, 39, 7, value)
    } else {
        s.bin(39, value == 12)
    }
}

/// Writes sub_mb_type in a B slice.
pub fn write_sub_b<S: BinSink>(s: &mut S, value: u8) -> Result<(), Memory>
    requires going { S.over s.old ≡ false }
    requires most { value ≤ 12 }
    ensures writes { OnOk result (Writes S.step sub_b value s.old s.new) }
    ensures going { OnOk result (S.over s.new ≡ false) }
    ensures err { OnErr result (S.over s.new ≡ true) }
{
    s.bin(36, value != 0)?;
    if value == 0 {
        return Ok(());
    }
    s.bin(37, value >= 3)?;
    if value < 3 {
        return s.bin(39, value == 2);
    }
    write_sub_b_more(s, value)
}
