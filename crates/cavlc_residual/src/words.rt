ghost use Rattle.std.specs.Prelude.{◌≡◌, ◌<◌, ◌≤◌, ◌^◌, ◌++◌};
ghost use Rattle.bit_texts.specs.Bits.{binary};
ghost use Rattle.bit_texts.specs.Texts.{Appends, Reads};
ghost use Rattle.code_tables.specs.Codes.{IsCodeTable, IsEntry, word_at};

use code_tables::CodeTable;
use exp_golomb::{BitSink, BitSource};
use std::alloc::AllocError as Memory;

/// Reads a code word of the table: its place. None exactly where no word of the table begins the bits left.
#[inline(always)]
pub fn read_code<B: BitSource>(b: &mut B, table: &CodeTable) -> Option<u8>
    requires { IsCodeTable table.now }
    ensures reads { Reads (IsEntry table.now) (word_at table.now) (B.left b.old) result (B.left b.new) }
    ensures kept { B.taken b.new ++ B.left b.new ≡ B.taken b.old ++ B.left b.old }
{
    let (place, length) = table.next_code(b.window())?;
    if !b.skip(length) {
        return None;
    }
    Some(place)
}

/// Appends the code word at a place of a table, or nothing where there is none.
#[inline(always)]
pub fn write_code<B: BitSink>(b: &mut B, table: &CodeTable, place: usize) -> Result<(), Memory>
    requires { IsCodeTable table.now }
    ensures { Appends (B.bits b.old) (B.bits b.new) (word_at table.now place) result }
{
    match table.code(place) {
        Some((length, value)) => b.put_bits(u64::from(value), length),
        None => Ok(()),
    }
}

/// Appends the code word at a place of a table, or nothing where there is none, and the n bits of a value behind it.
#[inline(always)]
pub fn write_code_and<B: BitSink>(
    b: &mut B,
    table: &CodeTable,
    place: usize,
    value: u64,
    n: u8,
) -> Result<(), Memory>
    requires table { IsCodeTable table.now }
    requires few { n ≤ 3 }
    requires fits { value < 2 ^ n }
    ensures { Appends (B.bits b.old) (B.bits b.new) (word_at table.now place ++ binary n value) result }
{
    match table.code(place) {
        Some((length, word)) => b.put_bits((u64::from(word) << n) + value, length + n),
        None => b.put_bits(value, n),
    }
}
