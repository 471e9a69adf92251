ghost use Rattle.std.specs.Prelude.{◌≡◌, ◌<◌, ◌++◌, List, Bool};
ghost use Rattle.bit_texts.specs.Bits.{binary};
ghost use Rattle.code_tables.specs.Codes.{BeginsWith, code_at, present};
ghost use Rattle.code_tables.specs.Groups.{group, group_count};
ghost use Rattle.code_tables.specs.declared.table.Groups.TheVariants.{ByZeros, OfSixBits};

use crate::places::PLACES_8;
use std::marker::Model;

/// A code word: its number of bits, and their value, the first bit being the most significant one.
/// An absent entry of a table has no bits.
pub type Code = (u8, u16);

/// How the texts of many bits are put into groups by their first bits.
#[derive(Clone, Copy)]
pub enum Groups {
    /// By the zero bits before the first 1, counted up to 15, and the three bits behind it.
    ByZeros,
    /// By the first six bits.
    OfSixBits,
}

/// A table of code words, none of which begins another one. It is seen as the list of its entries.
#[derive(Drop)]
pub struct CodeTable {
    codes: &'static [Code],
    groups: Groups,
    /// For each group, the place of the code word that its texts begin with. Where they begin with none, no entry
    /// stands at that place.
    places: &'static [u8],
}

impl Model for CodeTable {
    ghost use Rattle.std.specs.Prelude.{List};
    ghost use Rattle.code_tables.specs.Codes.{Code, IsCodeTable};
    ghost use Rattle.code_tables.specs.Groups.{Locates};

    ghost Value = { List Code };

    ghost view = { λ s. s.codes.now };

    ghost invariant = { λ s. IsCodeTable s.codes.now × Locates s.groups s.places.now s.codes.now };
}

impl CodeTable {
    ghost use Rattle.std.specs.Prelude.{◌≡◌, [], IfSome, option_map};
    ghost use Rattle.bit_texts.specs.Bits.{binary};
    ghost use Rattle.code_tables.specs.Codes.{BeginsWith, IsCodeTable, code_at, present};
    ghost use Rattle.code_tables.specs.Groups.{Locates};

    /// The table of these entries, with the places of the groups' code words.
    pub(crate) fn new(codes: &'static [Code], groups: Groups, places: &'static [u8]) -> CodeTable
        requires table { IsCodeTable codes.now }
        requires places { Locates groups places.now codes.now }
        ensures { result ≡ codes.now }
    {
        CodeTable {
            codes,
            groups,
            places,
        }
    }

    /// The table without entries.
    pub(crate) fn empty() -> CodeTable
        ensures { result ≡ [] }
    {
        CodeTable::new(&[], Groups::OfSixBits, &PLACES_8)
    }

    /// The entry at a place, if there is one.
    pub fn code(&self, place: usize) -> Option<Code>
        ensures { result ≡ present (code_at self.now place) }
    {
        entry_at(self.codes, place)
    }

    /// The place of the code word that the next 64 bits, the first one on top, begin with.
    /// None where they begin with no code word of the table.
    pub fn next(&self, window: u64) -> Option<u8>
        ensures { BeginsWith self.now (binary 64 window) result }
    {
        let (place, _length) = self.next_code(window)?;
        Some(place)
    }

    /// The place of the code word that the next 64 bits begin with, as `next` tells it, and its number of bits.
    pub fn next_code(&self, window: u64) -> Option<(u8, u8)>
        ensures begins { BeginsWith self.now (binary 64 window) (option_map (λ c. c.0) result) }
        ensures length { IfSome result (λ c. c.1 ≡ (code_at self.now c.0).0) }
    {
        let place = self.places[group_of(self.groups, window)];
        let (length, _value) = entry_at(self.codes, usize::from(place))?;
        Some((place, length))
    }
}

/// The entry at a place of a list, if there is one.
fn entry_at(codes: &[Code], place: usize) -> Option<Code>
    ensures { result ≡ present (code_at codes.now place) }
{
    let code = *codes.get(place)?;
    if code.0 == 0 { None } else { Some(code) }
}

/// The group of the next 64 bits.
fn group_of(groups: Groups, window: u64) -> usize
    ensures in_range { result < group_count groups }
    ensures begins { (more : List Bool) × (binary 64 window ≡ group groups result ++ more) }
{
    match groups {
        Groups::ByZeros => zeros_group(window),
        Groups::OfSixBits => (window >> 58) as usize,
    }
}

/// The group by the zero bits before the first 1, and the three bits behind it.
fn zeros_group(window: u64) -> usize
    ensures in_range { result < group_count ByZeros }
    ensures begins { (more : List Bool) × (binary 64 window ≡ group ByZeros result ++ more) }
{
    let zeros = window.leading_zeros().min(15);
    let behind = (window >> (60 - zeros)) % 8;
    8 * zeros as usize + behind as usize
}
