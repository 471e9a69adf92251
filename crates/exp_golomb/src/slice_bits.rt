ghost use Rattle.std.specs.Prelude.{◌≡◌, ◌+◌, ◌-◌, ◌*◌, ◌/◌, ◌%◌, ◌^◌, ◌<◌, drop, slice_index_or};
ghost use Rattle.std.specs.List.{list_any};
ghost use Rattle.bit_texts.specs.Bits.{number, first, bits_of};

use crate::source::BitSource;
use std::marker::Model;

/// The bits of a slice of bytes, the most significant of each byte first. Reading takes no memory.
#[derive(Drop)]
pub struct SliceBits<'a> {
    bytes: &'a [u8],
    /// The place of the byte that holds the next bit.
    place: usize,
    /// How many bits of that byte were taken.
    used: u8,
}

impl<'a> Model for SliceBits<'a> {
    ghost use Rattle.std.specs.Prelude.{◌+◌, ◌*◌, ◌<◌, ◌≤◌, length};
    ghost use Rattle.bit_texts.specs.Bits.{bits_of};
    ghost use Rattle.exp_golomb.specs.Bitstream.{Bitstream, pointed};

    ghost Value = { Bitstream };

    ghost view = { λ s. pointed (8 * s.place + s.used) (bits_of s.bytes.now) };

    ghost invariant = { λ s. (s.used < 8) × (8 * s.place + s.used ≤ 8 * length s.bytes.now) };
}

impl<'a> SliceBits<'a> {
    ghost use Rattle.std.specs.Prelude.{◌≡◌, [], ◌++◌};
    ghost use Rattle.bit_texts.specs.Bits.{bits_of};

    /// All bits of these bytes, with none taken.
    pub fn new(bytes: &'a [u8]) -> Self
        ensures left { result.left ≡ bits_of bytes.now }
        ensures taken { result.taken ≡ [] }
    {
        SliceBits {
            bytes,
            place: 0,
            used: 0,
        }
    }

    /// The same bits, of which as many are taken.
    pub fn again(&self) -> SliceBits<'a>
        ensures { result ≡ self.now }
    {
        SliceBits {
            bytes: self.bytes,
            place: self.place,
            used: self.used,
        }
    }

    /// The bytes that all its bits are.
    pub fn bytes(&self) -> &'a [u8]
        ensures { bits_of result.now ≡ self.now.taken ++ self.now.left }
    {
        self.bytes
    }
}

impl BitSource for SliceBits<'_> {
    ghost left = { λ s. s.left };

    ghost taken = { λ s. s.taken };

    #[inline(always)]
    fn bit(&mut self) -> Option<bool> {
        if self.place == self.bytes.len() {
            return None;
        }
        let bit = self.bytes[self.place] >> (7 - self.used) & 1 == 1;
        if self.used == 7 {
            self.place += 1;
            self.used = 0;
        } else {
            self.used += 1;
        }
        Some(bit)
    }

    fn aligned(&self) -> bool {
        self.used == 0
    }

    fn last_taken(&self) -> bool {
        if self.used > 0 {
            return self.bytes[self.place] >> (8 - self.used) & 1 == 1;
        }
        if self.place > 0 {
            return self.bytes[self.place - 1] & 1 == 1;
        }
        false
    }

    fn more_rbsp_data(&self) -> bool {
        let left = &self.bytes[self.place..];
        let [first, rest @ ..] = left else {
            return false;
        };
        let others = *first % (1 << (7 - self.used));
        others != 0 || any_one(rest)
    }

    #[inline(always)]
    fn window(&self) -> u64 {
        window_of(&self.bytes[self.place..], self.used)
    }

    #[inline(always)]
    fn skip(&mut self, n: u8) -> bool {
        let bits = self.used + n;
        if usize::from((bits + 7) / 8) > self.bytes.len() - self.place {
            return false;
        }
        self.place += usize::from(bits / 8);
        self.used = bits % 8;
        true
    }

    #[inline(always)]
    fn ready(&self) -> u8 {
        let bytes = self.bytes.len() - self.place;
        if bytes > 8 {
            return 64;
        }
        8 * bytes as u8 - self.used
    }
}

/// The 64 bits behind the first used ones of these bytes, with zeros past the end.
#[inline(always)]
fn window_of(left: &[u8], used: u8) -> u64
    requires { used < 8 }
    ensures { result ≡ number (first 64 (drop used (bits_of left.now))) }
{
    if let [a, b, c, d, e, f, g, h, next, ..] = left {
        let high = u64::from_be_bytes([*a, *b, *c, *d, *e, *f, *g, *h]);
        return shifted_window(high, *next, used);
    }
    last_window(left, used)
}

/// The same where the bytes may be fewer than nine.
#[cold]
#[inline(never)]
fn last_window(left: &[u8], used: u8) -> u64
    requires { used < 8 }
    ensures { result ≡ number (first 64 (drop used (bits_of left.now))) }
{
    let high = eight_bytes(left);
    let next = byte_at(left, 8);
    shifted_window(high, next, used)
}

/// Whether a bit of these bytes is 1.
fn any_one(bytes: &[u8]) -> bool
    ensures { result ≡ list_any (λ b. b) (bits_of bytes.now) }
{
    bytes.iter().any(|byte| *byte != 0)
}

/// The first eight bytes, with zeros past the end.
fn eight_bytes(bytes: &[u8]) -> u64
    ensures { result ≡ number (first 64 (bits_of bytes.now)) }
{
    let mut window = 0u64;
    for i in 0..8 {
        window = window * 256 + u64::from(byte_at(bytes, i));
    }
    window
}

/// The 64 bits behind the first used ones of eight bytes and a ninth.
#[inline(always)]
fn shifted_window(high: u64, next: u8, used: u8) -> u64
    requires { used < 8 }
    ensures { result ≡ (high * 256 + next) / 2 ^ (8 - used) % 2 ^ 64 }
{
    (high << used) + (u64::from(next) >> (8 - used))
}

/// The byte at a place, or zero past the end.
fn byte_at(bytes: &[u8], place: usize) -> u8
    ensures { result ≡ slice_index_or bytes.now place 0 }
{
    match bytes.get(place) {
        Some(byte) => *byte,
        None => 0,
    }
}
