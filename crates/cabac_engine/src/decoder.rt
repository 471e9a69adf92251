ghost use Rattle.std.specs.Prelude.{◌≡◌, ◌+◌, ◌<◌, ◌≤◌, List, [], ◌++◌, length, take, MatchOption, MatchResult, IfSome, IfNone, OnSome, Some, true, false};
ghost use Rattle.bit_texts.specs.Bits.{number};
ghost use Rattle.cabac_interval.specs.Interval.{context, bypass, terminate, doublings_of};
ghost use Rattle.cabac_interval.specs.Tables.{next_p, next_mps};
ghost use Rattle.cabac_engine.specs.Decoding.{Decoding, IsDecoding, Refills, Decodes, Narrows, HasDecoded};

use crate::cell::Cell;
use crate::doubling::{doublings, doublings_of_most};
use crate::offset_bits::OffsetBits;
use cabac_interval::range_lps;
use exp_golomb::{BitSource, read_u};
use std::marker::Model;

/// The arithmetic decoding engine (9.3.1.2, 9.3.3.2): decodes the bins of a segment from a source of bits. It takes no bit
/// ahead, but looks up some.
#[derive(Drop)]
pub struct Decoder<B: BitSource> {
    /// codIRange, and below 256 once no further bin may be decoded.
    range: u16,
    /// codIOffset, and the bits behind it.
    offset: OffsetBits<B>,
}

impl<B: BitSource> Model for Decoder<B> {
    ghost Value = { Decoding };

    ghost view = { λ d. record { range = d.range; offset = d.offset.offset; taken = d.offset.taken; left = d.offset.left } };

    ghost invariant = { λ d. (d.range < 512) × (256 ≤ d.range → d.offset.offset < d.range) };
}

/// No segment starts here: fewer than nine bits were left, or the first nine are 510 or 511.
#[derive(Drop)]
pub struct NoStart<B> {
    pub bits: B,
}

impl<B: BitSource> Decoder<B> {
    /// Starts on the bits that are left (9.3.1.2). Of the source that a refusal hands back it isn't said how many bits are left.
    pub fn start(bits: B) -> Result<Decoder<B>, NoStart<B>>
        ensures answer { MatchResult result
            (λ d. IsDecoding d × HasDecoded (B.left bits) [] d.range d.offset d.left)
            (λ _. 9 ≤ length (B.left bits) → 510 ≤ number (take 9 (B.left bits))) }
        ensures kept { MatchResult result
            (λ d. d.taken ++ d.left ≡ B.taken bits ++ B.left bits)
            (λ refusal. B.taken refusal.bits ++ B.left refusal.bits ≡ B.taken bits ++ B.left bits) }
    {
        let mut bits = bits;
        match read_u(&mut bits, 9) {
            Some(offset) if offset < 510 => Ok(Decoder {
                range: 510,
                offset: OffsetBits::new(offset as u16, bits),
            }),
            _ => Err(NoStart { bits }),
        }
    }

    /// Whether so few bits are looked up that a bin may have to look up more. A hint: no answer rests on it.
    #[inline(always)]
    pub fn is_short(&self) -> bool {
        self.offset.is_short()
    }

    /// Looks up bits ahead, as many as are left or fit.
    pub fn look_ahead(&mut self)
        ensures { self.new ≡ self.old }
    {
        self.offset.look_ahead();
    }

    /// The next bin of a context, whose cell goes on by it (9.3.3.2.1), or None exactly where the bits ran out.
    #[inline(always)]
    pub fn bin(&mut self, cell: &mut Cell) -> Option<bool>
        requires { IsDecoding self.old }
        ensures answer { Decodes (context cell.old.p cell.old.mps) self.old result self.new }
        ensures kept { self.new.taken ++ self.new.left ≡ self.old.taken ++ self.old.left }
        ensures p { IfSome result (λ bit. cell.new.p ≡ next_p cell.old.p cell.old.mps bit) }
        ensures mps { IfSome result (λ bit. cell.new.mps ≡ next_mps cell.old.p cell.old.mps bit) }
        ensures some { OnSome result (IsDecoding self.new) }
        ensures none { IfNone result (self.new.range < 256) }
    {
        let lps = range_lps(cell.p, ((self.range >> 6) & 3) as u8);
        let mps = cell.mps;
        if self.narrow(lps)? {
            *cell = cell.after(mps);
            return Some(mps);
        }
        *cell = cell.after(!mps);
        Some(!mps)
    }

    /// The next bypass bin (9.3.3.2.3), or None exactly where no bit is left.
    #[inline(always)]
    pub fn bypass(&mut self) -> Option<bool>
        requires { IsDecoding self.old }
        ensures answer { Decodes bypass self.old result self.new }
        ensures kept { self.new.taken ++ self.new.left ≡ self.old.taken ++ self.old.left }
        ensures some { OnSome result (IsDecoding self.new) }
        ensures none { IfNone result (self.new.range < 256) }
    {
        if !self.offset.double(1) {
            self.range = 0;
            return None;
        }
        if self.offset.wrap(self.range) {
            return Some(false);
        }
        Some(true)
    }

    /// The next end bin, of which 1 ends the segment (9.3.3.2.4), or None exactly where the bits ran out.
    #[inline(always)]
    pub fn end(&mut self) -> Option<bool>
        requires { IsDecoding self.old }
        ensures answer { Decodes terminate self.old result self.new }
        ensures kept { self.new.taken ++ self.new.left ≡ self.old.taken ++ self.old.left }
        ensures zero { result ≡ Some false → IsDecoding self.new }
        ensures one { result ≡ Some true → self.new.range < 256 }
        ensures none { IfNone result (self.new.range < 256) }
    {
        let lower = self.range - 2;
        if self.offset.is_below(lower) {
            self.refill(lower, doublings_of_most(lower))?;
            return Some(false);
        }
        self.offset.lower(lower);
        self.range = 2;
        Some(true)
    }

    /// Takes the lower or the upper part of the range, and says whether it is the lower one.
    #[inline(always)]
    fn narrow(&mut self, upper: u16) -> Option<bool>
        requires running { IsDecoding self.old }
        requires low { 2 ≤ upper }
        requires high { upper + 128 ≤ self.old.range }
        ensures answer { Narrows upper self.old result self.new }
        ensures kept { self.new.taken ++ self.new.left ≡ self.old.taken ++ self.old.left }
        ensures some { OnSome result (IsDecoding self.new) }
        ensures none { IfNone result (self.new.range < 256) }
    {
        let lower = self.range - upper;
        if self.offset.is_below(lower) {
            self.refill(lower, doublings_of_most(lower))?;
            return Some(true);
        }
        self.offset.lower(lower);
        self.refill(upper, doublings(upper))?;
        Some(false)
    }

    /// Doubles a range until it is at least 256, which is `count` times, and takes as many bits into the offset (9.3.3.2.2).
    #[inline(always)]
    fn refill(&mut self, range: u16, count: u8) -> Option<()>
        requires some { 0 < range }
        requires nine_bits { range < 512 }
        requires within { self.old.offset < range }
        requires count { count ≡ doublings_of range }
        ensures answer { MatchOption result
            ((length self.old.left < doublings_of range) × (self.new.range ≡ 0))
            (λ _. Refills range self.old.offset self.new.range self.new.offset self.old.left self.new.left) }
        ensures kept { self.new.taken ++ self.new.left ≡ self.old.taken ++ self.old.left }
    {
        if !self.offset.double(count) {
            self.range = 0;
            return None;
        }
        self.range = range << count;
        Some(())
    }

    /// Hands the source back, at the bits that are left.
    pub fn into_bits(self) -> B
        ensures taken { B.taken result ≡ self.taken }
        ensures left { B.left result ≡ self.left }
    {
        let Decoder { offset, .. } = self;
        offset.into_source()
    }
}
