ghost use Rattle.std.specs.Prelude.{true, false, ◌≡◌, ◌+◌, ◌-◌, ◌*◌, ◌^◌, ◌<◌, ◌≤◌, ◌++◌, min, length, MatchBool};
ghost use Rattle.cabac_engine.specs.OffsetBits.{Doubles};

use exp_golomb::BitSource;
use std::marker::Model;

/// So many bits are looked up at most.
const MOST: u8 = 48;

/// codIOffset, and behind it bits of the source that were looked up ahead: a doubling only counts more of them to the offset.
#[derive(Drop)]
pub(crate) struct OffsetBits<B: BitSource> {
    /// The offset and the bits that are ready, as one number.
    value: u64,
    /// How many bits are ready.
    ready: u8,
    /// How many bits were looked up. Those that aren't ready any more were taken, which the source doesn't know yet.
    ahead: u8,
    source: B,
}

impl<B: BitSource> Model for OffsetBits<B> {
    ghost use Rattle.std.specs.Prelude.{◌≡◌, ◌-◌, ◌*◌, ◌/◌, ◌%◌, ◌^◌, ◌<◌, ◌≤◌, ◌++◌, length, take, drop};
    ghost use Rattle.bit_texts.specs.Bits.{number};
    ghost use Rattle.cabac_engine.specs.OffsetBits.{Offset};

    ghost Value = { Offset };

    ghost view = { λ o. record {
      offset = o.value / 2 ^ o.ready;
      ready = o.ready;
      taken = B.taken o.source ++ take (o.ahead - o.ready) (B.left o.source);
      left = drop (o.ahead - o.ready) (B.left o.source);
    } };

    ghost invariant = { λ o. (o.ready ≤ o.ahead) × (o.ahead ≤ 48) × (o.ahead ≤ length (B.left o.source)) × (o.value < 1024 * 2 ^ o.ready)
        × (o.value % 2 ^ o.ready ≡ number (take o.ready (drop (o.ahead - o.ready) (B.left o.source)))) };
}

impl<B: BitSource> OffsetBits<B> {
    /// An offset, with no bits looked up.
    pub(crate) fn new(offset: u16, source: B) -> OffsetBits<B>
        requires { offset < 1024 }
        ensures { result ≡ record { offset = offset; ready = 0; taken = B.taken source; left = B.left source } }
    {
        OffsetBits {
            value: u64::from(offset),
            ready: 0,
            ahead: 0,
            source,
        }
    }

    /// Whether the offset is below a number.
    #[inline(always)]
    pub(crate) fn is_below(&self, range: u16) -> bool
        requires { range < 512 }
        ensures { MatchBool result (self.now.offset < range) (range ≤ self.now.offset) }
    {
        self.value < u64::from(range) << self.ready
    }

    /// Lowers the offset.
    #[inline(always)]
    pub(crate) fn lower(&mut self, by: u16)
        requires fits { by < 512 }
        requires enough { by ≤ self.old.offset }
        ensures { self.new ≡ record { offset = self.old.offset - by; ready = self.old.ready; taken = self.old.taken; left = self.old.left } }
    {
        self.value -= u64::from(by) << self.ready;
    }

    /// Lowers the offset by a range that isn't above it, and answers whether the offset was below. There is no branch on that,
    /// since a bypass bin can't be predicted.
    #[inline(always)]
    pub(crate) fn wrap(&mut self, range: u16) -> bool
        requires { range < 512 }
        ensures below { result ≡ true → (self.old.offset < range) × (self.new ≡ self.old) }
        ensures above { result ≡ false → (range ≤ self.old.offset) × (self.new ≡ record { offset = self.old.offset - range; ready = self.old.ready; taken = self.old.taken; left = self.old.left }) }
    {
        let is_below = self.is_below(range);
        self.lower(if is_below { 0 } else { range });
        is_below
    }

    /// Takes bits into the offset; false where fewer are left.
    #[inline(always)]
    pub(crate) fn double(&mut self, count: u8) -> bool
        requires few { count ≤ 8 }
        requires fits { (self.old.offset + 1) * 2 ^ count ≤ 1024 }
        ensures doubled { MatchBool result (Doubles count self.old.offset self.new.offset self.old.left self.new.left) (length self.old.left < count) }
        ensures kept { self.new.taken ++ self.new.left ≡ self.old.taken ++ self.old.left }
    {
        if count > self.ready {
            return self.double_behind(count);
        }
        self.count_in(count);
        true
    }

    /// The same where too few bits are ready.
    #[cold]
    #[inline(never)]
    fn double_behind(&mut self, count: u8) -> bool
        requires few { count ≤ 8 }
        requires fits { (self.old.offset + 1) * 2 ^ count ≤ 1024 }
        ensures doubled { MatchBool result (Doubles count self.old.offset self.new.offset self.old.left self.new.left) (length self.old.left < count) }
        ensures kept { self.new.taken ++ self.new.left ≡ self.old.taken ++ self.old.left }
    {
        self.look_ahead();
        if count > self.ready {
            return false;
        }
        self.count_in(count);
        true
    }

    /// Counts bits that are ready to the offset.
    #[inline(always)]
    fn count_in(&mut self, count: u8)
        requires enough { count ≤ self.old.ready }
        requires fits { (self.old.offset + 1) * 2 ^ count ≤ 1024 }
        ensures doubled { Doubles count self.old.offset self.new.offset self.old.left self.new.left }
        ensures kept { self.new.taken ++ self.new.left ≡ self.old.taken ++ self.old.left }
    {
        self.ready -= count;
    }

    /// Whether a doubling may need more bits than are ready.
    #[inline(always)]
    pub(crate) fn is_short(&self) -> bool
        ensures { MatchBool result (self.now.ready < 8) (8 ≤ self.now.ready) }
    {
        self.ready < 8
    }

    /// Looks up bits behind the offset, as many as are left or fit.
    pub(crate) fn look_ahead(&mut self)
        ensures { self.new ≡ record { offset = self.old.offset; ready = min 48 (length self.old.left); taken = self.old.taken; left = self.old.left } }
    {
        let offset = self.value >> self.ready;
        self.source.skip(self.ahead - self.ready);
        let ready = self.source.ready().min(MOST);
        let next = self.source.window() >> 16 >> (MOST - ready);
        self.value = (offset << ready) + next;
        self.ready = ready;
        self.ahead = ready;
    }

    /// Hands the source back, at the bits that are left.
    pub(crate) fn into_source(self) -> B
        ensures taken { B.taken result ≡ self.taken }
        ensures left { B.left result ≡ self.left }
    {
        let OffsetBits {
            ready,
            ahead,
            mut source,
            ..
        } = self;
        source.skip(ahead - ready);
        source
    }
}
