ghost use Rattle.std.specs.Prelude.{◌≡◌, ◌+◌, ◌<◌, ◌≤◌, List, Bool, true, false, [], IfOk, OnOk, OnErr};
ghost use Rattle.cabac_interval.specs.Interval.{Bin, context, bypass, terminate, doublings_of};
ghost use Rattle.cabac_interval.specs.Tables.{next_p, next_mps};
ghost use Rattle.cabac_engine.specs.Encoding.{IsEncoding, IsEnded, HasEncoded, Encodes, Closes};
ghost use Rattle.cabac_engine.specs.LowBits.{Renormalises};

use crate::cell::Cell;
use crate::doubling::{doublings, doublings_of_most};
use crate::low_bits::LowBits;
use cabac_interval::range_lps;
use exp_golomb::BitSink;
use std::alloc::{AllocError as Memory, Global};
use std::marker::Model;

/// The arithmetic encoding engine (9.3.4): encodes the bins of a segment into a sink of bits.
#[derive(Drop)]
pub struct Encoder<B: BitSink> {
    /// codIRange; 2 after an end bin of 1, and 0 once memory ran out.
    range: u16,
    low: LowBits<B>,
}

impl<B: BitSink> Model for Encoder<B> {
    ghost use Rattle.std.specs.Prelude.{◌+◌, ◌<◌};
    ghost use Rattle.cabac_engine.specs.Encoding.{Encoding};
    ghost use Rattle.cabac_engine.specs.LowBits.{HasRoom, size_of, number_of};

    ghost Value = { Encoding };

    ghost view = { λ e. record {
      range = e.range;
      size = size_of e.low.pending.bits e.low.gathered;
      number = number_of e.low.pending.bits e.low.gathered e.low.register;
    } };

    ghost invariant = { λ e. (e.range < 512) × (0 < e.range → HasRoom e.low.pending.settled e.low.gathered e.low.register e.range) };
}

impl<B: BitSink> Encoder<B> {
    /// Starts after the bits that the sink has (9.3.4.1). It takes no memory.
    pub fn start(alloc: Global, bits: B) -> Encoder<B>
        ensures open { IsEncoding result }
        ensures none { HasEncoded (B.bits bits) [] result }
    {
        Encoder {
            range: 510,
            low: LowBits::new(alloc, bits),
        }
    }

    /// Encodes a bin of a context, whose cell goes on by it (9.3.4.2). After an `Err` nothing more may be encoded.
    #[inline(always)]
    pub fn bin(&mut self, cell: &mut Cell, bit: bool) -> Result<(), Memory>
        requires { IsEncoding self.old }
        ensures bin { OnOk result (Encodes (context cell.old.p cell.old.mps) bit self.old self.new) }
        ensures open { OnOk result (IsEncoding self.new) }
        ensures err { OnErr result (self.new.range ≡ 0) }
        ensures p { OnOk result (cell.new.p ≡ next_p cell.old.p cell.old.mps bit) }
        ensures mps { OnOk result (cell.new.mps ≡ next_mps cell.old.p cell.old.mps bit) }
    {
        let was = *cell;
        *cell = was.after(bit);
        self.encode(was, bit)
    }

    /// Encodes a bin of a context that stands at this cell (9.3.4.2). After an `Err` nothing more may be encoded.
    #[inline(always)]
    pub fn encode(&mut self, cell: Cell, bit: bool) -> Result<(), Memory>
        requires { IsEncoding self.old }
        ensures bin { OnOk result (Encodes (context cell.p cell.mps) bit self.old self.new) }
        ensures open { OnOk result (IsEncoding self.new) }
        ensures err { OnErr result (self.new.range ≡ 0) }
    {
        let lps = range_lps(cell.p, ((self.range >> 6) & 3) as u8);
        let lower = self.range - lps;
        if bit == cell.mps {
            self.renormalise(0, lower, doublings_of_most(lower))
        } else {
            self.renormalise(lower, lps, doublings(lps))
        }
    }

    /// Encodes a bypass bin (9.3.4.4). After an `Err` nothing more may be encoded.
    #[inline(always)]
    pub fn bypass(&mut self, bit: bool) -> Result<(), Memory>
        requires { IsEncoding self.old }
        ensures bin { OnOk result (Encodes bypass bit self.old self.new) }
        ensures open { OnOk result (IsEncoding self.new) }
        ensures err { OnErr result (self.new.range ≡ 0) }
    {
        let range = self.range;
        let upper = if bit { range } else { 0 };
        let register = 2 * self.low.register + u64::from(upper);
        let gathered = self.low.gathered + 1;
        match self.low.keep(register, gathered) {
            Ok(()) => Ok(()),
            Err(memory) => {
                self.range = 0;
                Err(memory)
            }
        }
    }

    /// Encodes an end bin, of which 1 ends the segment (9.3.4.5). After an `Err` nothing more may be encoded.
    #[inline(always)]
    pub fn end(&mut self, bit: bool) -> Result<(), Memory>
        requires { IsEncoding self.old }
        ensures bin { OnOk result (Encodes terminate bit self.old self.new) }
        ensures zero { OnOk result (bit ≡ false → IsEncoding self.new) }
        ensures one { OnOk result (bit ≡ true → IsEnded self.new) }
        ensures err { OnErr result (self.new.range ≡ 0) }
    {
        let lower = self.range - 2;
        if bit {
            self.low.register += u64::from(lower);
            self.range = 2;
        } else {
            self.renormalise(0, lower, doublings_of_most(lower))?;
        }
        Ok(())
    }

    /// Leaves the lowest numbers of the interval out, `skipped` of them, and takes `range` of those above, doubled until they
    /// are at least 256, which is `count` times (9.3.4.3).
    #[inline(always)]
    fn renormalise(&mut self, skipped: u16, range: u16, count: u8) -> Result<(), Memory>
        requires some { 0 < range }
        requires open { IsEncoding self.old }
        requires within { skipped + range ≤ self.old.range }
        requires count { count ≡ doublings_of range }
        ensures doubled { OnOk result (Renormalises skipped range self.old self.new) }
        ensures open { OnOk result (IsEncoding self.new) }
        ensures err { OnErr result (self.new.range ≡ 0) }
    {
        let register = self.low.register + u64::from(skipped);
        let register = register << count;
        let gathered = self.low.gathered + count;
        self.range = range << count;
        match self.low.keep(register, gathered) {
            Ok(()) => Ok(()),
            Err(memory) => {
                self.range = 0;
                Err(memory)
            }
        }
    }

    /// Writes the last bits of the segment (9.3.4.5), the last one a 1, and hands the sink back.
    pub fn close(self) -> Result<B, Memory>
        requires { IsEnded self }
        ensures { (before : List Bool) (bins : List Bin) → HasEncoded before bins self
            → IfOk result (λ sink. Closes before bins (B.bits sink)) }
    {
        let Encoder { low, .. } = self;
        low.finish()
    }
}
