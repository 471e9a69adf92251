ghost use Rattle.std.specs.Prelude.{◌≡◌, ◌<◌, nat_lt, ℕ, Bool, true, false, List, [], OnOk, OnErr, IfOk};
ghost use Rattle.cabac_engine.specs.Bins.{Slot, at_end};
ghost use Rattle.cabac_engine.specs.Encoding.{IsEnded, Closes};
ghost use Rattle.cabac_contexts.specs.States.{with_states};
ghost use Rattle.cabac_contexts.specs.Coders.{OutCoding, HasTaken, TakesBin};

use crate::contexts::Contexts;
use cabac_engine::{BinSink, Encoder};
use exp_golomb::BitSink;
use std::alloc::AllocError as Memory;
use std::marker::Model;

/// Encodes the bins of a segment with the contexts of its slice.
#[derive(Drop)]
pub struct OutCoder<B: BitSink> {
    pub contexts: Contexts,
    pub encoder: Encoder<B>,
}

impl<B: BitSink> Model for OutCoder<B> {
    ghost Value = { OutCoding };

    ghost view = { λ e. record { encoder = e.encoder; cells = e.contexts } };
}

impl<B: BitSink> OutCoder<B> {
    /// An encoder with these contexts.
    pub fn new(contexts: Contexts, encoder: Encoder<B>) -> OutCoder<B>
        ensures { result ≡ record { encoder = encoder; cells = contexts } }
    {
        OutCoder { contexts, encoder }
    }

    /// Writes the last bits of the segment, the last one a 1, and hands the contexts and the sink back.
    pub fn close(self) -> Result<(Contexts, B), Memory>
        requires { IsEnded self.encoder }
        ensures code { (before : List Bool) (start : ℕ → ℕ × Bool) (bins : List (Slot × Bool)) → HasTaken before start bins self
            → IfOk result (λ r. Closes before (with_states start [] bins) (B.bits r.1)) }
        ensures cells { IfOk result (λ r. r.0 ≡ self.cells) }
    {
        let OutCoder { contexts, encoder } = self;
        Ok((contexts, encoder.close()?))
    }
}

impl<B: BitSink> BinSink for OutCoder<B> {
    ghost step = { TakesBin };

    ghost over = { λ e. nat_lt e.encoder.range 256 };

    #[inline(never)]
    fn bin(&mut self, ctx: u16, bit: bool) -> Result<(), Memory> {
        let cell = self.contexts.cell(ctx);
        self.contexts.set_cell(ctx, cell.after(bit));
        self.encoder.encode(cell, bit)
    }

    #[inline(always)]
    fn bypass(&mut self, bit: bool) -> Result<(), Memory> {
        self.encoder.bypass(bit)
    }

    #[inline(always)]
    fn end(&mut self, bit: bool) -> Result<(), Memory>
        requires { nat_lt self.old.encoder.range 256 ≡ false }
        ensures step { OnOk result (TakesBin self.old at_end bit self.new) }
        ensures over { OnOk result (nat_lt self.new.encoder.range 256 ≡ bit) }
        ensures err { OnErr result (nat_lt self.new.encoder.range 256 ≡ true) }
        ensures ended { OnOk result (bit ≡ true → IsEnded self.new.encoder) }
    {
        self.encoder.end(bit)
    }
}
