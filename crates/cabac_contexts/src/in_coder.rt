ghost use Rattle.std.specs.Prelude.{◌≡◌, ◌<◌, nat_lt, false};
ghost use Rattle.cabac_engine.specs.Bins.{in_context, is_last};
ghost use Rattle.cabac_contexts.specs.Coders.{InCoding, GivesBin};

use crate::contexts::Contexts;
use cabac_engine::{BinSource, Decoder};
use exp_golomb::BitSource;
use std::marker::Model;

/// Decodes the bins of a segment with the contexts of its slice.
#[derive(Drop)]
pub struct InCoder<B: BitSource> {
    pub contexts: Contexts,
    pub decoder: Decoder<B>,
}

impl<B: BitSource> Model for InCoder<B> {
    ghost Value = { InCoding };

    ghost view = { λ d. record { decoder = d.decoder; cells = d.contexts } };
}

impl<B: BitSource> InCoder<B> {
    /// A decoder with these contexts.
    pub fn new(contexts: Contexts, decoder: Decoder<B>) -> InCoder<B>
        ensures { result ≡ record { decoder = decoder; cells = contexts } }
    {
        InCoder { contexts, decoder }
    }

    /// The next bin of a context.
    #[inline(always)]
    fn next_bin(&mut self, ctx: u16) -> Option<bool>
        requires context { ctx < 460 }
        requires going { nat_lt self.old.decoder.range 256 ≡ false }
        ensures step { GivesBin self.old (in_context ctx) result self.new }
        ensures over { nat_lt self.new.decoder.range 256 ≡ is_last (in_context ctx) result }
    {
        let mut cell = self.contexts.cell(ctx);
        let bit = self.decoder.bin(&mut cell)?;
        self.contexts.set_cell(ctx, cell);
        Some(bit)
    }

    /// The same, with more bits looked up first.
    #[cold]
    #[inline(never)]
    fn bin_behind(&mut self, ctx: u16) -> Option<bool>
        requires context { ctx < 460 }
        requires going { nat_lt self.old.decoder.range 256 ≡ false }
        ensures step { GivesBin self.old (in_context ctx) result self.new }
        ensures over { nat_lt self.new.decoder.range 256 ≡ is_last (in_context ctx) result }
    {
        self.decoder.look_ahead();
        self.next_bin(ctx)
    }

    /// Hands the contexts back, and the source at the bits that are left.
    pub fn into_parts(self) -> (Contexts, B)
        ensures cells { result.0 ≡ self.cells }
        ensures taken { B.taken result.1 ≡ self.decoder.taken }
        ensures left { B.left result.1 ≡ self.decoder.left }
    {
        let InCoder { contexts, decoder } = self;
        (contexts, decoder.into_bits())
    }
}

impl<B: BitSource> BinSource for InCoder<B> {
    ghost step = { GivesBin };

    ghost over = { λ d. nat_lt d.decoder.range 256 };

    #[inline(never)]
    fn bin(&mut self, ctx: u16) -> Option<bool> {
        if self.decoder.is_short() {
            return self.bin_behind(ctx);
        }
        self.next_bin(ctx)
    }

    #[inline(always)]
    fn bypass(&mut self) -> Option<bool> {
        self.decoder.bypass()
    }

    #[inline(always)]
    fn end(&mut self) -> Option<bool> {
        self.decoder.end()
    }
}
