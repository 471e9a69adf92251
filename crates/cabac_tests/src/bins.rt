//! Lists of bins in place of a coder.
ghost use Rattle.std.specs.Prelude.{◌≡◌, ◌<◌, false, true, Bool, Option, OnOk, OnErr};
ghost use Rattle.cabac_engine.specs.Bins.{Slot, in_context, in_bypass, at_end, is_last};

use cabac_engine::{BinSink, BinSource};
use std::alloc::{AllocError as Memory, Global};

/// How a bin is coded.
#[derive(Clone, Copy, PartialEq, Eq)]
pub enum Kind {
    Context(u16),
    Bypass,
    End,
}

/// A list of bins, to whose end they are written, and from whose front they are read.
#[derive(Drop)]
pub struct Bins {
    pub list: Vec<(Kind, bool)>,
    next: usize,
    is_over: bool,
}

impl Bins {
    pub fn new(alloc: Global) -> Bins
        ensures { result.is_over ≡ false }
    {
        Bins {
            list: Vec::new(alloc),
            next: 0,
            is_over: false,
        }
    }

    /// The same list, to be read from its front.
    pub fn again(self) -> Bins
        ensures { result.is_over ≡ false }
    {
        Bins {
            list: self.list,
            next: 0,
            is_over: false,
        }
    }

    /// All bins were read.
    pub fn is_read(&self) -> bool {
        self.next == self.list.len()
    }

    /// The bits are those of this text.
    pub fn has_bits(&self, text: &str) -> bool {
        let bits = text.as_bytes();
        bits.len() == self.list.len()
            && bits
                .iter()
                .zip(self.list.iter())
                .all(|(bit, bin)| bin.1 == (*bit == b'1'))
    }

    /// The list is this one.
    pub fn is_list(&self, expected: &[(Kind, bool)]) -> bool {
        self.list.as_slice() == expected
    }

    /// The first and the last bins are these.
    pub fn begins_and_ends(&self, front: &[(Kind, bool)], back: &[(Kind, bool)]) -> bool {
        self.list.starts_with(front) && self.list.ends_with(back)
    }

    /// The next bin, if it is coded in this way.
    fn take(&mut self, kind: Kind) -> Option<bool> {
        let (expected, bit) = *self.list.get(self.next)?;
        if expected != kind {
            return None;
        }
        self.next = self.next.saturating_add(1);
        Some(bit)
    }
}

impl BinSource for Bins {
    ghost step = { λ _ _ _ _. Unit {0} };

    ghost over = { λ bins. bins.is_over };

    fn bin(&mut self, ctx: u16) -> Option<bool> {
        let bit = self.take(Kind::Context(ctx));
        self.is_over = bit.is_none();
        bit
    }

    fn bypass(&mut self) -> Option<bool> {
        let bit = self.take(Kind::Bypass);
        self.is_over = bit.is_none();
        bit
    }

    fn end(&mut self) -> Option<bool> {
        let bit = self.take(Kind::End);
        self.is_over = bit != Some(false);
        bit
    }
}

impl BinSink for Bins {
    ghost step = { λ _ _ _ _. Unit {0} };

    ghost over = { λ bins. bins.is_over };

    fn bin(&mut self, ctx: u16, bit: bool) -> Result<(), Memory> {
        self.is_over = self.list.push((Kind::Context(ctx), bit)).is_err();
        if self.is_over { Err(Memory) } else { Ok(()) }
    }

    fn bypass(&mut self, bit: bool) -> Result<(), Memory> {
        self.is_over = self.list.push((Kind::Bypass, bit)).is_err();
        if self.is_over { Err(Memory) } else { Ok(()) }
    }

    fn end(&mut self, bit: bool) -> Result<(), Memory> {
        if self.list.push((Kind::End, bit)).is_err() {
            self.is_over = true;
            return Err(Memory);
        }
        self.is_over = bit;
        Ok(())
    }
}
