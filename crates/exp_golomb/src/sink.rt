ghost use Rattle.std.specs.Prelude.{◌≡◌, ◌≤◌, ◌<◌, ◌^◌, ◌%◌, ◌↔◌, Bool, List, [], ◌∷◌, length, IsTrue, OnOk, OnErr};
ghost use Rattle.bit_texts.specs.Bits.{binary};
ghost use Rattle.bit_texts.specs.Texts.{Appended, Appends};

use std::alloc::AllocError as Memory;

/// A bitstream that is written from its front to its end.
pub trait BitSink: Drop {
    /// The bits that were put.
    ghost bits: { Self → List Bool };

    /// Appends a bit. Want of memory leaves the bits as they were.
    fn put(&mut self, bit: bool) -> Result<(), Memory>
        ensures ok { OnOk result (Appended (bits self.old) (bits self.new) (bit ∷ [])) }
        ensures err { OnErr result (bits self.new ≡ bits self.old) };

    /// Appends the n bits of a value below 2^n, the most significant first. Want of memory leaves a front of them appended.
    fn put_bits(&mut self, value: u64, n: u8) -> Result<(), Memory>
        requires count { n ≤ 64 }
        requires fits { value < 2 ^ n }
        ensures { Appends (bits self.old) (bits self.new) (binary n value) result };

    /// byte_aligned: whether the bits are whole bytes.
    fn aligned(&self) -> bool
        ensures { IsTrue result ↔ (length (bits self.now) % 8 ≡ 0) };
}
