ghost use Rattle.std.specs.Prelude.{◌≡◌, ◌≤◌, ◌<◌, ◌%◌, ◌↔◌, Bool, List, [], ◌∷◌, ◌++◌, length, min, drop, IsTrue, MatchBool, MatchOption};
ghost use Rattle.bit_texts.specs.Bits.{number, first, last_bit, more_data};

/// A bitstream that is read from its front to its end, as the functions of ITU-T H.264, 7.2 read it.
/// No call changes the bits: those taken and those left are together the same before and after it.
pub trait BitSource: Drop {
    /// The bits that are left, those from the bitstream pointer on.
    ghost left: { Self → List Bool };

    /// The bits that were taken, those before the bitstream pointer.
    ghost taken: { Self → List Bool };

    /// Takes the next bit; None where none is left.
    fn bit(&mut self) -> Option<bool>
        ensures bit { MatchOption result ((left self.old ≡ []) × (left self.new ≡ [])) (λ bit. left self.old ≡ bit ∷ left self.new) }
        ensures kept { taken self.new ++ left self.new ≡ taken self.old ++ left self.old };

    /// byte_aligned: whether the bits taken are whole bytes.
    fn aligned(&self) -> bool
        ensures { IsTrue result ↔ (length (taken self.now) % 8 ≡ 0) };

    /// The last bit that was taken, or false where none was.
    fn last_taken(&self) -> bool
        ensures { result ≡ last_bit (taken self.now) };

    /// more_rbsp_data: whether a 1 bit stands behind the next bit.
    fn more_rbsp_data(&self) -> bool
        ensures { result ≡ more_data (left self.now) };

    /// The next 64 bits, the first one on top, with zeros past the end.
    fn window(&self) -> u64
        ensures { result ≡ number (first 64 (left self.now)) };

    /// How many of the bits of the window are left: 64, or all that are left.
    fn ready(&self) -> u8
        ensures { result ≡ min 64 (length (left self.now)) };

    /// Takes n bits; false where fewer are left, and then none is taken.
    fn skip(&mut self, n: u8) -> bool
        requires { n ≤ 64 }
        ensures skipped { MatchBool result ((n ≤ length (left self.old)) × (left self.new ≡ drop n (left self.old))) ((length (left self.old) < n) × (left self.new ≡ left self.old)) }
        ensures kept { taken self.new ++ left self.new ≡ taken self.old ++ left self.old };
}
