ghost use Rattle.std.specs.Prelude.{◌≡◌, ◌<◌, Bool, Option, false};
ghost use Rattle.cabac_engine.specs.Bins.{Slot, in_context, in_bypass, at_end, is_last};

/// What gives the bins of a segment, one after another, where the caller says how each one is coded.
pub trait BinSource: Drop {
    /// From the one state a call for a bin of this kind may give this answer, and leave the other state.
    ghost step: { Self → Slot → Option Bool → Self → Type 0 };

    /// An end bin of 1 was given, or the bits ran out: no bin may be asked for.
    ghost over: { Self → Bool };

    /// The next bin, in a context (ctxIdx), or None where the bits ran out.
    fn bin(&mut self, ctx: u16) -> Option<bool>
        requires context { ctx < 460 }
        requires going { over self.old ≡ false }
        ensures step { step self.old (in_context ctx) result self.new }
        ensures over { over self.new ≡ is_last (in_context ctx) result };

    /// The next bin, in bypass, or None where the bits ran out.
    fn bypass(&mut self) -> Option<bool>
        requires { over self.old ≡ false }
        ensures step { step self.old in_bypass result self.new }
        ensures over { over self.new ≡ is_last in_bypass result };

    /// The next bin, an end bin, or None where the bits ran out. After an end bin of 1 no bin follows.
    fn end(&mut self) -> Option<bool>
        requires { over self.old ≡ false }
        ensures step { step self.old at_end result self.new }
        ensures over { over self.new ≡ is_last at_end result };
}
