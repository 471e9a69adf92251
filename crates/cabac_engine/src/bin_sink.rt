ghost use Rattle.std.specs.Prelude.{◌≡◌, ◌<◌, Bool, true, false, OnOk, OnErr};
ghost use Rattle.cabac_engine.specs.Bins.{Slot, in_context, in_bypass, at_end};

use std::alloc::AllocError as Memory;

/// What takes the bins of a segment, one after another.
pub trait BinSink: Drop {
    /// From the one state a bin of this kind may lead to the other state.
    ghost step: { Self → Slot → Bool → Self → Type 0 };

    /// An end bin of 1 was taken, or memory ran out: no bin may be given.
    ghost over: { Self → Bool };

    /// Takes a bin in a context (ctxIdx).
    fn bin(&mut self, ctx: u16, bit: bool) -> Result<(), Memory>
        requires context { ctx < 460 }
        requires going { over self.old ≡ false }
        ensures step { OnOk result (step self.old (in_context ctx) bit self.new) }
        ensures going { OnOk result (over self.new ≡ false) }
        ensures err { OnErr result (over self.new ≡ true) };

    /// Takes a bin in bypass.
    fn bypass(&mut self, bit: bool) -> Result<(), Memory>
        requires { over self.old ≡ false }
        ensures step { OnOk result (step self.old in_bypass bit self.new) }
        ensures going { OnOk result (over self.new ≡ false) }
        ensures err { OnErr result (over self.new ≡ true) };

    /// Takes an end bin. After one of 1 no bin follows.
    fn end(&mut self, bit: bool) -> Result<(), Memory>
        requires { over self.old ≡ false }
        ensures step { OnOk result (step self.old at_end bit self.new) }
        ensures over { OnOk result (over self.new ≡ bit) }
        ensures err { OnErr result (over self.new ≡ true) };
}
