ghost use Rattle.std.specs.Prelude.{◌≡◌, ◌+◌, ◌*◌, ◌/◌, ◌<◌, ◌≤◌, ℕ, true, IfOk, OnOk};
ghost use Rattle.cabac_engine.specs.LowBits.{Adds, HasRoom, size_of, number_of};

use crate::pending_bits::PendingBits;
use exp_golomb::BitSink;
use std::alloc::{AllocError as Memory, Global};

/// Where as many bits were gathered, they go to the pending ones.
const MANY: u8 = 32;

/// codILow with all its bits since the segment began: those in the sink, the pending ones, and those of a register.
#[derive(Drop)]
pub(crate) struct LowBits<B: BitSink> {
    /// The bits that were gathered and then the nine lowest ones, with a carry in front while the pending bits aren't settled.
    pub(crate) register: u64,
    /// How many bits were gathered.
    pub(crate) gathered: u8,
    pub(crate) pending: PendingBits<B>,
    ghost few: { gathered < 32 },
}

impl<B: BitSink> LowBits<B> {
    /// No bits but those of the sink, and nine zeros.
    pub(crate) fn new(alloc: Global, sink: B) -> LowBits<B>
        ensures register { result.register ≡ 0 }
        ensures gathered { result.gathered ≡ 0 }
        ensures settled { result.pending.settled ≡ true }
        ensures bits { result.pending.bits ≡ B.bits sink }
    {
        LowBits {
            register: 0,
            gathered: 0,
            pending: PendingBits::new(alloc, sink),
        }
    }

    /// Replaces the register by one with so many bits gathered.
    #[inline(always)]
    pub(crate) fn keep(&mut self, register: u64, gathered: u8) -> Result<(), Memory>
        requires few { gathered < 40 }
        requires room { HasRoom self.old.pending.settled gathered register 1 }
        ensures size { OnOk result (size_of self.new.pending.bits self.new.gathered ≡ size_of self.old.pending.bits gathered) }
        ensures number { OnOk result (number_of self.new.pending.bits self.new.gathered self.new.register
            ≡ number_of self.old.pending.bits gathered register) }
        ensures room { OnOk result ((range : ℕ) → range ≤ 512 → HasRoom self.old.pending.settled gathered register range
            → HasRoom self.new.pending.settled self.new.gathered self.new.register range) }
    {
        if gathered < MANY {
            self.register = register;
            self.gathered = gathered;
            return Ok(());
        }
        self.register = register % 512;
        self.gathered = 0;
        self.pending.append(register / 512, gathered)
    }

    /// Writes all bits, with a 1 for the last one, and hands the sink back.
    pub(crate) fn finish(self) -> Result<B, Memory>
        requires { HasRoom self.pending.settled self.gathered self.register 2 }
        ensures { IfOk result (λ sink. Adds (9 + self.gathered) (self.register / 2 * 2 + 1) self.pending.bits (B.bits sink)) }
    {
        let LowBits {
            register,
            gathered,
            mut pending,
        } = self;
        pending.append(register / 2 * 2 + 1, gathered + 9)?;
        pending.finish()
    }
}
