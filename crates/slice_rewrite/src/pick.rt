// How cabac_init_idc is chosen.
ghost use Rattle.std.specs.Prelude.{◌≡◌, ◌<◌, ℕ};
ghost use Rattle.slice_rewrite.specs.declared.pick.Tries.TheVariants.{One};

use std::marker::Model;

/// Which numbers are tried as cabac_init_idc, from 0 to 2.
#[derive(Clone, Copy, Debug, PartialEq, Eq)]
pub enum Tries {
    /// This one alone.
    One(u8),
    /// All three.
    All,
}

/// A choice of cabac_init_idc (ITU-T H.264, 7.4.3), which a P or B slice has in CABAC.
///
/// Of a pick the ghost members say what it tries (`tried`), and which pick stands behind an answer to three lengths (`step`).
pub trait InitPick: Drop {
    ghost use Rattle.std.specs.Prelude.{◌≡◌, ◌<◌, ℕ, List};
    ghost use Rattle.slice_rewrite.specs.declared.pick.Tries.{Tries};
    ghost use Rattle.slice_rewrite.specs.declared.pick.Tries.TheVariants.{One};

    ghost tried: { Self → Tries };

    ghost step: { Self → List ℕ → ℕ → Self → Type 0 };

    /// What is tried.
    fn tries(&self) -> Tries
        ensures value { result ≡ tried self.now }
        ensures below { (k : ℕ) → result ≡ One k → k < 3 };

    /// Chooses, by how many bytes the unit of the slice has under each number. What is tried stays.
    fn choose(&mut self, lengths: &[u64; 3]) -> u8
        ensures below { result < 3 }
        ensures step { step self.old lengths.now result self.new }
        ensures stays { tried self.new ≡ tried self.old };
}

/// One number for every slice, from 0 to 2.
#[derive(Drop)]
pub struct FixedInit(pub u8);

impl Model for FixedInit {
    ghost Value = { ℕ };

    ghost view = { λ fixed. fixed.0 };

    ghost invariant = { λ fixed. fixed.0 < 3 };
}

impl InitPick for FixedInit {
    ghost tried = { One };

    // it never chooses: each answer is its number
    ghost step = { λ old lengths answer new. (answer ≡ old) × (new ≡ old) };

    fn tries(&self) -> Tries {
        Tries::One(self.0)
    }

    fn choose(&mut self, _lengths: &[u64; 3]) -> u8 {
        self.0
    }
}
