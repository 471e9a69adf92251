ghost use Rattle.std.specs.Prelude.{◌≡◌, ◌<◌};
ghost use Rattle.cabac_interval.specs.Tables.{next_p, next_mps};

use cabac_interval::trans_lps;

/// The state of a context (9.3.1.1): how probable its most probable value is (pStateIdx, 0 to 63), and that value (valMPS).
#[derive(Clone, Copy)]
pub struct Cell {
    pub p: u8,
    pub mps: bool,
    ghost state: { p < 64 },
}

impl Cell {
    /// The context after one more bin (9.3.3.2.1.1).
    #[inline(always)]
    pub fn after(self, bit: bool) -> Cell
        ensures p { result.p ≡ next_p self.p self.mps bit }
        ensures mps { result.mps ≡ next_mps self.p self.mps bit }
    {
        let Cell { p, mps } = self;
        if bit == mps {
            let p = (p + 1).min(62);
            Cell { p, mps }
        } else {
            let mps = if p == 0 { !mps } else { mps };
            let p = trans_lps(p);
            Cell { p, mps }
        }
    }
}
