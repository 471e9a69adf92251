ghost use Rattle.std.specs.Prelude.{◌≡◌, IfSome, OnErr, OnOk};
ghost use Rattle.std.specs.Option.{option_copied};
ghost use Rattle.param_sets.specs.PpsCodes.{IsPps};
ghost use Rattle.param_sets.specs.Sets.{find_pps, find_sps, no_sets, pps_put, sps_put};
ghost use Rattle.param_sets.specs.SpsCodes.{IsSps};

use crate::pps::Pps;
use crate::sps::Sps;
use std::alloc::{AllocError as Memory, Global};
use std::collections::BTreeMap;
use std::marker::Model;

/// The parameter sets in force: of each number the one that was put last (7.4.1.2.1).
#[derive(Drop)]
pub struct Sets {
    sps: BTreeMap<u32, Sps>,
    pps: BTreeMap<u32, Pps>,
}

impl Model for Sets {
    ghost use Rattle.param_sets.specs.Sets.{SetMaps, AreNumberedSps, AreNumberedPps};

    ghost Value = { SetMaps };

    ghost view = { λ s. record { sps = s.sps.entries; pps = s.pps.entries } };

    ghost invariant = { λ s. AreNumberedSps s.sps.entries × AreNumberedPps s.pps.entries };
}

impl Sets {
    /// No sets.
    pub fn new(alloc: Global) -> Self
        ensures { result ≡ no_sets }
    {
        Sets {
            sps: BTreeMap::new(alloc),
            pps: BTreeMap::new(alloc),
        }
    }

    /// Puts a set in the place of the one of its number. Without memory the sets stay as they were.
    pub fn put_sps(&mut self, sps: Sps) -> Result<(), Memory>
        requires { IsSps sps }
        ensures ok { OnOk result (self.new ≡ sps_put sps self.old) }
        ensures err { OnErr result (self.new ≡ self.old) }
    {
        let number = sps.seq_parameter_set_id;
        self.sps.insert(number, sps)?;
        Ok(())
    }

    /// Puts a set in the place of the one of its number. Without memory the sets stay as they were.
    pub fn put_pps(&mut self, pps: Pps) -> Result<(), Memory>
        requires { IsPps pps }
        ensures ok { OnOk result (self.new ≡ pps_put pps self.old) }
        ensures err { OnErr result (self.new ≡ self.old) }
    {
        let number = pps.pic_parameter_set_id;
        self.pps.insert(number, pps)?;
        Ok(())
    }

    /// The sequence parameter set of a number, if one was put.
    pub fn sps(&self, n: u8) -> Option<&Sps>
        ensures found { option_copied result ≡ find_sps n self.now }
        ensures in_range { IfSome result (λ sps. IsSps sps.now) }
        ensures number { IfSome result (λ sps. sps.now.seq_parameter_set_id ≡ n) }
    {
        self.sps.get(&u32::from(n))
    }

    /// The picture parameter set of a number, if one was put.
    pub fn pps(&self, n: u8) -> Option<&Pps>
        ensures found { option_copied result ≡ find_pps n self.now }
        ensures in_range { IfSome result (λ pps. IsPps pps.now) }
        ensures number { IfSome result (λ pps. pps.now.pic_parameter_set_id ≡ n) }
    {
        self.pps.get(&u32::from(n))
    }
}
