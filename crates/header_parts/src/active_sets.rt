use param_sets::{Pps, Sps};

/// The sets that a slice is read under (7.4.1.2.1).
#[derive(Clone, Copy, Drop)]
pub struct ActiveSets<'a> {
    pub sps: &'a Sps,
    pub pps: &'a Pps,
}
