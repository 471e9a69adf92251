// How units are treated.
ghost use Rattle.std.specs.Prelude.{◌≡◌};
ghost use Rattle.slice_rewrite.specs.Items.{kind_of, unit_type};

/// How a unit is treated (7.4.1, Table 7-1).
#[derive(Clone, Copy, Debug, PartialEq, Eq)]
pub enum UnitKind {
    /// It is written as it was read: supplemental enhancement information, delimiters, ends of sequences and streams,
    /// filler data and the unspecified types 24 to 31.
    Carried,
    /// A coded slice.
    Slice,
    /// A sequence parameter set.
    Sps,
    /// A picture parameter set.
    Pps,
    /// Out of scope.
    Refused,
}

/// nal_unit_type, the last five bits of the header byte (7.3.1).
pub fn unit_type(unit: &[u8]) -> u8
    ensures { result ≡ unit_type unit.now }
{
    match unit {
        [header, ..] => *header % 32,
        [] => 0,
    }
}

/// How a unit is treated.
pub fn unit_kind(unit: &[u8]) -> UnitKind
    ensures { result ≡ kind_of unit.now }
{
    match unit_type(unit) {
        1 | 5 => UnitKind::Slice,
        6 | 9..=12 | 24.. => UnitKind::Carried,
        7 => UnitKind::Sps,
        8 => UnitKind::Pps,
        _ => UnitKind::Refused,
    }
}
