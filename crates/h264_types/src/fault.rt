// Where a stream stops being recoded, and why.

/// A macroblock, by the number of its unit in the stream and its number in the slice, both from 0.
#[derive(Clone, Copy, Debug, PartialEq, Eq)]
pub struct Place {
    pub unit: u64,
    pub mb: u32,
}

/// Why a stream that can be read can't be written in the wanted form.
#[derive(Clone, Copy, Debug, PartialEq, Eq)]
pub enum Case {
    /// A level's code needs a level_prefix beyond the bound of the profile (9.2.2.1).
    Level,
    /// A macroblock would lose its mb_qp_delta together with its coded block pattern (7.3.5).
    Empty,
    /// The number for the second copy of a picture parameter set is taken.
    Number,
}

/// Why a unit has no reading.
#[derive(Clone, Copy, Debug, PartialEq, Eq)]
pub enum Why {
    /// A byte other than zero stands in the place of a start code (B.1.1).
    NoStart,
    /// A start code is followed by no byte of a unit, or by a header byte whose forbidden_zero_bit is 1 (7.4.1).
    Unit,
    /// The unit's nal_unit_type is out of scope.
    Kind,
    /// The unit isn't read yet, or isn't written yet in the wanted layer.
    Unbuilt,
    /// The unit has no escaped form (7.4.1).
    Escape,
    /// No sequence parameter set has the unit's payload as its text (7.3.2.1).
    Sps,
    /// No picture parameter set has the unit's payload as its text (7.3.2.2).
    Pps,
    /// A syntax element is outside the profiles Main and High.
    Profile,
    /// The picture is too large.
    Limit,
    /// No slice header begins the unit's payload (7.3.3).
    Header,
    /// The slice's picture parameter set names a sequence parameter set with this number, which wasn't read.
    MissingSps(u8),
    /// The slice names a picture parameter set with this number, which wasn't read.
    MissingPps(u8),
    /// No list of macroblocks has the slice's data as its text (7.3.4).
    Slice,
}

/// What ended the recoding of a stream. Numbers of units stand still at the greatest `u64`.
#[derive(Clone, Copy, Debug, PartialEq, Eq)]
pub enum Stopped {
    /// A unit that can be read can't be written.
    Stop { case: Case, place: Place },
    /// A unit has no reading.
    Outside { unit: u64, why: Why },
    /// Memory ran out.
    Memory,
}
