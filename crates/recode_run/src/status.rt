// How a run ended.
ghost use Rattle.std.specs.Prelude.{◌≡◌};

use h264_types::{Case, Place, Why};

/// How a run ended.
#[derive(Clone, Copy, Debug, PartialEq, Eq)]
pub enum Status {
    /// The source was read to its end, and all of it was written.
    Ok,

    /// The words aren't the program's.
    BadWords,

    /// The source failed.
    ReadFault,

    /// The sink of the stream failed.
    WriteFault,

    /// A unit can be read and can't be written.
    Stop { case: Case, place: Place },

    /// A unit has no reading.
    Outside { unit: u64, why: Why },

    /// The source has more bytes than a run takes.
    TooMuch,

    /// Memory ran out.
    Memory,

    /// The sink of the report failed.
    ReportFault,

    /// The text of the table fails at its number `at`, from 0.
    BadTable { at: u32 },
}

impl Status {
    ghost use Rattle.recode_run.specs.Status.{code_of};

    /// The exit status of the program: 0 for `Ok`, and 1 to 9 for the others in their order.
    pub fn code(&self) -> u8
        ensures { result ≡ code_of self.now }
    {
        match self {
            Status::Ok => 0,
            Status::BadWords => 1,
            Status::ReadFault => 2,
            Status::WriteFault => 3,
            Status::Stop { .. } => 4,
            Status::Outside { .. } => 5,
            Status::TooMuch => 6,
            Status::Memory => 7,
            Status::ReportFault => 8,
            Status::BadTable { .. } => 9,
        }
    }
}
