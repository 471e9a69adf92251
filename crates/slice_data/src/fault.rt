use thiserror::Error;

/// Why bits give no further macroblock of a slice, and no end of it.
#[derive(Clone, Copy, Debug, PartialEq, Eq, Error)]
pub enum SliceFault {
    /// No list of macroblocks has the bits as its slice data.
    #[error("no macroblocks have these data")]
    NoReading,
}

/// Why a macroblock wasn't written.
#[derive(Clone, Copy, Debug, PartialEq, Eq, Error)]
pub enum PutFault {
    /// A level needs a longer level_prefix than the profile has (9.2.2.1). In CABAC it never comes.
    #[error("a level is beyond the escape of CAVLC")]
    Beyond,
    /// No memory was left.
    #[error("out of memory")]
    Memory,
}
