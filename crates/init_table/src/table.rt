ghost use Rattle.std.specs.Prelude.{◌≡◌, All, length};

use thiserror::Error;

/// The pairs (m, n) of which the context variables start (9.3.1.1), for the contexts 0 to 459 in four columns: column 0 is
/// that of I slices, columns 1 to 3 are those of cabac_init_idc 0 to 2.
#[derive(Clone, Copy)]
pub struct InitTable {
    pub(crate) pairs: [[(i8, i8); 4]; 460],
    ghost columns: { All (λ row. length row ≡ 4) pairs },
}

/// A text is no table's.
#[derive(Clone, Copy, Debug, PartialEq, Eq, Error)]
#[error("no number of the table stands at word {at}")]
pub struct BadTable {
    /// The number, from 0, of the first word that is missing or no number, or 3,680 where more words follow these numbers.
    pub at: u32,
}
