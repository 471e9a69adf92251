// Sources of bytes.
ghost use Rattle.std.specs.Prelude.{List, ℕ, Option};
ghost use Rattle.std.specs.Io.{ReadsAtMost};
ghost use Rattle.std.specs.Io.KnownBytes.{ReadConsumes};
ghost use Rattle.unit_io.specs.Faults.{HasCause};

use thiserror::Error;

/// A source could not be read.
#[derive(Clone, Copy, Debug, PartialEq, Eq, Error)]
#[error("the source could not be read")]
pub struct Failed;

/// Where bytes come from.
pub trait Source {
    /// The bytes that it will still give, where it tells them.
    ghost left: { Self → Option (List ℕ) };

    /// How often it has failed, up to the greatest `u64`, where the count stands still.
    ghost faults: { Self → ℕ };

    /// Gives the next bytes into the front of the buffer, at most as many as it has room for, and says how many.
    /// None of them, where there is room, is the end of the input. A failure takes nothing.
    fn read(&mut self, buf: &mut [u8]) -> Result<usize, Failed>
        ensures bound { ReadsAtMost result buf.new }
        ensures bytes { ReadConsumes (left self.old) (left self.new) result buf.new }
        ensures cause { HasCause (faults self.old) (faults self.new) result };
}
