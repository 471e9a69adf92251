ghost use Rattle.std.specs.Prelude.{◌≡◌, ℕ, List, [], ◌∷◌, ◌++◌, OnOk, OnErr};
ghost use Rattle.exp_golomb.specs.EmulationPrevention.{HasEscape, escaped};

use crate::escaping::append_escaped;
use std::alloc::{AllocError as Memory, Global};

/// Appends a unit to a byte stream (B.1.1): the start code `00 00 00 01`, the header byte and the bytes of the payload.
/// A refusal leaves the stream as it was. The zero bytes at the payload's end are even in number.
pub fn write_unit(
    alloc: Global,
    out: &mut Vec<u8>,
    header: u8,
    payload: &[u8],
) -> Result<(), Memory>
    requires { HasEscape payload.now }
    ensures ok { OnOk result (out.new.items ≡ out.old.items ++ 0 ∷ 0 ∷ 0 ∷ 1 ∷ header ∷ escaped payload.now) }
    ensures err { OnErr result (out.new.items ≡ out.old.items) }
{
    let mut unit = Vec::with_capacity(alloc, payload.len())?;
    unit.extend_from_slice(&[0, 0, 0, 1, header])?;
    append_escaped(&mut unit, payload)?;
    out.extend_from_slice(unit.as_slice())
}
