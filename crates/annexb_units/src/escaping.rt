ghost use Rattle.std.specs.Prelude.{◌≡◌, ◌≤◌, ◌∷◌, ◌++◌, length, drop, slice_index_or, IfOk, OnOk, MatchBool};
ghost use Rattle.exp_golomb.specs.EmulationPrevention.{HasEscape, IsEscape, escaped, is_low_or_end};

use memchr::memchr;
use std::alloc::{AllocError as Memory, Global};

/// The bytes of a unit behind its header byte, for this payload (7.3.1, 7.4.1): an emulation_prevention_three_byte
/// stands behind each two zero bytes that a byte of at most 3 or the end follows. The zero bytes at the payload's end
/// are even in number, as those of cabac_zero_words are.
pub fn escape(alloc: Global, payload: &[u8]) -> Result<Vec<u8>, Memory>
    requires { HasEscape payload.now }
    ensures { IfOk result (λ bytes. IsEscape payload.now bytes.items) }
{
    let mut bytes = Vec::with_capacity(alloc, payload.len())?;
    append_escaped(&mut bytes, payload)?;
    Ok(bytes)
}

/// Appends the bytes of a unit with this payload.
pub(crate) fn append_escaped(out: &mut Vec<u8>, payload: &[u8]) -> Result<(), Memory>
    ensures { OnOk result (out.new.items ≡ out.old.items ++ escaped payload.now) }
{
    let mut rest = payload;
    while let Some(zero) = memchr(0, rest) {
        out.extend_from_slice(&rest[..zero])?;
        rest = &rest[zero..];
        let done = append_zeros(out, rest)?;
        rest = &rest[done..];
    }
    out.extend_from_slice(rest)
}

/// Appends the zero byte at the front, or two of them and a 03, and says how many bytes of the payload those were.
fn append_zeros(out: &mut Vec<u8>, payload: &[u8]) -> Result<usize, Memory>
    requires some { 1 ≤ length payload.now }
    requires zero { slice_index_or payload.now 0 1 ≡ 0 }
    ensures done { IfOk result (λ done. (1 ≤ done) × (done ≤ length payload.now)) }
    ensures appended { IfOk result (λ done. out.new.items ++ escaped (drop done payload.now) ≡ out.old.items ++ escaped payload.now) }
{
    if is_emulating(payload) {
        out.extend_from_slice(&[0, 0, 3])?;
        return Ok(2);
    }
    out.push(0)?;
    Ok(1)
}

/// Whether behind the zero byte at the front stands another one that a byte of at most 3 or the end follows.
fn is_emulating(payload: &[u8]) -> bool
    requires some { 1 ≤ length payload.now }
    requires zero { slice_index_or payload.now 0 1 ≡ 0 }
    ensures { MatchBool result
        ((2 ≤ length payload.now) × (escaped payload.now ≡ 0 ∷ 0 ∷ 3 ∷ escaped (drop 2 payload.now)))
        (escaped payload.now ≡ 0 ∷ escaped (drop 1 payload.now)) }
{
    if payload.len() == 1 {
        return false;
    }
    if payload[1] != 0 {
        return false;
    }
    is_low_at(payload, 2)
}

/// Whether a byte of at most 3 stands at a place, or none.
pub(crate) fn is_low_at(bytes: &[u8], place: usize) -> bool
    ensures { result ≡ is_low_or_end (drop place bytes.now) }
{
    match bytes.get(place) {
        Some(byte) => *byte <= 3,
        None => true,
    }
}
