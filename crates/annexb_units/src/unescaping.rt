ghost use Rattle.std.specs.Prelude.{◌≡◌, ◌≤◌, ℕ, ◌++◌, length, drop, is_some, slice_index_or, List, None, IfOk, IfErr, OnOk};
ghost use Rattle.std.specs.Option.{option_map};
ghost use Rattle.exp_golomb.specs.EmulationPrevention.{IsEscape, payload_of};
ghost use Rattle.annexb_units.specs.Zeros.{StandsAt};
ghost use Rattle.annexb_units.specs.declared.unescaping.EscapeFault.TheVariants.{BadEscape, Memory};

use crate::escaping::is_low_at;
use memchr::memchr;
use std::alloc::Global;
use thiserror::Error;

/// Why a unit's payload was not made.
#[derive(Clone, Copy, Debug, PartialEq, Eq, Error)]
pub enum EscapeFault {
    /// The unit has no payload.
    #[error("the bytes of the unit are those of no payload")]
    BadEscape,
    /// There is no memory for the payload.
    #[error("out of memory")]
    Memory,
}

/// The payload of a unit (7.3.1): its bytes behind the header byte, without each emulation_prevention_three_byte.
/// BadEscape where these bytes are those of no payload.
pub fn unescape(alloc: Global, unit: &[u8]) -> Result<Vec<u8>, EscapeFault>
    requires { 1 ≤ length unit.now }
    ensures ok { IfOk result (λ payload. IsEscape payload.items (drop 1 unit.now)) }
    ensures err { IfErr result (λ fault. fault ≡ BadEscape → (payload : List ℕ) → IsEscape payload (drop 1 unit.now) → ⊥) }
{
    let mut payload = Vec::with_capacity(alloc, unit.len()).map_err(|_| EscapeFault::Memory)?;
    let mut rest = &unit[1..];
    while let Some(zero) = memchr(0, rest) {
        append(&mut payload, &rest[..zero])?;
        rest = &rest[zero..];
        let done = take_zeros(&mut payload, rest)?;
        rest = &rest[done..];
    }
    append(&mut payload, rest)?;
    Ok(payload)
}

/// Whether a unit has a payload. It takes no memory.
pub fn has_payload(unit: &[u8]) -> bool
    requires { 1 ≤ length unit.now }
    ensures { result ≡ is_some (payload_of (drop 1 unit.now)) }
{
    let mut rest = &unit[1..];
    while let Some(zero) = memchr(0, rest) {
        rest = &rest[zero..];
        match zeros_at(rest) {
            Some(Zeros::Alone) => rest = &rest[1..],
            Some(Zeros::Escaped) => rest = &rest[3..],
            None => return false,
        }
    }
    true
}

/// Takes the zero byte at the front, or two of them with the 03 behind them, and says how many bytes those were.
fn take_zeros(payload: &mut Vec<u8>, bytes: &[u8]) -> Result<usize, EscapeFault>
    requires some { 1 ≤ length bytes.now }
    requires zero { slice_index_or bytes.now 0 1 ≡ 0 }
    ensures done { IfOk result (λ done. (1 ≤ done) × (done ≤ length bytes.now)) }
    ensures taken { IfOk result (λ done. option_map (λ rest. payload.new.items ++ rest) (payload_of (drop done bytes.now)) ≡ option_map (λ rest. payload.old.items ++ rest) (payload_of bytes.now)) }
    ensures bad { IfErr result (λ fault. fault ≡ BadEscape → payload_of bytes.now ≡ None) }
{
    match zeros_at(bytes) {
        Some(Zeros::Alone) => {
            append(payload, &[0])?;
            Ok(1)
        }
        Some(Zeros::Escaped) => {
            append(payload, &[0, 0])?;
            Ok(3)
        }
        None => Err(EscapeFault::BadEscape),
    }
}

/// A zero byte in front of the bytes of a unit.
#[derive(Clone, Copy)]
enum Zeros {
    /// One that no 03 is put behind.
    Alone,
    /// The first of two, which a 03 stands behind.
    Escaped,
}

/// What the zero byte at the front is, if the bytes are those of a payload.
fn zeros_at(bytes: &[u8]) -> Option<Zeros>
    requires some { 1 ≤ length bytes.now }
    requires zero { slice_index_or bytes.now 0 1 ≡ 0 }
    ensures { StandsAt bytes.now result }
{
    if bytes.len() == 1 {
        return None;
    }
    if bytes[1] != 0 {
        return Some(Zeros::Alone);
    }
    if !is_low_at(bytes, 2) {
        return Some(Zeros::Alone);
    }
    if bytes.len() == 2 {
        return None;
    }
    if bytes[2] != 3 {
        return None;
    }
    if !is_low_at(bytes, 3) {
        return None;
    }
    Some(Zeros::Escaped)
}

fn append(payload: &mut Vec<u8>, bytes: &[u8]) -> Result<(), EscapeFault>
    ensures ok { OnOk result (payload.new.items ≡ payload.old.items ++ bytes.now) }
    ensures err { IfErr result (λ fault. fault ≡ Memory) }
{
    payload
        .extend_from_slice(bytes)
        .map_err(|_| EscapeFault::Memory)
}
