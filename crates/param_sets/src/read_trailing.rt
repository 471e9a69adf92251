//! The end of a payload (7.3.2.11).
ghost use Rattle.std.specs.Prelude.{◌≡◌, ◌<◌, ◌++◌, ◌∷◌, [], ℕ, Bool, false, true, List, replicate, MatchBool};
ghost use Rattle.exp_golomb.specs.Syntax.{outcome_of, Answers};
ghost use Rattle.param_sets.specs.Refusal.{part_says};
ghost use Rattle.param_sets.specs.TrailingBits.{rbsp_trailing_bits, unread_bits, EndsInTrailing};

use crate::elements::Elements;
use crate::fault::SetFault;
use crate::read_element::flag;
use exp_golomb::{BitSource, read_flag};
use std::alloc::Global;

/// The trailing bits, and nothing behind them.
pub fn read_trailing_bits<B: BitSource>(bits: &mut B) -> Result<bool, SetFault>
    ensures { Answers part_says (λ x. x) result [] (outcome_of rbsp_trailing_bits (B.left bits.old)) }
{
    if bits.more_rbsp_data() {
        return Err(SetFault::NoReading);
    }
    if !flag(bits)? {
        return Err(SetFault::NoReading);
    }
    if bits.skip(8) {
        return Err(SetFault::NoReading);
    }
    Ok(true)
}

/// All bits up to the trailing bits.
pub fn read_unread_bits<B: BitSource>(
    alloc: Global,
    bits: &mut B,
) -> Result<Elements<bool>, SetFault>
    ensures { Answers part_says (λ x. x) result [] (outcome_of unread_bits (B.left bits.old)) }
{
    let mut all = Vec::new(alloc);
    while let Some(bit) = read_flag(bits) {
        all.push(bit)?;
    }
    if !drop_trailing_bits(&mut all) {
        return Err(SetFault::NoReading);
    }
    Ok(Elements::new(all))
}

/// Takes trailing bits off the end, where they stand there.
fn drop_trailing_bits(bits: &mut Vec<bool>) -> bool
    ensures { MatchBool result (EndsInTrailing bits.old.items bits.new.items) ((rest : List Bool) → EndsInTrailing bits.old.items rest → ⊥) }
{
    for _zeros in 0..8u8 {
        match bits.pop() {
            Some(true) => return true,
            Some(false) => {}
            None => return false,
        }
    }
    false
}
