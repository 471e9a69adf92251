ghost use Rattle.std.specs.Prelude.{◌≡◌, ◌<◌, ◌≤◌, ◌==◌, nat_lt, ℕ, ◌≤ℤ◌, pos, negsuc};
ghost use Rattle.exp_golomb.specs.Syntax.{outcome_of, Answers};
ghost use Rattle.param_sets.specs.Refusal.{part_says};
ghost use Rattle.param_sets.specs.ScalingLists.{deltas, scaling_list, scaling_lists, scaling_matrix, next_scale, entries_of};

use crate::elements::Elements;
use crate::fault::SetFault;
use crate::read_element::{flag, se};
use exp_golomb::BitSource;
use std::alloc::Global;

/// The scale of the next entry.
fn scale_after(last: u8, delta: i32) -> u8
    requires least { negsuc 127 ≤ℤ delta }
    requires most { delta ≤ℤ pos 127 }
    ensures { result ≡ next_scale last delta }
{
    ((i32::from(last) + delta + 256) % 256) as u8
}

fn read_deltas<B: BitSource>(
    alloc: Global,
    bits: &mut B,
    entries: u8,
) -> Result<Elements<i32>, SetFault>
    ensures { Answers part_says (λ x. x) result (B.left bits.new) (outcome_of (deltas entries 8) (B.left bits.old)) }
{
    let mut deltas = Vec::new(alloc);
    let mut last = 8;
    for _i in 0..entries {
        let delta = se(bits, -128, 127)?;
        deltas.push(delta)?;
        last = scale_after(last, delta);
        if last == 0 {
            return Ok(Elements::new(deltas));
        }
    }
    Ok(Elements::new(deltas))
}

#[tactic(auto, unfolding(exp_golomb::specs::Syntax::outcome_of, crate::specs::ScalingLists::scaling_list))]
fn read_scaling_list<B: BitSource>(
    alloc: Global,
    bits: &mut B,
    entries: u8,
) -> Result<Elements<i32>, SetFault>
    ensures { Answers part_says (λ x. x) result (B.left bits.new) (outcome_of (scaling_list entries) (B.left bits.old)) }
{
    if !flag(bits)? {
        return Ok(Elements::empty(alloc));
    }
    read_deltas(alloc, bits, entries)
}

/// How many entries the list at a place has.
fn entries_at(place: u8) -> u8
    ensures { result ≡ entries_of place }
{
    if place < 6 { 16 } else { 64 }
}

fn read_scaling_lists<B: BitSource>(
    alloc: Global,
    bits: &mut B,
    count: u8,
) -> Result<Elements<Elements<i32>>, SetFault>
    ensures { Answers part_says (λ x. x) result (B.left bits.new) (outcome_of (scaling_lists count) (B.left bits.old)) }
{
    let mut lists = Vec::new(alloc);
    for place in 0..count {
        let list = read_scaling_list(alloc, bits, entries_at(place))?;
        lists.push(list)?;
    }
    Ok(Elements::new(lists))
}

#[tactic(auto, unfolding(exp_golomb::specs::Syntax::outcome_of, crate::specs::ScalingLists::scaling_matrix))]
pub fn read_scaling_matrix<B: BitSource>(
    alloc: Global,
    bits: &mut B,
    present: bool,
    count: u8,
) -> Result<Elements<Elements<i32>>, SetFault>
    ensures { Answers part_says (λ x. x) result (B.left bits.new) (outcome_of (scaling_matrix present count) (B.left bits.old)) }
{
    if !present {
        return Ok(Elements::empty(alloc));
    }
    read_scaling_lists(alloc, bits, count)
}
