ghost use Rattle.std.specs.Prelude.{◌≡◌, IfOk, ◌++◌};
ghost use Rattle.exp_golomb.specs.Syntax.{outcome_of, Answers};
ghost use Rattle.ref_pic_lists.specs.Faults.{list_says};
ghost use Rattle.ref_pic_lists.specs.PredWeightTable.{weight_and_offset, chroma_weights, luma_when, chroma_when, entry, entries, count_of, pred_weight_table, ReadsWeights, WeightsFit};

use crate::fault::ListFault;
use crate::read_element::{flag, signed, ue};
use crate::weights::{ChromaWeights, EntryWeights, Weight, WeightTable};
use exp_golomb::BitSource;
use param_sets::Elements;
use std::alloc::Global;

/// A weight and its offset.
#[tactic(auto, unfolding(exp_golomb::specs::Syntax::outcome_of, crate::specs::PredWeightTable::weight_and_offset))]
fn read_weight<B: BitSource>(bits: &mut B) -> Result<Weight, ListFault>
    ensures answers { Answers list_says (λ x. x) result (B.left bits.new) (outcome_of weight_and_offset (B.left bits.old)) }
    ensures kept { B.taken bits.new ++ B.left bits.new ≡ B.taken bits.old ++ B.left bits.old }
{
    let weight = signed(bits)?;
    let offset = signed(bits)?;
    Ok(Weight { weight, offset })
}

/// Those of Cb, and then those of Cr.
#[tactic(auto, using(exp_golomb::proofs::Syntaxes::outcome_of_then), unfolding(exp_golomb::specs::Syntax::outcome_of, crate::specs::PredWeightTable::chroma_weights))]
fn read_chroma<B: BitSource>(bits: &mut B) -> Result<ChromaWeights, ListFault>
    ensures answers { Answers list_says (λ x. x) result (B.left bits.new) (outcome_of chroma_weights (B.left bits.old)) }
    ensures kept { B.taken bits.new ++ B.left bits.new ≡ B.taken bits.old ++ B.left bits.old }
{
    let cb = read_weight(bits)?;
    let cr = read_weight(bits)?;
    Ok(ChromaWeights { cb, cr })
}

/// The luma weights where they stand.
#[tactic(auto, using(exp_golomb::proofs::Syntaxes::outcome_of_then), unfolding(exp_golomb::specs::Syntax::outcome_of, crate::specs::PredWeightTable::luma_when))]
fn read_luma_when<B: BitSource>(bits: &mut B, present: bool) -> Result<Option<Weight>, ListFault>
    ensures answers { Answers list_says (λ x. x) result (B.left bits.new) (outcome_of (luma_when present) (B.left bits.old)) }
    ensures kept { B.taken bits.new ++ B.left bits.new ≡ B.taken bits.old ++ B.left bits.old }
{
    if !present {
        return Ok(None);
    }
    let luma = read_weight(bits)?;
    Ok(Some(luma))
}

/// The chroma weights where they stand.
#[tactic(auto, using(exp_golomb::proofs::Syntaxes::outcome_of_then), unfolding(exp_golomb::specs::Syntax::outcome_of, crate::specs::PredWeightTable::chroma_when))]
fn read_chroma_when<B: BitSource>(
    bits: &mut B,
    present: bool,
) -> Result<Option<ChromaWeights>, ListFault>
    ensures answers { Answers list_says (λ x. x) result (B.left bits.new) (outcome_of (chroma_when present) (B.left bits.old)) }
    ensures kept { B.taken bits.new ++ B.left bits.new ≡ B.taken bits.old ++ B.left bits.old }
{
    if !present {
        return Ok(None);
    }
    let chroma = read_chroma(bits)?;
    Ok(Some(chroma))
}

/// The weights of one reference.
#[tactic(auto, using(exp_golomb::proofs::Syntaxes::outcome_of_then), unfolding(exp_golomb::specs::Syntax::outcome_of, crate::specs::PredWeightTable::entry))]
fn read_entry<B: BitSource>(bits: &mut B) -> Result<EntryWeights, ListFault>
    ensures answers { Answers list_says (λ x. x) result (B.left bits.new) (outcome_of entry (B.left bits.old)) }
    ensures kept { B.taken bits.new ++ B.left bits.new ≡ B.taken bits.old ++ B.left bits.old }
{
    let luma_weight_flag = flag(bits)?;
    let luma = read_luma_when(bits, luma_weight_flag)?;
    let chroma_weight_flag = flag(bits)?;
    let chroma = read_chroma_when(bits, chroma_weight_flag)?;
    Ok(EntryWeights { luma, chroma })
}

/// Those of so many references.
fn read_entries<B: BitSource>(
    alloc: Global,
    bits: &mut B,
    count: u8,
) -> Result<Elements<EntryWeights>, ListFault>
    ensures answers { Answers list_says (λ x. x) result (B.left bits.new) (outcome_of (entries count) (B.left bits.old)) }
    ensures kept { B.taken bits.new ++ B.left bits.new ≡ B.taken bits.old ++ B.left bits.old }
{
    let mut read = Vec::new(alloc);
    for _place in 0..count {
        let one = read_entry(bits)?;
        read.push(one)?;
    }
    Ok(Elements::new(read))
}

/// How many entries list 1 has.
fn count_of_list_1(num_ref_idx_l1_active: Option<u8>) -> u8
    ensures { result ≡ count_of num_ref_idx_l1_active }
{
    match num_ref_idx_l1_active {
        None => 0,
        Some(count) => count,
    }
}

/// The denominators, and the entries of the lists.
#[tactic(auto, using(exp_golomb::proofs::Syntaxes::outcome_of_then), unfolding(exp_golomb::specs::Syntax::outcome_of, crate::specs::PredWeightTable::pred_weight_table))]
fn read_whole<B: BitSource>(
    alloc: Global,
    bits: &mut B,
    num_ref_idx_l0_active: u8,
    num_ref_idx_l1_active: Option<u8>,
) -> Result<WeightTable, ListFault>
    ensures answers { Answers list_says (λ x. x) result (B.left bits.new) (outcome_of (pred_weight_table num_ref_idx_l0_active num_ref_idx_l1_active) (B.left bits.old)) }
    ensures kept { B.taken bits.new ++ B.left bits.new ≡ B.taken bits.old ++ B.left bits.old }
{
    let luma_log2_weight_denom = ue(bits, 7)?;
    let chroma_log2_weight_denom = ue(bits, 7)?;
    let list_0 = read_entries(alloc, bits, num_ref_idx_l0_active)?;
    let list_1 = read_entries(alloc, bits, count_of_list_1(num_ref_idx_l1_active))?;
    Ok(WeightTable {
        luma_log2_weight_denom,
        chroma_log2_weight_denom,
        list_0,
        list_1,
    })
}

/// pred_weight_table (7.3.3.2), with chroma of 4:2:0, for so many active references of list 0, and of list 1, which is
/// `None` in a P slice; just its text is taken. A text of none is `NoReading`, at the element where it stops being one.
pub fn read_weights<B: BitSource>(
    alloc: Global,
    bits: &mut B,
    num_ref_idx_l0_active: u8,
    num_ref_idx_l1_active: Option<u8>,
) -> Result<WeightTable, ListFault>
    ensures reads { ReadsWeights num_ref_idx_l0_active num_ref_idx_l1_active result (B.left bits.old) (B.left bits.new) }
    ensures in_range { IfOk result (λ t. WeightsFit num_ref_idx_l0_active num_ref_idx_l1_active t) }
    // The same as a function of the bits.
    ensures exact { Answers list_says (λ x. x) result (B.left bits.new) (outcome_of (pred_weight_table num_ref_idx_l0_active num_ref_idx_l1_active) (B.left bits.old)) }
    ensures kept { B.taken bits.new ++ B.left bits.new ≡ B.taken bits.old ++ B.left bits.old }
{
    read_whole(alloc, bits, num_ref_idx_l0_active, num_ref_idx_l1_active)
}
