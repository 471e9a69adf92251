ghost use Rattle.std.specs.Prelude.{◌≡◌, [], IfOk, ◌++◌};
ghost use Rattle.exp_golomb.specs.Syntax.{outcome_of, Answers, when};
ghost use Rattle.ref_pic_lists.specs.Faults.{list_says};
ghost use Rattle.ref_pic_lists.specs.RefPicListModification.{operand, operation_list, ref_pic_list_modification, ModificationFits, ReadsModification};

use crate::fault::ListFault;
use crate::modification::{ListModification, PicNumModification};
use crate::read_element::{flag, ue};
use exp_golomb::BitSource;
use param_sets::Elements;
use std::alloc::Global;

/// The operand of an operation of 0 to 2.
#[tactic(auto, unfolding(exp_golomb::specs::Syntax::outcome_of, crate::specs::RefPicListModification::operand))]
fn read_operand<B: BitSource>(bits: &mut B, idc: u32) -> Result<PicNumModification, ListFault>
    ensures answers { Answers list_says (λ x. x) result (B.left bits.new) (outcome_of (operand idc) (B.left bits.old)) }
    ensures kept { B.taken bits.new ++ B.left bits.new ≡ B.taken bits.old ++ B.left bits.old }
{
    let most = u32::MAX - 1;
    Ok(match idc {
        0 => PicNumModification::Subtract {
            abs_diff_pic_num_minus1: ue(bits, most)?,
        },
        1 => PicNumModification::Add {
            abs_diff_pic_num_minus1: ue(bits, most)?,
        },
        _ => PicNumModification::LongTerm {
            long_term_pic_num: ue(bits, most)?,
        },
    })
}

/// Operations up to one of 3.
fn read_operations<B: BitSource>(
    alloc: Global,
    bits: &mut B,
) -> Result<Elements<PicNumModification>, ListFault>
    ensures answers { Answers list_says (λ x. x) result (B.left bits.new) (outcome_of operation_list (B.left bits.old)) }
    ensures kept { B.taken bits.new ++ B.left bits.new ≡ B.taken bits.old ++ B.left bits.old }
{
    let mut operations = Vec::new(alloc);
    loop {
        let idc = ue(bits, 3)?;
        if idc == 3 {
            return Ok(Elements::new(operations));
        }
        let first = read_operand(bits, idc)?;
        operations.push(first)?;
    }
}

/// The operations where they stand.
#[tactic(auto, unfolding(exp_golomb::specs::Syntax::outcome_of))]
fn read_operations_when<B: BitSource>(
    alloc: Global,
    bits: &mut B,
    present: bool,
) -> Result<Elements<PicNumModification>, ListFault>
    ensures answers { Answers list_says (λ x. x) result (B.left bits.new) (outcome_of (when present [] operation_list) (B.left bits.old)) }
    ensures kept { B.taken bits.new ++ B.left bits.new ≡ B.taken bits.old ++ B.left bits.old }
{
    if !present {
        return Ok(Elements::new(Vec::new(alloc)));
    }
    read_operations(alloc, bits)
}

/// The flag, and the operations where it is 1.
#[tactic(auto, using(exp_golomb::proofs::Syntaxes::outcome_of_then), unfolding(exp_golomb::specs::Syntax::outcome_of, crate::specs::RefPicListModification::ref_pic_list_modification))]
fn read_whole<B: BitSource>(alloc: Global, bits: &mut B) -> Result<ListModification, ListFault>
    ensures answers { Answers list_says (λ x. x) result (B.left bits.new) (outcome_of ref_pic_list_modification (B.left bits.old)) }
    ensures kept { B.taken bits.new ++ B.left bits.new ≡ B.taken bits.old ++ B.left bits.old }
{
    let flag = flag(bits)?;
    let operations = read_operations_when(alloc, bits, flag)?;
    Ok(ListModification { flag, operations })
}

/// ref_pic_list_modification (7.3.3.1) of one list; just its text is taken. A text of none is `NoReading`, at the element
/// where it stops being one.
pub fn read_modification<B: BitSource>(
    alloc: Global,
    bits: &mut B,
) -> Result<ListModification, ListFault>
    ensures reads { ReadsModification result (B.left bits.old) (B.left bits.new) }
    ensures in_range { IfOk result (λ m. ModificationFits m) }
    // The same as a function of the bits.
    ensures exact { Answers list_says (λ x. x) result (B.left bits.new) (outcome_of ref_pic_list_modification (B.left bits.old)) }
    ensures kept { B.taken bits.new ++ B.left bits.new ≡ B.taken bits.old ++ B.left bits.old }
{
    read_whole(alloc, bits)
}
