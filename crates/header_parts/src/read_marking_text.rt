ghost use Rattle.std.specs.Prelude.{◌≡◌, ◌≤◌, [], if◌then◌else◌, ◌++◌};
ghost use Rattle.exp_golomb.specs.Syntax.{outcome_of, Answers, when};
ghost use Rattle.header_parts.specs.NalHeader.{is_reference};
ghost use Rattle.header_parts.specs.Refusal.{header_says};
ghost use Rattle.header_parts.specs.RefPicMarking.{marks_idr, marks_other, operands, operation_list, dec_ref_pic_marking};

use crate::fault::HeaderFault;
use crate::header::MemoryManagement;
use crate::parts::Marking;
use crate::read_element::{flag_when, ue};
use crate::read_parts::is_idr_unit;
use exp_golomb::BitSource;
use param_sets::Elements;
use std::alloc::Global;

/// Whether nal_ref_idc of a header byte isn't 0 (7.4.1).
fn is_reference_unit(nal: u8) -> bool
    ensures { result ≡ is_reference nal }
{
    nal / 32 % 4 != 0
}

/// Whether a header byte is that of an IDR picture that is a reference.
pub fn is_idr_reference(nal: u8) -> bool
    ensures { result ≡ marks_idr nal }
{
    is_reference_unit(nal) && is_idr_unit(nal)
}

/// Whether a header byte is that of another picture that is a reference.
pub fn is_other_reference(nal: u8) -> bool
    ensures { result ≡ marks_other nal }
{
    is_reference_unit(nal) && !is_idr_unit(nal)
}

/// The operands of an operation of 1 to 6.
#[tactic(auto, unfolding(exp_golomb::specs::Syntax::outcome_of, crate::specs::RefPicMarking::operands))]
fn read_operands<B: BitSource>(
    bits: &mut B,
    operation: u32,
) -> Result<MemoryManagement, HeaderFault>
    ensures answers { Answers header_says (λ x. x) result (B.left bits.new) (outcome_of (operands operation) (B.left bits.old)) }
    ensures kept { B.taken bits.new ++ B.left bits.new ≡ B.taken bits.old ++ B.left bits.old }
{
    let most = u32::MAX - 1;
    Ok(match operation {
        1 => MemoryManagement::ShortTermUnused {
            difference_of_pic_nums_minus1: ue(bits, most)?,
        },
        2 => MemoryManagement::LongTermUnused {
            long_term_pic_num: ue(bits, most)?,
        },
        3 => MemoryManagement::ShortTermToLongTerm {
            difference_of_pic_nums_minus1: ue(bits, most)?,
            long_term_frame_idx: ue(bits, most)?,
        },
        4 => MemoryManagement::MaxLongTerm {
            max_long_term_frame_idx_plus1: ue(bits, most)?,
        },
        5 => MemoryManagement::AllUnused,
        _ => MemoryManagement::CurrentToLongTerm {
            long_term_frame_idx: ue(bits, most)?,
        },
    })
}

/// Operations up to one of number 0.
fn read_operations<B: BitSource>(
    alloc: Global,
    bits: &mut B,
) -> Result<Elements<MemoryManagement>, HeaderFault>
    ensures answers { Answers header_says (λ x. x) result (B.left bits.new) (outcome_of operation_list (B.left bits.old)) }
    ensures kept { B.taken bits.new ++ B.left bits.new ≡ B.taken bits.old ++ B.left bits.old }
{
    let mut operations = Vec::new(alloc);
    loop {
        let operation = ue(bits, 6)?;
        if operation == 0 {
            return Ok(Elements::new(operations));
        }
        let first = read_operands(bits, operation)?;
        operations.push(first)?;
    }
}

/// The operations where they stand.
#[tactic(auto, unfolding(exp_golomb::specs::Syntax::outcome_of))]
fn read_operations_when<B: BitSource>(
    alloc: Global,
    bits: &mut B,
    present: bool,
) -> Result<Elements<MemoryManagement>, HeaderFault>
    ensures answers { Answers header_says (λ x. x) result (B.left bits.new) (outcome_of (when present [] operation_list) (B.left bits.old)) }
    ensures kept { B.taken bits.new ++ B.left bits.new ≡ B.taken bits.old ++ B.left bits.old }
{
    if !present {
        return Ok(Elements::new(Vec::new(alloc)));
    }
    read_operations(alloc, bits)
}

/// dec_ref_pic_marking (7.3.3.3) of a unit with this header byte.
#[tactic(auto, using(exp_golomb::proofs::Syntaxes::outcome_of_then), unfolding(exp_golomb::specs::Syntax::outcome_of, crate::specs::RefPicMarking::dec_ref_pic_marking))]
pub fn read_marking<B: BitSource>(
    alloc: Global,
    bits: &mut B,
    nal: u8,
) -> Result<Marking, HeaderFault>
    ensures answers { Answers header_says (λ x. x) result (B.left bits.new) (outcome_of (dec_ref_pic_marking nal) (B.left bits.old)) }
    ensures kept { B.taken bits.new ++ B.left bits.new ≡ B.taken bits.old ++ B.left bits.old }
{
    let marks_idr = is_idr_reference(nal);
    let no_output_of_prior_pics_flag = flag_when(bits, marks_idr)?;
    let long_term_reference_flag = flag_when(bits, marks_idr)?;
    let marks_other = is_other_reference(nal);
    let adaptive_ref_pic_marking_mode_flag = flag_when(bits, marks_other)?;
    let operations = read_operations_when(alloc, bits, adaptive_ref_pic_marking_mode_flag)?;
    Ok(Marking {
        no_output_of_prior_pics_flag,
        long_term_reference_flag,
        adaptive_ref_pic_marking_mode_flag,
        operations,
    })
}
