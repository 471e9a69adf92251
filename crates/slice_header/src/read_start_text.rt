ghost use Rattle.std.specs.Prelude.{◌≡◌, ◌≢◌, List, Bool, IfErr, IfOk, ◌++◌};
ghost use Rattle.exp_golomb.specs.Syntax.{outcome_of, Answers};
ghost use Rattle.param_sets.specs.PpsCodes.{IsPps};
ghost use Rattle.param_sets.specs.SpsCodes.{IsSps};
ghost use Rattle.header_parts.specs.Refusal.{header_says};
ghost use Rattle.slice_header.specs.SliceHeader.{active_sets, slice_start, breaks_main};
ghost use Rattle.header_parts.specs.ActiveSets.{active_view};
ghost use Rattle.header_parts.specs.SliceTypes.{is_switching};
ghost use Rattle.slice_header.specs.Views.{start_view};

use crate::slice_start::SliceStart;
use exp_golomb::BitSource;
use header_parts::read_element::{number, ue};
use header_parts::{ActiveSets, HeaderFault};
use param_sets::{Pps, Sets, Sps};

/// The sets of a picture parameter set's number.
#[tactic(auto, unfolding(exp_golomb::specs::Syntax::outcome_of, crate::specs::SliceHeader::active_sets))]
fn find_sets(sets: &Sets, pic_parameter_set_id: u8) -> Result<ActiveSets<'_>, HeaderFault>
    ensures answers { (left : List Bool) → Answers header_says active_view result left (outcome_of (active_sets sets.now pic_parameter_set_id) left) }
    ensures no_memory { IfErr result (λ fault. fault ≢ HeaderFault.Memory) }
    ensures in_range { IfOk result (λ active. IsSps active.sps.now × IsPps active.pps.now) }
{
    let Some(pps) = sets.pps(pic_parameter_set_id) else {
        return Err(HeaderFault::MissingPps(pic_parameter_set_id));
    };
    let seq_parameter_set_id = pps.seq_parameter_set_id as u8;
    let Some(sps) = sets.sps(seq_parameter_set_id) else {
        return Err(HeaderFault::MissingSps(seq_parameter_set_id));
    };
    if pps.transform_8x8_mode_flag && sps.profile_idc == 77 {
        return Err(HeaderFault::Profile);
    }
    Ok(ActiveSets { sps, pps })
}

/// Whether a slice type is SP or SI (Table 7-6).
fn is_switching_type(slice_type: u32) -> bool
    ensures { result ≡ is_switching slice_type }
{
    slice_type % 5 >= 3
}

/// The elements up to pic_parameter_set_id, and the sets that they name. A slice type of SP or SI is `Profile`, before a
/// set is looked for; then sets that don't stand are `MissingPps` and `MissingSps` with their number, and a transform of
/// 8x8 blocks under Main is `Profile`.
#[tactic(auto, using(exp_golomb::proofs::Syntaxes::outcome_of_then), unfolding(exp_golomb::specs::Syntax::outcome_of, crate::specs::SliceHeader::slice_start))]
pub fn read_start<'a, B: BitSource>(
    sets: &'a Sets,
    bits: &mut B,
) -> Result<SliceStart<'a>, HeaderFault>
    ensures answers { Answers header_says start_view result (B.left bits.new) (outcome_of (slice_start sets.now) (B.left bits.old)) }
    ensures no_memory { IfErr result (λ fault. fault ≢ HeaderFault.Memory) }
    ensures in_range { IfOk result (λ start. IsSps start.active.sps.now × IsPps start.active.pps.now) }
    ensures kept { B.taken bits.new ++ B.left bits.new ≡ B.taken bits.old ++ B.left bits.old }
{
    let first_mb_in_slice = ue(bits, 139_263)?;
    let slice_type = ue(bits, 9)?;
    if is_switching_type(slice_type) {
        return Err(HeaderFault::Profile);
    }
    let pic_parameter_set_id = number(bits)?;
    let active = find_sets(sets, pic_parameter_set_id)?;
    Ok(SliceStart {
        first_mb_in_slice,
        slice_type,
        pic_parameter_set_id: u32::from(pic_parameter_set_id),
        active,
    })
}
