// What is written for a unit.
ghost use Rattle.std.specs.Prelude.{◌≡◌, ◌≤◌, ◌∷◌, ℕ, List, Bool, length, map, OnOk, IfOk, IfErr, None};
ghost use Rattle.std.specs.List.{concat};
ghost use Rattle.bit_texts.specs.Bits.{bits_of, bytes_of};
ghost use Rattle.exp_golomb.specs.EmulationPrevention.{HasEscape, escaped};
ghost use Rattle.h264_types.specs.declared.layer.Layer.{Layer};
ghost use Rattle.init_table.specs.declared.table.InitTable.{InitTable};
ghost use Rattle.param_sets.specs.PpsCodes.{IsPps};
ghost use Rattle.param_sets.specs.Sets.{SetMaps};
ghost use Rattle.param_sets.specs.SpsCodes.{IsSps, without_constraints};
ghost use Rattle.slice_rewrite.specs.Items.{Item, header_of, kind_of};
ghost use Rattle.slice_rewrite.specs.Options.{options};
ghost use Rattle.slice_rewrite.specs.SliceForms.{IsCounted, IsNotRead, IsOpened, IsSliceRefusal};
ghost use Rattle.slice_rewrite.specs.Verdict.{number_stop};
ghost use Rattle.slice_rewrite.specs.Written.{with_start_code, sps_unit, pps_unit, pps_units};
ghost use Rattle.slice_rewrite.specs.declared.pick.Tries.{Tries};
ghost use Rattle.stream_recoder.specs.Forms.{AreBehind, IsForm, IsPickedForm, IsPickBehind, IsPpsRefusal, IsRecodedBehind, IsRecodedForm, IsRefusal, is_taken, set_fault};
ghost use Rattle.stream_recoder.specs.declared.periods.Periods.{Periods};

use crate::periods::Periods;
use annexb_units::{has_payload, unescape, write_unit};
use h264_types::{Case, Layer, Why};
use init_table::InitTable;
use param_sets::{Pps, SetFault, Sets, Sps, read_pps, read_sps, write_pps, write_sps};
use slice_rewrite::{InitPick, OpenSlice, Plan, RewriteFault, UnitKind, open_slice, unit_kind};
use std::alloc::{AllocError as Memory, Global};

/// A unit in its written form.
#[derive(Drop)]
pub struct UnitForm {
    /// The bytes that are written for it, start codes included.
    pub bytes: Vec<u8>,
    /// How many macroblocks it has.
    pub macroblocks: u32,
}

/// What is written for a unit under the sets that stand and behind the periods that have begun. A parameter set stands behind it,
/// and a period may begin with it.
pub fn unit_form<P: InitPick>(
    alloc: Global,
    plan: Plan,
    init: &InitTable,
    pick: &mut P,
    sets: &mut Sets,
    periods: &mut Periods,
    unit: &[u8],
) -> Result<UnitForm, RewriteFault>
    ensures ok { (before : List Item) → AreBehind before sets.old periods.old → IfOk result (λ form. IsPickedForm P.tried P.step (options plan init.now (P.tried pick.old)) before sets.new periods.new unit.now form.bytes.items form.macroblocks pick.old pick.new) }
    ensures err { (before : List Item) → AreBehind before sets.old periods.old → IfErr result (IsRefusal (options plan init.now (P.tried pick.old)) before unit.now) }
    ensures tried { P.tried pick.new ≡ P.tried pick.old }
    ensures pick { (before : List Item) → AreBehind before sets.old periods.old → IfErr result (λ fault. IsPickBehind P.tried P.step (options plan init.now (P.tried pick.old)) before unit.now fault pick.old pick.new) }
{
    if unit.is_empty() {
        return Err(RewriteFault::Outside(Why::Kind));
    }
    match unit_kind(unit) {
        UnitKind::Carried => carried_form(alloc, plan, sets, unit),
        UnitKind::Sps => sps_form(alloc, plan, sets, unit),
        UnitKind::Pps => pps_form(alloc, plan, sets, unit),
        UnitKind::Slice => coded_form(alloc, plan, init, pick, sets, periods, unit),
        UnitKind::Refused => Err(RewriteFault::Outside(Why::Kind)),
    }
}

// A carried unit is written as it was read.
fn carried_form(
    alloc: Global,
    plan: Plan,
    sets: &Sets,
    unit: &[u8],
) -> Result<UnitForm, RewriteFault>
    requires kind { kind_of unit.now ≡ UnitKind.Carried }
    requires some { 1 ≤ length unit.now }
    ensures ok { (init : InitTable) (tries : Tries) (before : List Item) (periods : Periods) → AreBehind before sets.now periods → IfOk result (λ form. IsForm (options plan init tries) before sets.now periods unit.now form.bytes.items form.macroblocks) }
    ensures err { (init : InitTable) (tries : Tries) (before : List Item) → IfErr result (IsRefusal (options plan init tries) before unit.now) }
{
    if !has_payload(unit) {
        return Err(RewriteFault::Outside(Why::Escape));
    }
    let bytes = with_start_code(alloc, unit)?;
    Ok(UnitForm {
        bytes,
        macroblocks: 0,
    })
}

// A unit behind a start code of four bytes.
fn with_start_code(alloc: Global, unit: &[u8]) -> Result<Vec<u8>, Memory>
    ensures { IfOk result (λ form. form.items ≡ with_start_code unit.now) }
{
    let mut form = Vec::with_capacity(alloc, 4 + unit.len())?;
    form.extend_from_slice(&[0, 0, 0, 1])?;
    form.extend_from_slice(unit)?;
    Ok(form)
}

// A sequence parameter set is written without the constraint flags that promise streams without CABAC.
fn sps_form(
    alloc: Global,
    plan: Plan,
    sets: &mut Sets,
    unit: &[u8],
) -> Result<UnitForm, RewriteFault>
    requires kind { kind_of unit.now ≡ UnitKind.Sps }
    requires some { 1 ≤ length unit.now }
    ensures ok { (init : InitTable) (tries : Tries) (before : List Item) (periods : Periods) → AreBehind before sets.old periods → IfOk result (λ form. IsForm (options plan init tries) before sets.new periods unit.now form.bytes.items form.macroblocks) }
    ensures err { (init : InitTable) (tries : Tries) (before : List Item) (periods : Periods) → AreBehind before sets.old periods → IfErr result (IsRefusal (options plan init tries) before unit.now) }
{
    let payload = unescape(alloc, unit)?;
    let sps = match read_sps(alloc, payload.as_slice()) {
        Ok(sps) => sps,
        Err(fault) => return Err(set_fault(Why::Sps, fault)),
    };
    let (bytes, sps) = sps_unit(alloc, unit[0], sps)?;
    sets.put_sps(sps)?;
    Ok(UnitForm {
        bytes,
        macroblocks: 0,
    })
}

// A picture parameter set is written in the wanted layer.
fn pps_form(
    alloc: Global,
    plan: Plan,
    sets: &mut Sets,
    unit: &[u8],
) -> Result<UnitForm, RewriteFault>
    requires kind { kind_of unit.now ≡ UnitKind.Pps }
    requires some { 1 ≤ length unit.now }
    ensures ok { (init : InitTable) (tries : Tries) (before : List Item) (periods : Periods) → AreBehind before sets.old periods → IfOk result (λ form. IsForm (options plan init tries) before sets.new periods unit.now form.bytes.items form.macroblocks) }
    ensures err { (init : InitTable) (tries : Tries) (before : List Item) (periods : Periods) → AreBehind before sets.old periods → IfErr result (IsRefusal (options plan init tries) before unit.now) }
{
    let payload = unescape(alloc, unit)?;
    let pps = match read_pps(alloc, payload.as_slice()) {
        Ok(pps) => pps,
        Err(fault) => return Err(set_fault(Why::Pps, fault)),
    };
    let bytes = pps_units(alloc, plan, sets, unit, &pps)?;
    sets.put_pps(pps)?;
    Ok(UnitForm {
        bytes,
        macroblocks: 0,
    })
}

// The units that are written for a picture parameter set. In a partial run these are two: the slices that aren't recoded name
// the set as it was read, and the others the one in the wanted layer, whose number no other set may have.
fn pps_units(
    alloc: Global,
    plan: Plan,
    sets: &Sets,
    unit: &[u8],
    pps: &Pps,
) -> Result<Vec<u8>, RewriteFault>
    requires some { 1 ≤ length unit.now }
    requires is_pps { IsPps pps.now }
    ensures ok { (init : InitTable) (tries : Tries) → IfOk result (λ form. form.items ≡ concat (map with_start_code (pps_units (options plan init tries) plan.range unit.now (header_of unit.now) pps.now))) }
    ensures free { OnOk result (number_stop plan.range (is_taken sets.now pps.now.pic_parameter_set_id) ≡ None) }
    ensures err { IfErr result (IsPpsRefusal plan.range sets.now pps.now.pic_parameter_set_id) }
{
    let number = pps.pic_parameter_set_id as u8;
    if plan.range.is_none() {
        return Ok(pps_unit(alloc, unit[0], plan.to, number, pps)?);
    }
    let other = 255 - number;
    if sets.pps(other).is_some() {
        return Err(RewriteFault::Stop(Case::Number, 0));
    }
    let mut bytes = with_start_code(alloc, unit)?;
    let second = pps_unit(alloc, unit[0], plan.to, other, pps)?;
    bytes.extend_from_slice(second.as_slice())?;
    Ok(bytes)
}

// A slice is written in the wanted layer where it is recoded, and as it was read where it isn't.
fn coded_form<P: InitPick>(
    alloc: Global,
    plan: Plan,
    init: &InitTable,
    pick: &mut P,
    sets: &Sets,
    periods: &mut Periods,
    unit: &[u8],
) -> Result<UnitForm, RewriteFault>
    requires kind { kind_of unit.now ≡ UnitKind.Slice }
    requires some { 1 ≤ length unit.now }
    ensures ok { (before : List Item) → AreBehind before sets.now periods.old → IfOk result (λ form. IsPickedForm P.tried P.step (options plan init.now (P.tried pick.old)) before sets.now periods.new unit.now form.bytes.items form.macroblocks pick.old pick.new) }
    ensures err { (before : List Item) → AreBehind before sets.now periods.old → IfErr result (IsRefusal (options plan init.now (P.tried pick.old)) before unit.now) }
    ensures tried { P.tried pick.new ≡ P.tried pick.old }
    ensures pick { (before : List Item) → AreBehind before sets.now periods.old → IfErr result (λ fault. IsPickBehind P.tried P.step (options plan init.now (P.tried pick.old)) before unit.now fault pick.old pick.new) }
{
    let payload = unescape(alloc, unit)?;
    let opened = open_slice(alloc, sets, unit[0], payload.as_slice(), plan.to)?;
    let behind = periods.behind(opened.idr_pic_id());
    let form = if behind.are_in(plan.range) {
        recoded_form(alloc, plan, init, pick, unit[0], &opened)?
    } else {
        read_form(alloc, init, unit, &opened)?
    };
    *periods = behind;
    Ok(form)
}

// A slice in the wanted layer. In a partial run it names the set in that layer.
fn recoded_form<P: InitPick>(
    alloc: Global,
    plan: Plan,
    init: &InitTable,
    pick: &mut P,
    header: u8,
    opened: &OpenSlice<'_>,
) -> Result<UnitForm, RewriteFault>
    requires { (sets : SetMaps) × (bits : List Bool) × IsOpened plan.to sets header bits opened.now }
    ensures ok { (sets : SetMaps) (bits : List Bool) → IsOpened plan.to sets header bits opened.now → IfOk result (λ form. IsRecodedForm P.tried P.step (options plan init.now (P.tried pick.old)) sets header bits form.bytes.items form.macroblocks pick.old pick.new) }
    ensures err { (sets : SetMaps) (bits : List Bool) → IsOpened plan.to sets header bits opened.now → IfErr result (IsSliceRefusal plan.to init.now sets header bits) }
    ensures tried { P.tried pick.new ≡ P.tried pick.old }
    ensures pick { (sets : SetMaps) (bits : List Bool) → IsOpened plan.to sets header bits opened.now → IfErr result (λ fault. IsRecodedBehind P.tried P.step (options plan init.now (P.tried pick.old)) sets header bits fault pick.old pick.new) }
{
    let own = opened.pps_number();
    let number = if plan.range.is_some() { 255 - own } else { own };
    let slice = opened.recode(alloc, init, plan.to, number, pick)?;
    let bytes = payload_unit(alloc, header, slice.payload.as_slice())?;
    Ok(UnitForm {
        bytes,
        macroblocks: slice.macroblocks,
    })
}

// A slice as it was read.
fn read_form(
    alloc: Global,
    init: &InitTable,
    unit: &[u8],
    opened: &OpenSlice<'_>,
) -> Result<UnitForm, RewriteFault>
    requires { (to : Layer) × (sets : SetMaps) × (header : ℕ) × (bits : List Bool) × IsOpened to sets header bits opened.now }
    ensures bytes { IfOk result (λ form. form.bytes.items ≡ with_start_code unit.now) }
    ensures ok { (to : Layer) (sets : SetMaps) (header : ℕ) (bits : List Bool) → IsOpened to sets header bits opened.now → IfOk result (λ form. IsCounted to init.now sets header bits form.macroblocks) }
    ensures err { (to : Layer) (sets : SetMaps) (header : ℕ) (bits : List Bool) → IsOpened to sets header bits opened.now → IfErr result (IsNotRead to init.now sets header bits) }
{
    let macroblocks = opened.count(alloc, init)?;
    let bytes = with_start_code(alloc, unit)?;
    Ok(UnitForm { bytes, macroblocks })
}

// Why a parameter set isn't read; where its bits have no reading this is the name of that.
fn set_fault(unread: Why, fault: SetFault) -> RewriteFault
    ensures { result ≡ set_fault unread fault }
{
    match fault {
        SetFault::NoReading => RewriteFault::Outside(unread),
        SetFault::Profile => RewriteFault::Outside(Why::Profile),
        SetFault::Limit => RewriteFault::Outside(Why::Limit),
        SetFault::Memory => RewriteFault::Memory,
    }
}

// The unit that is written for a set, and the set again.
fn sps_unit(alloc: Global, header: u8, sps: Sps) -> Result<(Vec<u8>, Sps), Memory>
    requires { IsSps sps }
    ensures bytes { IfOk result (λ unit. unit.0.items ≡ with_start_code (sps_unit header sps)) }
    ensures kept { IfOk result (λ unit. unit.1 ≡ sps) }
{
    let flags = (sps.constraint_set0_flag, sps.constraint_set2_flag);
    let written = constrained(sps, false, false);
    let payload = write_sps(alloc, &written)?;
    let bytes = payload_unit(alloc, header, payload.as_slice())?;
    Ok((bytes, constrained(written, flags.0, flags.1)))
}

// The set with these constraint flags.
fn constrained(sps: Sps, flag0: bool, flag2: bool) -> Sps
    ensures { result ≡ record sps { constraint_set0_flag = flag0; constraint_set2_flag = flag2 } }
{
    Sps {
        constraint_set0_flag: flag0,
        constraint_set2_flag: flag2,
        ..sps
    }
}

// The unit that is written for a picture parameter set in a layer, under this number.
fn pps_unit(alloc: Global, header: u8, to: Layer, number: u8, pps: &Pps) -> Result<Vec<u8>, Memory>
    requires { IsPps pps.now }
    ensures { IfOk result (λ form. form.items ≡ with_start_code (pps_unit to number header pps.now)) }
{
    let payload = write_pps(alloc, pps, to, number)?;
    payload_unit(alloc, header, payload.as_slice())
}

// The unit with this payload, behind a start code.
fn payload_unit(alloc: Global, header: u8, payload: &[u8]) -> Result<Vec<u8>, Memory>
    requires { HasEscape (bytes_of (bits_of payload.now)) }
    ensures { IfOk result (λ form. form.items ≡ with_start_code (header ∷ escaped (bytes_of (bits_of payload.now)))) }
{
    let mut form = Vec::new(alloc);
    write_unit(alloc, &mut form, header, payload)?;
    Ok(form)
}
