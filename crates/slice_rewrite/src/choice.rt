// The choice of cabac_init_idc by the lengths of a slice's three units.
ghost use Rattle.std.specs.Prelude.{◌≡◌, ◌∷◌, ℕ, List, Bool, length, IfOk, IfErr, OnErr};
ghost use Rattle.bit_texts.specs.Bits.{bits_of, bytes_of};
ghost use Rattle.exp_golomb.specs.EmulationPrevention.{HasEscape, escaped};
ghost use Rattle.h264_types.specs.declared.macroblock.Mb.{Mb};
ghost use Rattle.param_sets.specs.Sets.{SetMaps};
ghost use Rattle.slice_rewrite.specs.Picks.{IsChosen, stands_in};
ghost use Rattle.slice_rewrite.specs.SliceForms.{IsOpened, IsSliceRefusal, coded, sets_in};

use crate::fault::RewriteFault;
use crate::opening::OpenSlice;
use crate::pick::InitPick;
use crate::slice::Written;
use annexb_units::write_unit;
use h264_types::{Layer, SliceKind};
use init_table::InitTable;
use std::alloc::{AllocError as Memory, Global};

// zero_byte and start_code_prefix_one_3bytes (B.1.1)
const START_CODE: u64 = 4;

impl OpenSlice<'_> {
    // Whether cabac_init_idc stands in the slice as it is written for a layer (7.3.3).
    pub(crate) fn sends_idc(&self, to: Layer) -> bool
        ensures { (sets : SetMaps) (header : ℕ) (bits : List Bool) → IsOpened to sets header bits self.now → (mbs : List Mb) → result ≡ stands_in to (coded (sets_in self.now) self.now.header mbs) }
    {
        to == Layer::Cabac && self.shape.kind != SliceKind::I
    }

    // Writes the slice under each number, and gives the form under that which the pick chooses.
    pub(crate) fn recode_by<P: InitPick>(
        &self,
        alloc: Global,
        init: &InitTable,
        to: Layer,
        number: u8,
        pick: &mut P,
    ) -> Result<Written, RewriteFault>
        requires opened { (sets : SetMaps) × (header : ℕ) × (bits : List Bool) × IsOpened to sets header bits self.now }
        ensures ok { (sets : SetMaps) (header : ℕ) (bits : List Bool) → IsOpened to sets header bits self.now → IfOk result (λ form. IsChosen P.tried P.step to init.now number sets header bits pick.old form.payload.items form.macroblocks pick.new) }
        ensures err { (sets : SetMaps) (header : ℕ) (bits : List Bool) → IsOpened to sets header bits self.now → IfErr result (IsSliceRefusal to init.now sets header bits) }
        ensures tried { P.tried pick.new ≡ P.tried pick.old }
        ensures pick { OnErr result (pick.new ≡ pick.old) }
    {
        let first = self.recode_with(alloc, init, to, number, 0)?;
        let second = self.recode_with(alloc, init, to, number, 1)?;
        let third = self.recode_with(alloc, init, to, number, 2)?;
        let header = self.header.nal;
        let lengths = [
            unit_length(alloc, header, first.payload.as_slice())?,
            unit_length(alloc, header, second.payload.as_slice())?,
            unit_length(alloc, header, third.payload.as_slice())?,
        ];
        match pick.choose(&lengths) {
            0 => Ok(first),
            1 => Ok(second),
            _ => Ok(third),
        }
    }
}

// How many bytes a unit with this payload has: its header byte and emulation prevention bytes are counted.
fn unit_length(alloc: Global, header: u8, payload: &[u8]) -> Result<u64, Memory>
    requires { HasEscape (bytes_of (bits_of payload.now)) }
    ensures { IfOk result (λ count. count ≡ length (header ∷ escaped (bytes_of (bits_of payload.now)))) }
{
    let mut unit = Vec::new(alloc);
    write_unit(alloc, &mut unit, header, payload)?;
    Ok(unit.len() as u64 - START_CODE)
}
