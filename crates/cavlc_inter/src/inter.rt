ghost use Rattle.std.specs.Prelude.{◌≡◌, ◌++◌, option_map};
ghost use Rattle.bit_texts.specs.Texts.{Reads, Appends};
ghost use Rattle.cavlc_inter.specs.InterPrediction as inter;

use crate::parts::Parts;
use crate::refs::{read_refs, write_refs};
use crate::subs::{read_subs_if, write_subs_if};
use crate::vectors::{read_mvds, write_mvds};
use exp_golomb::{BitSink, BitSource};
use h264_types::{Mb, MbKind, has_sizes};
use std::alloc::AllocError as Memory;

/// The greatest reference index that is sent; 0, and none is, where one reference alone is active, and for P_8x8ref0.
fn greatest_ref(ref0: bool, active: u8) -> u8
    ensures { result ≡ inter.greatest_ref ref0 active }
{
    if ref0 { 0 } else { active.saturating_sub(1) }
}

/// Reads the prediction of a macroblock of this type behind its mb_type, where `ref0` says whether that was P_8x8ref0, and
/// so many references of each list are active, in a field macroblock of an MBAFF frame twice as many. Puts sub_mb_type,
/// the reference indices and the vector differences, and leaves all else. None exactly where no elements in range have a
/// text that begins the bits left; what the macroblock then holds isn't said.
pub fn read_inter<B: BitSource>(
    bits: &mut B,
    kind: MbKind,
    ref0: bool,
    active: [u8; 2],
    mb: &mut Mb,
) -> Option<()>
    ensures reads { Reads (λ m. inter.IsInter kind ref0 active m × (m ≡ inter.with_inter mb.old m)) (inter.inter_text kind ref0 active) (B.left bits.old) (option_map (λ _. mb.new) result) (B.left bits.new) }
    ensures kept { B.taken bits.new ++ B.left bits.new ≡ B.taken bits.old ++ B.left bits.old }
{
    let greatest0 = greatest_ref(ref0, active[0]);
    let greatest1 = greatest_ref(ref0, active[1]);
    has_sizes(mb);
    read_subs_if(bits, kind, &mut mb.subs)?;
    let parts = Parts {
        kind,
        subs: mb.subs,
    };
    read_refs(bits, &parts, 0, greatest0, &mut mb.refs[0])?;
    read_refs(bits, &parts, 1, greatest1, &mut mb.refs[1])?;
    read_mvds(bits, &parts, 0, &mut mb.mvd[0])?;
    read_mvds(bits, &parts, 1, &mut mb.mvd[1])
}

/// Appends the prediction of a macroblock behind its mb_type, as `read_inter` reads it. Where memory runs out a front of
/// the text is written.
pub fn write_inter<B: BitSink>(bits: &mut B, active: [u8; 2], mb: &Mb) -> Result<(), Memory>
    requires { inter.IsInter mb.now.kind mb.now.ref0 active mb.now }
    ensures { Appends (B.bits bits.old) (B.bits bits.new) (inter.inter_text mb.now.kind mb.now.ref0 active mb.now) result }
{
    let parts = Parts {
        kind: mb.kind,
        subs: mb.subs,
    };
    let greatest0 = greatest_ref(mb.ref0, active[0]);
    let greatest1 = greatest_ref(mb.ref0, active[1]);
    write_subs_if(bits, mb.kind, &mb.subs)?;
    write_refs(bits, &parts, 0, greatest0, &mb.refs[0])?;
    write_refs(bits, &parts, 1, greatest1, &mb.refs[1])?;
    write_mvds(bits, &parts, 0, &mb.mvd[0])?;
    write_mvds(bits, &parts, 1, &mb.mvd[1])
}
