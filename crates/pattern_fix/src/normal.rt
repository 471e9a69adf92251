ghost use Rattle.std.specs.Prelude.{◌≡◌, ◌<◌, ◌↔◌, IsErr, IsTrue, OnErr, OnOk, IfOk};
ghost use Rattle.pattern_fix.specs.NormalPattern.{all_zero, empty_bit, normal, normal_luma, IsEmptied};

use h264_types::Mb;
use thiserror::Error;

/// No bit is left of a macroblock's coded_block_pattern, and with it would go its mb_qp_delta, which isn't 0 (7.3.5).
#[derive(Clone, Copy, Debug, PartialEq, Eq, Error)]
#[error("the macroblock would lose its mb_qp_delta")]
pub struct Emptied;

/// The macroblock in normal form. With transform_size_8x8_flag the bit of CodedBlockPatternLuma of each 8x8 block whose 64
/// levels are all 0 is cleared; where none is left, a P or B macroblock has no such flag (7.3.5, 7.4.5). All else stays.
pub fn fix(mb: &Mb) -> Result<Mb, Emptied>
    ensures normal { IfOk result (λ fixed. fixed ≡ normal mb.now) }
    ensures emptied { IsErr result ↔ IsEmptied mb.now }
{
    let mut fixed = *mb;
    normalise(&mut fixed)?;
    Ok(fixed)
}

/// Brings a macroblock into the form that [`fix`] gives. One that is refused stays as it is.
pub fn normalise(mb: &mut Mb) -> Result<(), Emptied>
    ensures normal { OnOk result (mb.new ≡ normal mb.old) }
    ensures emptied { IsErr result ↔ IsEmptied mb.old }
    ensures unchanged { OnErr result (mb.new ≡ mb.old) }
{
    let luma = luma_with_levels(mb);
    if is_emptied(mb, luma) {
        return Err(Emptied);
    }
    mb.t8 = mb.t8 && !(luma == 0 && mb.kind.is_inter());
    mb.pattern.luma = luma;
    Ok(())
}

/// Whether a macroblock stays as it is in [`normalise`], which doesn't refuse it.
pub fn is_normal(mb: &Mb) -> bool
    ensures { IsTrue result ↔ ((normal mb.now ≡ mb.now) × (IsEmptied mb.now → ⊥)) }
{
    let luma = luma_with_levels(mb);
    let has_t8_alone = mb.t8 && luma == 0 && mb.kind.is_inter();
    luma == mb.pattern.luma && !has_t8_alone && !is_emptied(mb, luma)
}

/// Whether a macroblock with this luma pattern has no place for its mb_qp_delta, which isn't 0 (7.3.5).
fn is_emptied(mb: &Mb, luma: u8) -> bool
    requires { luma ≡ normal_luma mb.now }
    ensures { IsTrue result ↔ IsEmptied mb.now }
{
    luma == 0 && mb.pattern.chroma == 0 && mb.qp_delta != 0 && mb.kind.sends_pattern()
}

/// CodedBlockPatternLuma without the bits that stand for no level.
fn luma_with_levels(mb: &Mb) -> u8
    ensures { result ≡ normal_luma mb.now }
{
    let empty = empty_bit(mb, 0) + empty_bit(mb, 1) + empty_bit(mb, 2) + empty_bit(mb, 3);
    mb.pattern.luma - empty
}

/// The bit of an 8x8 block in CodedBlockPatternLuma where it stands for no level, else 0.
#[tactic(auto, using(crate::proofs::Bits::and_one_shl))]
fn empty_bit(mb: &Mb, quarter: u8) -> u8
    requires { quarter < 4 }
    ensures { result ≡ empty_bit mb.now quarter }
{
    let bit = mb.pattern.luma & (1 << quarter);
    if mb.t8 && bit != 0 && is_zero(&mb.luma[quarter as usize]) {
        bit
    } else {
        0
    }
}

/// Whether all levels are 0.
fn is_zero(levels: &[i32]) -> bool
    ensures { result ≡ all_zero levels.now }
{
    levels.iter().all(|level| *level == 0)
}
