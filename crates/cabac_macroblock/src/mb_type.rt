//! mb_skip_flag and mb_type (ITU-T H.264, 7.3.4, 7.3.5, Tables 7-10 to 7-14).
ghost use Rattle.std.specs.Prelude.{◌≡◌, ℕ, ◌+◌, ◌≤◌, false, true, IfSome, OnOk, OnSome, OnErr, IsTrue, List};
ghost use Rattle.binarisation.specs.BinString.{Reads, Writes};
ghost use Rattle.h264_types.specs.Kind.{is_skip, is_i_pcm};
ghost use Rattle.h264_types.specs.LastRows.{StandsAt};
ghost use Rattle.h264_types.specs.Slice.{IsInPicture};
ghost use Rattle.h264_types.specs.Valid.{is_kind_in};
ghost use Rattle.h264_types.specs.declared.macroblock.Mb.{Mb};
ghost use Rattle.h264_types.specs.declared.macroblock.MbKind.TheVariants.{Intra};
ghost use Rattle.cabac_contexts.specs.Terms.{IsReadAt};
ghost use Rattle.cabac_macroblock.specs.MbType as types;

use binarisation::{
    read_skip_b, read_skip_p, read_type_b, read_type_i, read_type_p, write_skip_b, write_skip_p,
    write_type_b, write_type_i, write_type_p,
};
use cabac_contexts::{ctx_inc_skip, ctx_inc_type_b, ctx_inc_type_i};
use cabac_engine::{BinSink, BinSource};
use h264_types::{Mb, MbKind, Rows, SliceKind, SliceShape};
use std::alloc::AllocError as Memory;

/// Reads mb_skip_flag of a macroblock that has the flag of its pair: none in I slices, where no macroblock is skipped. Of a
/// pair whose top is skipped, the top may be missing in `done` at its bottom.
pub fn read_skip<S: BinSource>(
    s: &mut S,
    shape: &SliceShape,
    done: &Rows<Mb>,
    at: u32,
    mb: &Mb,
) -> Option<bool>
    requires going { S.over s.old ≡ false }
    requires picture { IsInPicture shape.now at }
    ensures reads { (mbs : List Mb) → StandsAt (λ mb. mb) shape.now done.now mbs at → Reads S.step (types.skip_flag shape.now mbs at mb.now.field) result s.old s.new }
    ensures going { OnSome result (S.over s.new ≡ false) }
{
    match shape.kind {
        SliceKind::I => Some(false),
        SliceKind::P => read_skip_p(s, ctx_inc_skip(shape, done, at, mb.field, mb)),
        SliceKind::B => read_skip_b(s, ctx_inc_skip(shape, done, at, mb.field, mb)),
    }
}

/// Writes mb_skip_flag.
pub fn write_skip<S: BinSink>(
    s: &mut S,
    shape: &SliceShape,
    done: &Rows<Mb>,
    at: u32,
    mb: &Mb,
) -> Result<(), Memory>
    requires going { S.over s.old ≡ false }
    requires picture { IsInPicture shape.now at }
    requires kind { IsTrue (is_kind_in shape.now.kind mb.now.kind) }
    ensures writes { (mbs : List Mb) → StandsAt (λ mb. mb) shape.now done.now mbs at → OnOk result (Writes S.step (types.skip_flag shape.now mbs at mb.now.field) (is_skip mb.now.kind) s.old s.new) }
    ensures going { OnOk result (S.over s.new ≡ false) }
    ensures err { OnErr result (S.over s.new ≡ true) }
{
    let skipped = mb.kind.is_skip();
    match shape.kind {
        SliceKind::I => Ok(()),
        SliceKind::P => write_skip_p(s, ctx_inc_skip(shape, done, at, mb.field, mb), skipped),
        SliceKind::B => write_skip_b(s, ctx_inc_skip(shape, done, at, mb.field, mb), skipped),
    }
}

/// The type with this mb_type in a slice of this kind.
fn kind_of(slice: SliceKind, mb_type: u8) -> MbKind
    ensures { result ≡ types.kind_of slice mb_type }
{
    match slice {
        SliceKind::I => MbKind::Intra(mb_type),
        SliceKind::P if mb_type < 5 => MbKind::P(mb_type),
        SliceKind::P => MbKind::Intra(mb_type - 5),
        SliceKind::B if mb_type < 23 => MbKind::B(mb_type),
        SliceKind::B => MbKind::Intra(mb_type - 23),
    }
}

/// Reads mb_type. Behind that of I_PCM no bin follows.
fn read_number<S: BinSource>(
    s: &mut S,
    shape: &SliceShape,
    done: &Rows<Mb>,
    at: u32,
    mb: &Mb,
) -> Option<u8>
    requires going { S.over s.old ≡ false }
    requires picture { IsInPicture shape.now at }
    ensures reads { (mbs : List Mb) → IsReadAt shape.now done.now mbs at → Reads S.step (types.type_number shape.now mbs at mb.now.field) result s.old s.new }
    ensures over { IfSome result (λ number. S.over s.new ≡ is_i_pcm (types.kind_of shape.now.kind number)) }
{
    match shape.kind {
        SliceKind::I => read_type_i(s, ctx_inc_type_i(shape, done, at, mb.field, mb)),
        SliceKind::P => read_type_p(s),
        SliceKind::B => read_type_b(s, ctx_inc_type_b(shape, done, at, mb.field, mb)),
    }
}

/// Reads mb_type of a macroblock that isn't skipped and has the flag of its pair: its type. Behind I_PCM no bin follows.
pub fn read_type<S: BinSource>(
    s: &mut S,
    shape: &SliceShape,
    done: &Rows<Mb>,
    at: u32,
    mb: &Mb,
) -> Option<MbKind>
    requires going { S.over s.old ≡ false }
    requires picture { IsInPicture shape.now at }
    ensures reads { (mbs : List Mb) → IsReadAt shape.now done.now mbs at → Reads S.step (types.mb_type shape.now mbs at mb.now.field) result s.old s.new }
    ensures over { IfSome result (λ kind. S.over s.new ≡ is_i_pcm kind) }
{
    let number = read_number(s, shape, done, at, mb)?;
    Some(kind_of(shape.kind, number))
}

/// The mb_type of I_NxN in a slice of this kind: the intra types stand behind the others.
fn first_intra(slice: SliceKind) -> u8
    ensures intra { (number : ℕ) → types.kind_of slice (result + number) ≡ Intra number }
    ensures most { result ≤ 23 }
{
    match slice {
        SliceKind::I => 0,
        SliceKind::P => 5,
        SliceKind::B => 23,
    }
}

/// The mb_type of a type of a slice of this kind.
fn number_of(slice: SliceKind, kind: MbKind) -> u8
    requires kind { IsTrue (is_kind_in slice kind) }
    requires sent { is_skip kind ≡ false }
    ensures { types.kind_of slice result ≡ kind }
{
    match kind {
        MbKind::Intra(number) => first_intra(slice) + number,
        MbKind::P(number) | MbKind::B(number) => number,
        MbKind::Skip => unreachable!(),
    }
}

/// Writes mb_type of a macroblock that isn't skipped.
pub fn write_type<S: BinSink>(
    s: &mut S,
    shape: &SliceShape,
    done: &Rows<Mb>,
    at: u32,
    mb: &Mb,
) -> Result<(), Memory>
    requires going { S.over s.old ≡ false }
    requires picture { IsInPicture shape.now at }
    requires kind { IsTrue (is_kind_in shape.now.kind mb.now.kind) }
    requires sent { is_skip mb.now.kind ≡ false }
    ensures writes { (mbs : List Mb) → IsReadAt shape.now done.now mbs at → OnOk result (Writes S.step (types.mb_type shape.now mbs at mb.now.field) mb.now.kind s.old s.new) }
    ensures over { OnOk result (S.over s.new ≡ is_i_pcm mb.now.kind) }
    ensures err { OnErr result (S.over s.new ≡ true) }
{
    let number = number_of(shape.kind, mb.kind);
    match shape.kind {
        SliceKind::I => write_type_i(s, ctx_inc_type_i(shape, done, at, mb.field, mb), number),
        SliceKind::P => write_type_p(s, number),
        SliceKind::B => write_type_b(s, ctx_inc_type_b(shape, done, at, mb.field, mb), number),
    }
}
