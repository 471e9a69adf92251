// A slice, written from the list of its macroblocks.
ghost use Rattle.std.specs.Prelude.{◌≡◌, ◌<◌, [], Bool, List, IfOk, IfErr};
ghost use Rattle.h264_types.specs.Valid.{IsSlice};
ghost use Rattle.h264_types.specs.SliceShape.{IsSliceShape};
ghost use Rattle.header_parts.specs.ActiveSets.{Active};
ghost use Rattle.init_table.specs.declared.table.InitTable.{InitTable};
ghost use Rattle.slice_rewrite.specs.Layers.{IsBuiltIn, IsNormalDataIn};
ghost use Rattle.slice_rewrite.specs.SliceForms.{coded, IsUnderSets, IsSliceWritten, IsNotWritten, IsDataWritten, IsNoDataWritten, StopsIn};

use crate::fault::RewriteFault;
use crate::put::put_written;
use crate::slice::{How, Slice};
use crate::written_shape::written_shape;
use cabac_syntax::CabacWriter;
use cavlc_syntax::CavlcWriter;
use exp_golomb::BitVec;
use h264_types::{Layer, Mb, SliceShape};
use init_table::InitTable;
use param_sets::Sets;
use slice_data::SliceWriter;
use slice_header::{sets_of, shape_under, write_header_under};
use std::alloc::Global;

/// The payload that is written for a slice under the sets that stand. Stop: the least macroblock that can't be written.
/// Outside never comes.
pub fn write_slice(
    alloc: Global,
    sets: &Sets,
    init: &InitTable,
    slice: &Slice,
    how: How,
) -> Result<Vec<u8>, RewriteFault>
    requires idc { how.idc < 3 }
    requires slice { (active : Active) × IsUnderSets how.to sets.now active slice.now.header slice.now.mbs.items }
    ensures ok { IfOk result (λ payload. (active : Active) → IsUnderSets how.to sets.now active slice.now.header slice.now.mbs.items →
        IsSliceWritten how.to init.now how.number how.idc (coded active slice.now.header slice.now.mbs.items) payload.items) }
    ensures err { IfErr result (λ fault. (active : Active) → IsUnderSets how.to sets.now active slice.now.header slice.now.mbs.items →
        IsNotWritten how.to (coded active slice.now.header slice.now.mbs.items) fault) }
{
    let active = sets_of(sets, &slice.header);
    let mut out = BitVec::new(alloc);
    write_header_under(
        &mut out,
        &active,
        &slice.header,
        how.to,
        how.number,
        how.idc,
    )?;
    let shape = written_shape(&shape_under(&active, &slice.header), how.to, how.idc);
    let out = write_in(alloc, init, how.to, shape, &slice.mbs, out)?;
    Ok(out.into_bytes())
}

// Writes slice data of a layer to their end, behind these bits.
fn write_in(
    alloc: Global,
    init: &InitTable,
    to: Layer,
    shape: SliceShape,
    mbs: &[Mb],
    out: BitVec,
) -> Result<BitVec, RewriteFault>
    requires shape { IsSliceShape shape }
    requires built { IsBuiltIn to shape }
    requires mbs { IsSlice shape mbs.now }
    ensures ok { IfOk result (IsDataWritten (IsNormalDataIn to init.now) to shape mbs.now out) }
    ensures err { IfErr result (IsNoDataWritten to shape mbs.now) }
{
    match to {
        Layer::Cavlc => write_data(shape, mbs, CavlcWriter::start(alloc, shape, out)?),
        Layer::Cabac => write_data(shape, mbs, CabacWriter::start(alloc, shape, init, out)?),
    }
}

// Writes slice data to their end.
fn write_data<W: SliceWriter>(
    shape: SliceShape,
    mbs: &[Mb],
    mut writer: W,
) -> Result<W::Sink, RewriteFault>
    requires levels { StopsIn W.LAYER W.is_beyond }
    requires mbs { IsSlice shape mbs.now }
    requires writes { (init : InitTable) × (before : List Bool) × W.writes init writer shape before [] }
    ensures ok { (init : InitTable) (before : List Bool) → W.writes init writer shape before [] → IfOk result (λ sink. IsDataWritten (W.is_data init) W.LAYER shape mbs.now before (W.Sink.bits sink)) }
    ensures err { IfErr result (IsNoDataWritten W.LAYER shape mbs.now) }
{
    for k in 0..mbs.len() {
        let mut mb = mbs[k];
        if let Some(case) = put_written(&mut writer, &mut mb)? {
            return Err(RewriteFault::Stop(case, k as u32));
        }
    }
    let sink = writer.finish()?;
    Ok(sink)
}
