ghost use Rattle.std.specs.Prelude.{◌≡◌, ◌+◌, ◌*◌, ◌/◌, ◌≤◌};
ghost use Rattle.param_sets.specs.SequenceParameterSet.{width_of, height_of};
ghost use Rattle.param_sets.specs.PpsCodes.{IsPps};
ghost use Rattle.param_sets.specs.SpsCodes.{IsSps};
ghost use Rattle.slice_header.specs.HeaderCodes.{HeaderFits, Names, IsUnder};
ghost use Rattle.slice_header.specs.Shape.{kind_of, is_mbaff, picture_height, first_address, column_of, shape_of};
ghost use Rattle.header_parts.specs.ActiveSets.{Active, active_view};

use crate::write_header_text::sets_of;
use h264_types::{SliceKind, SliceShape};
use header_parts::{
    ActiveSets, Header, active_references_l0, active_references_l1, is_i_slice, references,
    slice_qp_y_of,
};
use param_sets::{Sets, Sps};

/// The type of a slice (Table 7-6).
fn slice_kind(slice_type: u32) -> SliceKind
    ensures { result ≡ kind_of slice_type }
{
    match slice_type % 5 {
        2 => SliceKind::I,
        0 => SliceKind::P,
        _ => SliceKind::B,
    }
}

/// MbaffFrameFlag (7.4.3).
fn is_mbaff_frame(active: &ActiveSets<'_>, h: &Header) -> bool
    ensures { result ≡ is_mbaff (active_view active.now) h.now }
{
    active.sps.mb_adaptive_frame_field_flag && !h.field_pic_flag
}

/// The width of a picture in macroblocks.
fn picture_width(sps: &Sps) -> u32
    requires { IsSps sps.now }
    ensures { result ≡ width_of sps.now }
{
    sps.pic_width_in_mbs_minus1 + 1
}

/// The height of a frame in macroblocks.
fn frame_height(sps: &Sps) -> u32
    requires { IsSps sps.now }
    ensures { result ≡ height_of sps.now }
{
    let map_units = sps.pic_height_in_map_units_minus1 + 1;
    if sps.frame_mbs_only_flag {
        map_units
    } else {
        2 * map_units
    }
}

/// The height of the slice's picture in macroblocks.
fn height_of_picture(active: &ActiveSets<'_>, h: &Header) -> u32
    requires { IsSps active.now.sps.now }
    ensures { result ≡ picture_height (active_view active.now) h.now }
{
    let height = frame_height(active.sps);
    if h.field_pic_flag { height / 2 } else { height }
}

/// The address of the slice's first macroblock.
fn first_mb_address(active: &ActiveSets<'_>, h: &Header) -> u32
    requires { h.now.first_mb_in_slice ≤ 139263 }
    ensures { result ≡ first_address (active_view active.now) h.now }
{
    if is_mbaff_frame(active, h) {
        2 * h.first_mb_in_slice
    } else {
        h.first_mb_in_slice
    }
}

/// What the macroblocks of a slice rest on beside one another: numbers of its header and of the sets that it names.
pub fn shape(sets: &Sets, h: &Header) -> SliceShape
    requires { IsUnder sets.now h.now }
    ensures shape { (active : Active) → Names sets.now h.now.pic_parameter_set_id active → result ≡ shape_of active h.now }
    // The sequence parameter set that the header names is inside the profile and the limits.
    ensures in_range { (active : Active) → Names sets.now h.now.pic_parameter_set_id active → IsSps active.sps }
{
    let active = sets_of(sets, h);
    shape_under(&active, h)
}

/// The same under the sets that the header names.
pub fn shape_under(active: &ActiveSets<'_>, h: &Header) -> SliceShape
    requires in_range { IsSps active.now.sps.now × IsPps active.now.pps.now }
    requires fits { HeaderFits (active_view active.now) h.now }
    ensures { result ≡ shape_of (active_view active.now) h.now }
{
    let sps = active.sps;
    let r = references(h);
    let qp = slice_qp_y_of(active.pps, h.slice_qp_delta).unsigned_abs() as u8;
    SliceShape {
        kind: slice_kind(h.slice_type),
        width: picture_width(sps),
        height: height_of_picture(active, h),
        first: first_mb_address(active, h),
        mbaff: is_mbaff_frame(active, h),
        field_pic: h.field_pic_flag,
        refs: [
            active_references_l0(active.pps, h.slice_type, r),
            active_references_l1(active.pps, h.slice_type, r),
        ],
        t8_mode: active.pps.transform_8x8_mode_flag,
        direct8: sps.direct_8x8_inference_flag,
        profile: sps.profile_idc as u8,
        qp,
        column: column_number(h),
    }
}

/// The column of the table of initial pairs (9.3.1.1).
fn column_number(h: &Header) -> u8
    requires { h.now.cabac_init_idc ≤ 2 }
    ensures { result ≡ column_of h.now }
{
    if is_i_slice(h.slice_type) {
        return 0;
    }
    h.cabac_init_idc as u8 + 1
}
