//! Parts of a slice header, as they are read.
use crate::header::MemoryManagement;
use param_sets::Elements;
use ref_pic_lists::{ListModification, WeightTable};

/// The elements that tell the picture of a slice.
#[derive(Clone, Copy, Debug)]
pub struct PictureNumber {
    pub frame_num: u32,
    pub field_pic_flag: bool,
    pub bottom_field_flag: bool,
    pub idr_pic_id: u32,
}

/// The elements of the picture order count (8.2.1).
#[derive(Debug, Drop)]
pub struct PictureOrder {
    pub pic_order_cnt_lsb: u32,
    pub delta_pic_order_cnt_bottom: i32,
    pub delta_pic_order_cnt: Elements<i32>,
}

/// The prediction of direct macroblocks, and the numbers of active references (7.4.3).
#[derive(Clone, Copy, Debug)]
pub struct ActiveReferences {
    pub direct_spatial_mv_pred_flag: bool,
    pub num_ref_idx_active_override_flag: bool,
    pub num_ref_idx_l0_active_minus1: u32,
    pub num_ref_idx_l1_active_minus1: u32,
}

/// The modifications of the reference picture lists (7.3.3.1), and the weights of their pictures (7.3.3.2).
#[derive(Debug, Drop)]
pub struct ReferenceLists {
    pub modification_l0: ListModification,
    pub modification_l1: ListModification,
    pub pred_weight_table: Option<WeightTable>,
}

/// dec_ref_pic_marking (7.3.3.3).
#[derive(Debug, Drop)]
pub struct Marking {
    pub no_output_of_prior_pics_flag: bool,
    pub long_term_reference_flag: bool,
    pub adaptive_ref_pic_marking_mode_flag: bool,
    pub operations: Elements<MemoryManagement>,
}

/// The elements of the deblocking filter (8.7).
#[derive(Clone, Copy, Debug)]
pub struct Deblocking {
    pub disable_deblocking_filter_idc: u32,
    pub slice_alpha_c0_offset_div2: i32,
    pub slice_beta_offset_div2: i32,
}
