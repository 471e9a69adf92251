use param_sets::Elements;
use ref_pic_lists::{ListModification, WeightTable};

/// A slice header (7.3.3), one field for each syntax element. Elements that are absent are 0, false, `None` or have no
/// items.
#[derive(Debug, Drop)]
pub struct Header {
    /// The byte before the header: forbidden_zero_bit, nal_ref_idc and nal_unit_type (7.3.1).
    pub nal: u8,
    pub first_mb_in_slice: u32,
    pub slice_type: u32,
    pub pic_parameter_set_id: u32,
    pub frame_num: u32,
    pub field_pic_flag: bool,
    pub bottom_field_flag: bool,
    pub idr_pic_id: u32,
    pub pic_order_cnt_lsb: u32,
    pub delta_pic_order_cnt_bottom: i32,
    /// None, delta_pic_order_cnt[ 0 ], or both.
    pub delta_pic_order_cnt: Elements<i32>,
    pub direct_spatial_mv_pred_flag: bool,
    pub num_ref_idx_active_override_flag: bool,
    /// As it is sent, 0 to 31; 0 where the default of the picture parameter set is in force.
    pub num_ref_idx_l0_active_minus1: u32,
    pub num_ref_idx_l1_active_minus1: u32,
    pub modification_l0: ListModification,
    pub modification_l1: ListModification,
    /// Present with explicit weighted prediction (7.4.2.2).
    pub pred_weight_table: Option<WeightTable>,
    pub no_output_of_prior_pics_flag: bool,
    pub long_term_reference_flag: bool,
    pub adaptive_ref_pic_marking_mode_flag: bool,
    /// Each operation with its operands, up to the one of number 0, which ends them.
    pub memory_management_control_operation: Elements<MemoryManagement>,
    pub cabac_init_idc: u32,
    pub slice_qp_delta: i32,
    pub disable_deblocking_filter_idc: u32,
    pub slice_alpha_c0_offset_div2: i32,
    pub slice_beta_offset_div2: i32,
}

/// A memory_management_control_operation other than 0, with its operands (Table 7-9).
#[derive(Clone, Copy, Debug, PartialEq, Eq)]
pub enum MemoryManagement {
    /// 1: a short-term picture becomes unused for reference.
    ShortTermUnused {
        difference_of_pic_nums_minus1: u32,
    },
    /// 2: a long-term picture becomes unused for reference.
    LongTermUnused {
        long_term_pic_num: u32,
    },
    /// 3: a short-term picture becomes a long-term one.
    ShortTermToLongTerm {
        difference_of_pic_nums_minus1: u32,
        long_term_frame_idx: u32,
    },
    /// 4: the greatest long-term frame index.
    MaxLongTerm {
        max_long_term_frame_idx_plus1: u32,
    },
    /// 5: all pictures become unused for reference.
    AllUnused,
    /// 6: the current picture becomes a long-term one.
    CurrentToLongTerm {
        long_term_frame_idx: u32,
    },
}
