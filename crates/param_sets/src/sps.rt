use crate::elements::Elements;

/// A sequence parameter set (7.3.2.1.1), one field for each syntax element. Elements that are absent are 0, false or
/// have no items.
#[derive(Debug, Drop)]
pub struct Sps {
    pub profile_idc: u32,
    pub constraint_set0_flag: bool,
    pub constraint_set1_flag: bool,
    pub constraint_set2_flag: bool,
    pub constraint_set3_flag: bool,
    pub constraint_set4_flag: bool,
    pub constraint_set5_flag: bool,
    pub reserved_zero_2bits: u32,
    pub level_idc: u32,
    /// The number of the set, 0 to 31.
    pub seq_parameter_set_id: u32,
    pub chroma_format_idc: u32,
    pub bit_depth_luma_minus8: u32,
    pub bit_depth_chroma_minus8: u32,
    pub qpprime_y_zero_transform_bypass_flag: bool,
    pub seq_scaling_matrix_present_flag: bool,
    /// The delta codes of each scaling list; a list that is not present has none.
    pub scaling_lists: Elements<Elements<i32>>,
    pub log2_max_frame_num_minus4: u32,
    pub pic_order_cnt_type: u32,
    pub log2_max_pic_order_cnt_lsb_minus4: u32,
    pub delta_pic_order_always_zero_flag: bool,
    pub offset_for_non_ref_pic: i32,
    pub offset_for_top_to_bottom_field: i32,
    pub num_ref_frames_in_pic_order_cnt_cycle: u32,
    pub offset_for_ref_frame: Elements<i32>,
    pub max_num_ref_frames: u32,
    pub gaps_in_frame_num_value_allowed_flag: bool,
    /// The width of the picture in macroblocks, less one.
    pub pic_width_in_mbs_minus1: u32,
    /// The height in macroblocks, or in pairs of them where frame_mbs_only_flag is 0, less one.
    pub pic_height_in_map_units_minus1: u32,
    pub frame_mbs_only_flag: bool,
    pub mb_adaptive_frame_field_flag: bool,
    pub direct_8x8_inference_flag: bool,
    /// The bits from frame_cropping_flag up to the stop bit, unread.
    pub rest: Elements<bool>,
}
