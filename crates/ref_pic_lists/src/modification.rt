use param_sets::Elements;

/// ref_pic_list_modification (7.3.3.1) of one list.
#[derive(Debug, Drop)]
pub struct ListModification {
    /// ref_pic_list_modification_flag_l0 or ref_pic_list_modification_flag_l1.
    pub flag: bool,
    /// Each modification_of_pic_nums_idc with its operand, up to the one of 3, which ends them; none where the flag is 0.
    pub operations: Elements<PicNumModification>,
}

/// A modification_of_pic_nums_idc other than 3, with its operand (Table 7-7).
#[derive(Clone, Copy, Debug, PartialEq, Eq)]
pub enum PicNumModification {
    /// 0: a difference is taken from the prediction of a picture number.
    Subtract { abs_diff_pic_num_minus1: u32 },
    /// 1: a difference is added to it.
    Add { abs_diff_pic_num_minus1: u32 },
    /// 2: a long-term picture is named.
    LongTerm { long_term_pic_num: u32 },
}
