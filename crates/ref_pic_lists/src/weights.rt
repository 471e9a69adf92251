use param_sets::Elements;

/// pred_weight_table (7.3.3.2), with chroma of 4:2:0.
#[derive(Debug, Drop)]
pub struct WeightTable {
    pub luma_log2_weight_denom: u32,
    pub chroma_log2_weight_denom: u32,
    /// One entry for each active reference of list 0.
    pub list_0: Elements<EntryWeights>,
    /// One for each active reference of list 1 in a B slice; none in a P slice.
    pub list_1: Elements<EntryWeights>,
}

/// The weights of one reference: those whose luma_weight_flag or chroma_weight_flag is 1.
#[derive(Clone, Copy, Debug, PartialEq, Eq)]
pub struct EntryWeights {
    pub luma: Option<Weight>,
    pub chroma: Option<ChromaWeights>,
}

/// luma_weight and luma_offset, or chroma_weight and chroma_offset of one component.
#[derive(Clone, Copy, Debug, PartialEq, Eq)]
pub struct Weight {
    pub weight: i32,
    pub offset: i32,
}

/// chroma_weight and chroma_offset of both components.
#[derive(Clone, Copy, Debug, PartialEq, Eq)]
pub struct ChromaWeights {
    pub cb: Weight,
    pub cr: Weight,
}
