use header_parts::ActiveSets;

/// What a slice header begins with, and the sets that it names.
#[derive(Clone, Copy, Drop)]
pub struct SliceStart<'a> {
    pub first_mb_in_slice: u32,
    pub slice_type: u32,
    pub pic_parameter_set_id: u32,
    pub active: ActiveSets<'a>,
}
