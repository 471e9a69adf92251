//! Slice types (Table 7-6).
ghost use Rattle.std.specs.Prelude.{◌≡◌};
ghost use Rattle.header_parts.specs.SliceTypes.{is_i, is_p, is_b};

/// Whether a slice type is P.
pub fn is_p_slice(slice_type: u32) -> bool
    ensures { result ≡ is_p slice_type }
{
    slice_type % 5 == 0
}

/// Whether a slice type is B.
pub fn is_b_slice(slice_type: u32) -> bool
    ensures { result ≡ is_b slice_type }
{
    slice_type % 5 == 1
}

/// Whether a slice type is I.
pub fn is_i_slice(slice_type: u32) -> bool
    ensures { result ≡ is_i slice_type }
{
    slice_type % 5 == 2
}
