//! What the layers above rest on: data are those of one list, and in normal form the only ones of it; data fill bytes, and in
//! normal form end in the stop bit; bits are the data of a list or of none; and which lists have data rests on no column.
ghost use Rattle.std.specs.Prelude.{◌≡◌, ◌⊎◌, ◌+◌, ◌%◌, ◌<◌, ◌≤◌, ◌∷◌, ◌++◌, ℕ, Bool, true, false, List, length, replicate};
ghost use Rattle.h264_types.specs.declared.macroblock.Mb.{Mb};
ghost use Rattle.h264_types.specs.declared.slice_shape.SliceShape.{SliceShape};
ghost use Rattle.h264_types.specs.SliceShape.{without_column};
ghost use Rattle.init_table.specs.declared.table.InitTable.{InitTable};
ghost use Rattle.slice_data.specs.Reading.{NoList};
ghost use Rattle.cabac_syntax.specs.SliceData.{IsBuiltShape, HasData, IsData, IsNormalData};

/// No bits are the data of two lists.
pub fn one_list()
    ensures { (init : InitTable) (shape : SliceShape) (pos : ℕ) (first second : List Mb) (bits : List Bool) → HasData shape first → HasData shape second → IsData init shape pos first bits → IsData init shape pos second bits → first ≡ second }
{}

/// What is written is read as data of the same list.
pub fn normal_data_are_data()
    ensures { (init : InitTable) (shape : SliceShape) (pos : ℕ) (mbs : List Mb) (bits : List Bool) → IsNormalData init shape pos mbs bits → IsData init shape pos mbs bits }
{}

/// A list has at most one normal form.
pub fn one_normal_form()
    ensures { (init : InitTable) (shape : SliceShape) (pos : ℕ) (mbs : List Mb) (first second : List Bool) → IsNormalData init shape pos mbs first → IsNormalData init shape pos mbs second → first ≡ second }
{}

/// Slice data end at a byte boundary.
pub fn data_fill_bytes()
    ensures { (init : InitTable) (shape : SliceShape) (pos : ℕ) (mbs : List Mb) (bits : List Bool) → IsData init shape pos mbs bits → (pos + length bits) % 8 ≡ 0 }
{}

/// In normal form the stop bit stands in the last byte, so that this isn't 0.
pub fn normal_data_end_in_the_stop_bit()
    ensures { (init : InitTable) (shape : SliceShape) (pos : ℕ) (mbs : List Mb) (bits : List Bool) → IsNormalData init shape pos mbs bits
        → (front : List Bool) × (zeros : ℕ) × (zeros < 8) × (bits ≡ front ++ true ∷ replicate zeros false) }
{}

/// Bits are the data of a list, or of none.
pub fn bits_are_decided()
    ensures { (init : InitTable) (shape : SliceShape) (pos : ℕ) (bits : List Bool) → IsBuiltShape shape → ((mbs : List Mb) × HasData shape mbs × IsData init shape pos mbs bits) ⊎ NoList HasData (IsData init) shape pos bits }
{}

/// Shapes that differ in their columns alone have the same lists. Which data these have does rest on the column.
pub fn lists_without_column()
    ensures { (first second : SliceShape) (mbs : List Mb) → without_column first ≡ without_column second → second.column ≤ 3 → HasData first mbs → HasData second mbs }
{}
