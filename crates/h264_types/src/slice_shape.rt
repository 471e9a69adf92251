//! What the macroblocks of a slice rest on beside one another.
ghost use Rattle.std.specs.Prelude.{◌≡◌, ◌↔◌, ◌<◌, ◌≤◌, ◌*◌, ◌%◌, false, IsTrue};
ghost use Rattle.h264_types.specs.SliceShape.{IsSliceShape, HasRefs, predicts_from};

/// The types of slices that are in scope (Table 7-6).
#[derive(Clone, Copy, Debug, PartialEq, Eq)]
pub enum SliceKind {
    I,
    P,
    B,
}

/// What the macroblock layer rests on beside the macroblocks: numbers of the slice header and its sets.
#[derive(Clone, Copy, Debug, PartialEq, Eq)]
pub struct SliceShape {
    pub kind: SliceKind,
    /// The picture's width in macroblocks.
    pub width: u32,
    /// The picture's height in macroblocks, for a field half the frame's.
    pub height: u32,
    /// The address of the slice's first macroblock, in MBAFF twice first_mb_in_slice (7.4.3).
    pub first: u32,
    /// MbaffFrameFlag: whether the picture is a macroblock-adaptive frame.
    pub mbaff: bool,
    /// field_pic_flag: whether the picture is a field.
    pub field_pic: bool,
    /// The numbers of active references, list 0 first.
    pub refs: [u8; 2],
    /// transform_8x8_mode_flag.
    pub t8_mode: bool,
    /// direct_8x8_inference_flag.
    pub direct8: bool,
    /// profile_idc: 77 (Main) or 100 (High).
    pub profile: u8,
    /// SliceQPY, 0 to 51 (7.4.3).
    pub qp: u8,
    /// The column of the table of initial pairs: 0 in I slices, cabac_init_idc + 1 else.
    pub column: u8,
}

impl SliceKind {
    /// Whether slices of this kind predict from list 0 or 1: P from list 0, B from both (7.4.3).
    fn predicts_from(self, list: u8) -> bool
        ensures { result ≡ predicts_from self list }
    {
        match self {
            SliceKind::I => false,
            SliceKind::P => list == 0,
            SliceKind::B => true,
        }
    }
}

impl SliceShape {
    fn is_picture(&self) -> bool
        ensures { IsTrue result ↔ ((1 ≤ self.now.width) × (1 ≤ self.now.height) × (self.now.width ≤ 1055) × (self.now.width * self.now.height ≤ 139264)) }
    {
        self.width >= 1
            && self.height >= 1
            && self.width <= 1055
            && self.width as usize * self.height as usize <= 139264
    }

    fn has_whole_pairs(&self) -> bool
        ensures { IsTrue result ↔ ((self.now.field_pic ≡ false) × (self.now.height % 2 ≡ 0) × (self.now.first % 2 ≡ 0)) }
    {
        !self.field_pic && self.height % 2 == 0 && self.first % 2 == 0
    }

    /// The active references of a list, at most 32 in a field and 16 in a frame.
    fn has_refs(&self, list: u8) -> bool
        requires { list < 2 }
        ensures { IsTrue result ↔ HasRefs self.now list }
    {
        let count = self.refs[list as usize];
        let most = if self.field_pic { 32 } else { 16 };
        (count >= 1 || !self.kind.predicts_from(list)) && count <= most
    }

    /// Whether it is the shape of a slice of Main or High within the limits: at most 139264 macroblocks, 1055 of them across,
    /// SliceQPY up to 51, and the active references that its kind needs, at most 32 in a field and 16 in a frame.
    pub fn is_shape(&self) -> bool
        ensures { IsTrue result ↔ IsSliceShape self.now }
    {
        self.is_picture()
            && (!self.mbaff || self.has_whole_pairs())
            && (self.profile == 77 || self.profile == 100)
            && self.qp <= 51
            && self.column <= 3
            && self.has_refs(0)
            && self.has_refs(1)
    }
}
