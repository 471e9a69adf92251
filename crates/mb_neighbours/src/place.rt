ghost use Rattle.std.specs.Prelude.{◌≡◌, ◌%◌, ◌<◌, ◌≤◌};
ghost use Rattle.mb_neighbours.specs.Place as place;

/// What is looked up: a whole macroblock, or a block of it by its number in scan order (6.4.3, 6.4.5, 6.4.7). A
/// partition is looked up by its upper left block (6.4.11.7).
#[derive(Clone, Copy, Debug, PartialEq, Eq)]
pub enum At {
    /// The macroblock, by its luma sample at the upper left (6.4.11.1).
    Whole,
    /// A 4x4 luma block, 0 to 15 (6.4.11.4).
    Luma4(u8),
    /// An 8x8 luma block, 0 to 3 (6.4.11.2).
    Luma8(u8),
    /// A 4x4 block of one chroma component in 4:2:0, 0 to 3 (6.4.11.5).
    Chroma4(u8),
}

/// Where a neighbour was found.
#[derive(Clone, Copy, Debug, PartialEq, Eq)]
pub struct Spot {
    /// The macroblock's number in the slice, the first being 0.
    pub mb: u32,
    /// A block of it, of the kind that was looked up; for a whole macroblock 0.
    pub block: u8,
}

impl At {
    /// The column of the upper left sample.
    pub(crate) fn x(self) -> u8
        requires { place.IsPlace self }
        ensures value { result ≡ place.x_of self }
        ensures inside { result < place.size_of self }
    {
        match self {
            At::Whole => 0,
            At::Luma4(block) => 8 * (block / 4 % 2) + 4 * (block % 2),
            At::Luma8(quarter) => 8 * (quarter % 2),
            At::Chroma4(block) => 4 * (block % 2),
        }
    }

    /// The row of the upper left sample.
    pub(crate) fn y(self) -> u8
        requires { place.IsPlace self }
        ensures value { result ≡ place.y_of self }
        ensures inside { result < place.size_of self }
    {
        match self {
            At::Whole => 0,
            At::Luma4(block) => 8 * (block / 8) + 4 * (block % 4 / 2),
            At::Luma8(quarter) => 8 * (quarter / 2),
            At::Chroma4(block) => 4 * (block / 2),
        }
    }

    /// Samples across and down in a macroblock, of the component: maxW and maxH.
    pub(crate) fn size(self) -> u8
        ensures value { result ≡ place.size_of self }
        ensures even { result % 2 ≡ 0 }
        ensures bounds { (0 < result) × (result ≤ 16) }
    {
        match self {
            At::Whole | At::Luma4(_) | At::Luma8(_) => 16,
            At::Chroma4(_) => 8,
        }
    }

    /// The block of the same kind that has the sample in column x, row y.
    fn covering(self, x: u8, y: u8) -> u8
        requires x { x < 16 }
        requires y { y < 16 }
        ensures { result ≡ place.covering self x y }
    {
        match self {
            At::Whole => 0,
            At::Luma4(_) => 8 * (y / 8) + 4 * (x / 8) + 2 * (y % 8 / 4) + x % 8 / 4,
            At::Luma8(_) => 2 * (y / 8) + x / 8,
            At::Chroma4(_) => 2 * (y / 4) + x / 4,
        }
    }

    ghost use Rattle.mb_neighbours.specs.Near.{lowest, spot};

    /// The block of macroblock `mb` that has the sample in column x, row y.
    pub(crate) fn spot(self, mb: u32, x: u8, y: u8) -> Spot
        requires x { x < place.size_of self }
        requires y { y < place.size_of self }
        ensures value { result ≡ spot self mb x y }
        ensures block { result.block < place.count_of self }
    {
        Spot {
            mb,
            block: self.covering(x, y),
        }
    }

    /// The block at the lowest row of macroblock `mb`.
    pub(crate) fn lowest(self, mb: u32) -> Spot
        requires { place.IsPlace self }
        ensures value { result ≡ lowest self mb }
        ensures block { result.block < place.count_of self }
    {
        self.spot(mb, self.x(), self.size() - 1)
    }
}
