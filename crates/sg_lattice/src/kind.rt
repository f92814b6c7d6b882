ghost use Rattle.std.specs.Prelude.{◌≡◌, ◌≤◌};
ghost use Rattle.sg_lattice.specs.Tables.{least_cols as least_cols_of};

/// The kind of a lattice of rows, which grow to the south, and columns, which grow to the east.
#[derive(Clone, Copy, Debug, PartialEq, Eq)]
pub enum Kind {
    /// Bonds to the east and to the south.
    Square,
    /// The square lattice with the diagonals to the south-east.
    Triangular,
    /// The square lattice with only the vertical bonds that leave a spin whose row and column sum
    /// to an even number. It has at least 2 columns.
    Hexagonal,
    /// The square lattice whose last column is joined to the first. It has at least 3 columns.
    Cylinder,
}

/// Where a bond runs from its first end.
#[derive(Clone, Copy)]
pub(crate) enum Step {
    East,
    South,
    SouthEast,
}

/// The two ends of a bond.
#[derive(Clone, Copy)]
pub(crate) struct Ends {
    pub(crate) u: u32,
    pub(crate) v: u32,
}

/// The least number of columns of a lattice.
pub fn least_cols(kind: Kind) -> u32
    ensures value { result ≡ least_cols_of kind }
    ensures some { 1 ≤ result }
{
    match kind {
        Kind::Square | Kind::Triangular => 1,
        Kind::Hexagonal => 2,
        Kind::Cylinder => 3,
    }
}
