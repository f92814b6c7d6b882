ghost use Rattle.std.specs.Prelude.{◌≡◌, ◌<◌, ◌≤◌, ◌+◌, ◌*◌, ◌^◌};
ghost use Rattle.sg_lattice.specs.Tables.{IsSize, has_bond, neighbour, bond_number, bond_total, vertical_bonds_before};

use super::kind::{Kind, Step};

/// A lattice's kind and size.
#[derive(Clone, Copy)]
pub(crate) struct Shape {
    pub(crate) kind: Kind,
    pub(crate) rows: u32,
    pub(crate) cols: u32,
    ghost size: { IsSize kind rows cols },
    ghost few_rows: { rows ≤ 2 ^ 22 },
    ghost few_cols: { cols ≤ 2 ^ 22 },
}

impl Shape {
    pub(crate) fn new(kind: Kind, rows: u32, cols: u32) -> Self
        requires { IsSize kind rows cols }
        ensures kind { result.kind ≡ kind }
        ensures rows { result.rows ≡ rows }
        ensures cols { result.cols ≡ cols }
    {
        Shape { kind, rows, cols }
    }

    // How many spins a part of the lattice has.
    pub(crate) fn area(self, rows: u32, cols: u32) -> u32
        requires rows { rows ≤ self.rows }
        requires cols { cols ≤ self.cols }
        ensures value { result ≡ rows * cols }
        ensures few { result ≤ 2 ^ 22 }
    {
        rows * cols
    }

    pub(crate) fn spins(self) -> u32
        ensures value { result ≡ self.rows * self.cols }
        ensures few { result ≤ 2 ^ 22 }
        ensures some { 1 ≤ result }
    {
        self.area(self.rows, self.cols)
    }

    pub(crate) fn has_bond(self, step: Step, r: u32, c: u32) -> bool
        requires row { r < self.rows }
        requires col { c < self.cols }
        ensures { result ≡ has_bond self.kind step self.rows self.cols r c }
    {
        match step {
            Step::East => match self.kind {
                Kind::Cylinder => true,
                Kind::Square | Kind::Triangular | Kind::Hexagonal => c + 1 < self.cols,
            },
            Step::South => match self.kind {
                Kind::Hexagonal => r + 1 < self.rows && (r + c) % 2 == 0,
                Kind::Square | Kind::Triangular | Kind::Cylinder => r + 1 < self.rows,
            },
            Step::SouthEast => match self.kind {
                Kind::Triangular => r + 1 < self.rows && c + 1 < self.cols,
                Kind::Square | Kind::Hexagonal | Kind::Cylinder => false,
            },
        }
    }

    pub(crate) fn neighbour(self, step: Step, r: u32, c: u32) -> u32
        requires row { r < self.rows }
        requires col { c < self.cols }
        ensures { result ≡ neighbour self.kind step self.rows self.cols r c }
    {
        match step {
            Step::East => match self.kind {
                Kind::Cylinder => self.area(r, self.cols) + (c + 1) % self.cols,
                Kind::Square | Kind::Triangular | Kind::Hexagonal => {
                    self.area(r, self.cols) + (c + 1)
                }
            },
            Step::South => self.area(r + 1, self.cols) + c,
            Step::SouthEast => self.area(r + 1, self.cols) + (c + 1),
        }
    }

    // How many bonds of a hexagonal lattice run to the south from the rows before `r`.
    fn vertical_bonds_before(self, r: u32) -> u32
        requires row { r ≤ self.rows }
        ensures value { result ≡ vertical_bonds_before self.cols r }
        ensures few { result ≤ 2 ^ 23 }
    {
        let pairs = self.area(r / 2, self.cols);
        if r % 2 == 1 {
            pairs + self.cols.div_ceil(2)
        } else {
            pairs
        }
    }

    pub(crate) fn bond_number(self, step: Step, r: u32, c: u32) -> u32
        requires row { r < self.rows }
        requires col { c < self.cols }
        ensures value { result ≡ bond_number self.kind step self.rows self.cols r c }
        ensures few { result < 2 ^ 24 }
    {
        match step {
            Step::East => match self.kind {
                Kind::Cylinder => self.area(r, self.cols) + c,
                Kind::Square | Kind::Triangular | Kind::Hexagonal => {
                    self.area(r, self.cols - 1) + c
                }
            },
            Step::South => match self.kind {
                Kind::Cylinder => self.spins() + (self.area(r, self.cols) + c),
                Kind::Hexagonal => {
                    self.area(self.rows, self.cols - 1) + (self.vertical_bonds_before(r) + c / 2)
                }
                Kind::Square | Kind::Triangular => {
                    self.area(self.rows, self.cols - 1) + (self.area(r, self.cols) + c)
                }
            },
            Step::SouthEast => {
                self.area(self.rows, self.cols - 1)
                    + (self.area(self.rows - 1, self.cols) + (self.area(r, self.cols - 1) + c))
            }
        }
    }

    pub(crate) fn bond_total(self) -> u32
        ensures { result ≡ bond_total self.kind self.rows self.cols }
    {
        let east = self.area(self.rows, self.cols - 1);
        let south = self.area(self.rows - 1, self.cols);
        match self.kind {
            Kind::Square => east + south,
            Kind::Triangular => east + (south + self.area(self.rows - 1, self.cols - 1)),
            Kind::Hexagonal => east + self.vertical_bonds_before(self.rows - 1),
            Kind::Cylinder => self.spins() + south,
        }
    }
}
