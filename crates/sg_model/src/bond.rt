use sg_base::Records;

/// A bond: two different spins, by number, and the coupling between them. A positive coupling
/// favours equal spins.
#[derive(Clone, Copy, Debug)]
pub struct Bond {
    pub u: u32,
    pub v: u32,
    pub j: i64,
}

/// Bonds, in their order.
pub type Bonds = Records<Bond>;
