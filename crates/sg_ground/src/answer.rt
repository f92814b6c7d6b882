use sg_check::Loops;
use sg_model::Spins;
use sg_nest::Nest;

/// A ground state with the least spin of each component up, its energy, and the weighted frustrated
/// loops that prove it.
#[derive(Drop)]
pub struct Answer {
    pub spins: Spins,
    pub energy: i64,
    pub loops: Loops,
}

/// A ground state, its energy, and a nest of regions over the faces that proves it, where one was found.
#[derive(Drop)]
pub struct NestedState {
    pub spins: Spins,
    pub energy: i64,
    pub nest: Option<Nest>,
}
