use sg_base::Numbers;
use sg_graph::Cuts;

/// A step of a walk: over this edge to this node.
#[derive(Clone, Copy, Debug)]
pub struct Step {
    pub edge: u32,
    pub to: u32,
}

/// The steps of a walk, in their order.
pub type TourSteps = Numbers<Step>;

/// A tour, its weight, and weighted odd cuts whose weights sum to twice what it weighs beyond all
/// edges.
#[derive(Drop)]
pub struct TourAnswer {
    pub weight: i64,
    pub steps: TourSteps,
    pub cuts: Cuts,
}
