/// A node that some walk reaches: the weight of the walk, and its last edge. Candidates are ordered
/// by distance, then by node, then by edge, so that the same graph gives the same walks.
#[derive(Clone, Copy, PartialEq, Eq, PartialOrd, Ord)]
pub struct Candidate {
    pub distance: u64,
    pub node: u32,
    pub edge: u32,
}
