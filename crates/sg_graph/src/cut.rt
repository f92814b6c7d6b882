use super::EdgeList;
use sg_base::Records;

/// One weighted cut: the edges that leave some set of nodes, and the weight `y` of the cut.
#[derive(Drop)]
pub struct Cut {
    pub y: i64,
    pub edges: EdgeList,
}

/// Weighted cuts, in their order.
pub type Cuts = Records<Cut>;
