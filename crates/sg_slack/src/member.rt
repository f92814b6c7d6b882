/// A member, and its total less what the totals have risen by since the first member came.
#[derive(Clone, Copy)]
pub struct Kept {
    pub leaf: u32,
    pub base: i128,
}
