//! The cells of the slab, and the loops that write a run of them.

ghost use Rattle.std.specs.Prelude.{◌≡◌, ℕ, ◌+◌, ◌-◌, ◌<◌, ◌≤◌, ◌^◌, length, Some, slice_index};
ghost use Rattle.slab.specs.Slab.{ContainsKey, get};
ghost use Rattle.sg_arena.specs.Family.{after_index, cycle_of};
ghost use Rattle.sg_arena.specs.CellWrites.{Rewrites, Distinct, child_at, seated, freed, raised_cell, fallen};

use crate::Link;
use crate::history::History;
use slab::Slab;

/// What a node is.
#[derive(Clone, Copy)]
pub(crate) enum Kind {
    /// A leaf.
    Leaf,
    /// A blossom of so many children; the first stands at place 0 of its cycle.
    Blossom { first: usize, count: usize },
}

/// The cell of a node. Its key is the node's name.
#[derive(Clone, Copy)]
pub(crate) struct Cell {
    pub(crate) kind: Kind,
    /// The blossom that the node is a child of; none where it is a top.
    pub(crate) parent: Option<usize>,
    /// For a child, the sibling that follows; else it means nothing.
    pub(crate) next: usize,
    /// For a child, its link to that sibling; else they mean nothing.
    pub(crate) from: u32,
    pub(crate) to: u32,
    pub(crate) dual: u64,
}

impl Cell {
    /// A leaf that is a top, with dual 0.
    pub(crate) const LEAF: Cell = Cell {
        kind: Kind::Leaf,
        parent: None,
        next: 0,
        from: 0,
        to: 0,
        dual: 0,
    };
}

/// Makes the nodes of a cycle the children of a blossom.
pub(crate) fn seat_children(cells: &mut Slab<Cell>, cycle: &[Link], blossom: usize)
    requires present { (i : ℕ) → i < length cycle.now → ContainsKey cells.old (child_at cycle.now i) }
    requires differ { Distinct (child_at cycle.now) (length cycle.now) }
    ensures { Rewrites (seated cycle.now blossom) (child_at cycle.now) cells.old cells.new (length cycle.now) }
{
    let count = cycle.len();
    for i in 0..count {
        let next = if i + 1 == count { 0 } else { i + 1 };
        let link = cycle[i];
        let cell = cells[link.node];
        cells[link.node] = Cell {
            parent: Some(blossom),
            next: cycle[next].node,
            from: link.from,
            to: link.to,
            ..cell
        };
    }
}

/// Takes the parent from the children of a blossom, as many as it has, from the first one on.
pub(crate) fn free_children(
    cells: &mut Slab<Cell>,
    history: &History,
    blossom: usize,
    first: usize,
    count: usize,
)
    requires first { child_at (cycle_of history.now blossom) 0 ≡ first }
    requires next { (i : ℕ) (c : Cell) → i < count → get cells.old (child_at (cycle_of history.now blossom) i) ≡ Some c →
        c.next ≡ child_at (cycle_of history.now blossom) (after_index count i) }
    requires present { (i : ℕ) → i < count → ContainsKey cells.old (child_at (cycle_of history.now blossom) i) }
    requires differ { Distinct (child_at (cycle_of history.now blossom)) count }
    ensures { Rewrites freed (child_at (cycle_of history.now blossom)) cells.old cells.new count }
{
    let _ = history;
    let _ = blossom;
    let mut child = first;
    for _i in 0..count {
        let cell = cells[child];
        cells[child] = Cell {
            parent: None,
            ..cell
        };
        child = cell.next;
    }
}

/// Adds `delta` to the dual of each of these nodes.
pub(crate) fn raise_duals(cells: &mut Slab<Cell>, nodes: &[usize], delta: u64)
    requires present { (i : ℕ) → i < length nodes.now → ContainsKey cells.old (slice_index nodes.now i) }
    requires differ { Distinct (slice_index nodes.now) (length nodes.now) }
    requires fits { (i : ℕ) (c : Cell) → i < length nodes.now →
        get cells.old (slice_index nodes.now i) ≡ Some c → c.dual + delta < 2 ^ 64 }
    ensures { Rewrites (raised_cell delta) (slice_index nodes.now) cells.old cells.new (length nodes.now) }
{
    for &node in nodes {
        let cell = cells[node];
        cells[node] = Cell {
            dual: cell.dual + delta,
            ..cell
        };
    }
}

/// Takes `delta` from the dual of each of these nodes.
pub(crate) fn lower_duals(cells: &mut Slab<Cell>, nodes: &[usize], delta: u64)
    requires present { (i : ℕ) → i < length nodes.now → ContainsKey cells.old (slice_index nodes.now i) }
    requires differ { Distinct (slice_index nodes.now) (length nodes.now) }
    requires enough { (i : ℕ) (c : Cell) → i < length nodes.now →
        get cells.old (slice_index nodes.now i) ≡ Some c → delta ≤ c.dual }
    ensures { Rewrites (fallen delta) (slice_index nodes.now) cells.old cells.new (length nodes.now) }
{
    for &node in nodes {
        let cell = cells[node];
        cells[node] = Cell {
            dual: cell.dual - delta,
            ..cell
        };
    }
}
