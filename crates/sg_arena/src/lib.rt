//! Nested blossoms, the data structure of Edmonds' least perfect matching (Edmonds 1965).
//!
//! For a physicist: the frustrated plaquettes of a planar spin glass are to be joined in pairs at
//! the least total cost. Here they are the *leaves*, numbered from 0. Edmonds proves a pairing least
//! by numbers, *duals*, on sets of leaves: each leaf alone is a set, and an odd cycle of sets may be
//! shrunk into one set more, a *blossom*. So the sets are nested and each has an odd number of
//! leaves. The *total* of a leaf is the sum of the duals of all sets that hold it. The *slack* of two
//! leaves is their cost less the duals of the sets that hold exactly one of them. Where no slack is
//! negative, no pairing costs less than the sum of all duals, since each set is odd and some pair
//! leaves it. This crate keeps the sets and their duals; it knows no costs.
//!
//! For the next engineer: contracts see an [`Arena`] as a `Family` (`specs/Family.antt`), a list
//! with a node or nothing under each name. `specs/Changes.antt` says what the calls that change it
//! make of a family, each in one equation, so that all that they do not name stays;
//! `specs/Slack.antt` has the duals between two leaves. An arena carries its family as a value
//! without bytes (`history.rt`), and each cell says of its node what the family does: `specs/Sound.antt`. The
//! lemmas that a caller needs stand in `proofs/`: `FamilyLemmas` on any family, `LeavesFamily`,
//! `ShrunkFamily`, `ExpandedFamily` and `RaisedFamily` on the family after each call, `DualLemmas`.
//!
//! ```text
//! let mut arena = Arena::open(alloc, 3)?;          // three leaves, each its own top, duals 0
//! let [a, b, c] = [0, 1, 2].map(|leaf| arena.leaf_node(leaf));
//! let cycle = [link(a, 0, 1), link(b, 1, 2), link(c, 2, 0)];
//! let blossom = arena.shrink(&cycle, &mut steps);  // one top for all three leaves
//! arena.raise(&[blossom], &[], 5, &mut steps);     // each total is 5 now
//! arena.raise(&[], &[blossom], 5, &mut steps);     // and 0 again,
//! arena.expand(blossom, &mut steps);               // so the blossom may go
//! ```
#![tactic(auto)]

ghost use Rattle.std.specs.Prelude.{◌≡◌, ℕ, ◌+◌, pos, ◌≤ℤ◌};
ghost use Rattle.sg_base.specs.Naturals.{nat_of};

mod cells;
mod ghost_list;
mod history;

use cells::{Cell, Kind, free_children, lower_duals, raise_duals, seat_children};
use history::History;
use sg_base::Steps;
use slab::Slab;
use std::alloc::{AllocError, Global};
use std::marker::Model;
use std::sync::ledger::Ledger;

/// Memory ran out.
pub type NoMemory = AllocError;

/// One step of a blossom's cycle: a child, a leaf in it, and a leaf in the child that follows.
#[derive(Clone, Copy, Debug, PartialEq, Eq)]
pub struct Link {
    /// The name of the child.
    pub node: usize,
    /// A leaf in the child.
    pub from: u32,
    /// A leaf in the child that follows, to which `from` is joined.
    pub to: u32,
}

/// Nested sets of leaves, each of odd size and with a dual, a whole number of at least 0.
///
/// A node stands for each set: a leaf's node, or a blossom with its cycle of children. A node is
/// called by its name, and a top is a node that no other node holds. Where a family is meant, see
/// `IsFamily`; it holds after every call.
///
/// An arena counts its own steps, beside the count that a caller hands in: [`Arena::open`] sets them
/// to 0, [`Arena::shrink`], [`Arena::expand`] and [`Arena::raise`] add one each, and nothing else changes
/// them. The count takes no bytes, and neither does the history of the family.
///
/// One slab keeps all nodes. A child knows its blossom, the sibling that follows and the link to
/// it; a blossom knows its first child and how many there are. [`Arena::open`] reserves two cells for
/// each leaf, and a family has fewer nodes than that.
pub struct Arena {
    cells: Slab<Cell>,
    // The name of each leaf's node.
    leaves: Vec<usize>,
    // The family that the cells stand for.
    history: History,
}

// An explicit `Drop`: otherwise every owner drops the cells and the history by itself, and the prover pays for each.
impl Drop for Arena {
    fn drop(self) {
        let Arena {
            cells: _cells,
            leaves: _leaves,
            history: _history,
        } = self;
    }
}

impl Model for Arena {
    ghost use Rattle.sg_arena.specs.Family.{Family};

    ghost Value = { Family };

    ghost use Rattle.sg_arena.specs.Sound.{IsSound};

    ghost view = { λ a. a.history };

    ghost invariant = { λ a. IsSound a.cells a.leaves.items a.history };
}

impl Arena {
    ghost use Rattle.std.specs.Prelude.{◌≡◌, ℕ, length, ◌+◌, ◌*◌, ◌<◌, ◌↔◌, IsTrue, pos, ◌≤ℤ◌, ◌≤◌, ◌^◌, IfOk, MatchOption, [], Some, None};
    ghost use Rattle.sg_arena.specs.Family.{Family, IsFamily, leaf_count, leaf_node, node_at, IsAlive, Holds, IsTop, dual_of, total_of, cycle_of, IsBlossom, link_at, IsChild, IsChildAt, IsChildOf, Follows, IsLinkOf};
    ghost use Rattle.sg_arena.specs.Changes.{OnlyLeaves, CanShrink, with_slot, blossom_of, CanRaise, raised};
    ghost use Rattle.sg_base.specs.Naturals.{nat_of};

    /// An arena of the leaves 0 to `k - 1`, each a top with dual 0, before the first step. It takes all
    /// the memory that later calls need: there is a name for each leaf and for each blossom over them.
    ///
    /// Cost: proportional to `k`.
    pub fn open(alloc: Global, k: u32) -> Result<Arena, NoMemory>
        requires { k ≤ 2 ^ 24 }
        ensures leaves { IfOk result (λ a. leaf_count a ≡ k) }
        ensures alone { IfOk result OnlyLeaves }
        ensures fresh { IfOk result (λ a. a.steps ≡ 0) }
        ensures room { IfOk result (λ a. 2 * k ≤ length a.nodes) }
        ensures family { IfOk result IsFamily }
    {
        let count = k as usize;
        let mut cells = Slab::with_capacity(alloc, 2 * count)?;
        let mut leaves = Vec::with_capacity(alloc, count)?;
        let mut history = History::open(cells.capacity());
        for _leaf in 0..k {
            let name = cells.insert_reserved(Cell::LEAF);
            history.leaf(name);
            leaves.push_reserved(name);
        }
        Ok(Arena {
            cells,
            leaves,
            history,
        })
    }

    /// A number that the name of every node is below. No call changes it: it is the length of the
    /// family's list of nodes, which each call keeps.
    ///
    /// Cost: constant.
    pub fn room(&self) -> usize
        ensures value { result ≡ length self.now.nodes }
        ensures below { (name : ℕ) → IsAlive self.now name → name < result }
        ensures family { IsFamily self.now }
    {
        self.cells.capacity()
    }

    /// The node that holds a leaf alone.
    ///
    /// Cost: constant.
    pub fn leaf_node(&self, leaf: u32) -> usize
        requires { leaf < leaf_count self.now }
        ensures value { result ≡ leaf_node self.now leaf }
        ensures alive { IsAlive self.now result }
        ensures holds { Holds self.now result leaf }
    {
        self.leaves[leaf as usize]
    }

    /// The top that holds a leaf.
    ///
    /// Cost: the number of sets that hold the leaf.
    pub fn top(&self, leaf: u32) -> usize
        requires { leaf < leaf_count self.now }
        ensures top { IsTop self.now result }
        ensures holds { Holds self.now result leaf }
    {
        let mut top = self.leaves[leaf as usize];
        while let Some(parent) = self.cells[top].parent {
            top = parent;
        }
        top
    }

    /// The sum of the duals of all sets that hold a leaf.
    ///
    /// Cost: the number of these sets.
    pub fn total(&self, leaf: u32) -> i64
        requires { leaf < leaf_count self.now }
        ensures { result ≡ pos (total_of self.now leaf) }
    {
        let mut node = self.leaves[leaf as usize];
        let mut sum = self.cells[node].dual;
        while let Some(parent) = self.cells[node].parent {
            node = parent;
            sum += self.cells[node].dual;
        }
        sum as i64
    }

    /// The dual of a node.
    ///
    /// Cost: constant.
    pub fn dual(&self, node: usize) -> i64
        requires { IsAlive self.now node }
        ensures { result ≡ pos (dual_of self.now node) }
    {
        self.cells[node].dual as i64
    }

    /// Whether a node holds one leaf alone, so that it has no children.
    ///
    /// Cost: constant.
    pub fn is_leaf(&self, node: usize) -> bool
        requires { IsAlive self.now node }
        ensures { IsTrue result ↔ (cycle_of self.now node ≡ []) }
    {
        match self.cells[node].kind {
            Kind::Leaf => true,
            _ => false,
        }
    }

    /// The blossom that a node is a child of; none where it is a top.
    ///
    /// Cost: constant.
    pub fn parent(&self, node: usize) -> Option<usize>
        requires { IsAlive self.now node }
        ensures { MatchOption result (IsTop self.now node) (λ p. IsChildOf self.now p node) }
    {
        self.cells[node].parent
    }

    /// The child of a blossom that holds a leaf of it.
    ///
    /// Cost: the number of sets inside the blossom that hold the leaf.
    pub fn child(&self, node: usize, leaf: u32) -> usize
        requires blossom { IsBlossom self.now node }
        requires holds { Holds self.now node leaf }
        ensures child { IsChildOf self.now node result }
        ensures holds { Holds self.now result leaf }
    {
        let mut child = self.leaves[leaf as usize];
        while let Some(parent) = self.cells[child].parent {
            if parent == node {
                return child;
            }
            child = parent;
        }
        unreachable!()
    }

    /// The child of the first link of a blossom's cycle: where a caller begins that reads the children
    /// of a family from outside, one by one by [`Arena::after`]. The engine comes to a child by a leaf.
    ///
    /// Cost: constant.
    pub fn first_child(&self, node: usize) -> usize
        requires { IsBlossom self.now node }
        ensures value { result ≡ (link_at (cycle_of self.now node) 0).node }
        ensures child { IsChildAt self.now node 0 result }
    {
        match self.cells[node].kind {
            Kind::Blossom { first, .. } => first,
            _ => unreachable!(),
        }
    }

    /// The sibling that follows a child in its blossom's cycle; the first follows the last.
    ///
    /// Cost: constant.
    pub fn after(&self, node: usize) -> usize
        requires { IsChild self.now node }
        ensures { Follows self.now node result }
    {
        self.cells[node].next
    }

    /// The link of a child in its blossom's cycle: the child, and the two leaves that join it to
    /// the sibling that follows.
    ///
    /// Cost: constant.
    pub fn link(&self, node: usize) -> Link
        requires { IsChild self.now node }
        ensures { IsLinkOf self.now node result }
    {
        let cell = self.cells[node];
        Link {
            node,
            from: cell.from,
            to: cell.to,
        }
    }

    /// Makes a blossom of an odd cycle of tops, and gives its name, under which there was no node.
    /// It has dual 0 and is a top; its children are no longer tops. Counts one step.
    ///
    /// Cost: the number of links.
    pub fn shrink<L: Ledger>(&mut self, cycle: &[Link], steps: &mut Steps<L>) -> usize
        requires { CanShrink self.old cycle.now }
        ensures unused { node_at self.old result ≡ None }
        ensures made { self.new ≡ with_slot self.old result (Some (blossom_of self.old cycle.now)) }
        ensures top { IsTop self.new result }
        ensures family { IsFamily self.new }
        ensures taken { self.new.steps ≡ self.old.steps + 1 }
        ensures counted { steps.new ≡ steps.old + 1 }
    {
        steps.tick();
        let name = self.cells.insert_reserved(Cell {
            kind: Kind::Blossom {
                first: cycle[0].node,
                count: cycle.len(),
            },
            ..Cell::LEAF
        });
        seat_children(&mut self.cells, cycle, name);
        self.history.shrink(name, cycle);
        name
    }

    /// Takes a blossom of dual 0 that is a top away, and leaves its children as tops. Counts one
    /// step.
    ///
    /// Cost: the number of children.
    pub fn expand<L: Ledger>(&mut self, node: usize, steps: &mut Steps<L>)
        requires top { IsTop self.old node }
        requires blossom { IsBlossom self.old node }
        requires flat { dual_of self.old node ≡ 0 }
        ensures gone { self.new ≡ with_slot self.old node None }
        ensures children { (child : ℕ) → IsChildOf self.old node child → IsTop self.new child }
        ensures family { IsFamily self.new }
        ensures taken { self.new.steps ≡ self.old.steps + 1 }
        ensures counted { steps.new ≡ steps.old + 1 }
    {
        steps.tick();
        let Kind::Blossom { first, count } = self.cells[node].kind else {
            unreachable!()
        };
        free_children(&mut self.cells, &self.history, node, first, count);
        self.cells.remove(node);
        self.history.expand(node);
    }

    /// Raises the duals of the outer tops by `delta`, and lowers those of the inner ones by it.
    /// Either list may be empty. Counts one step.
    ///
    /// Cost: the number of these tops.
    pub fn raise<L: Ledger>(
        &mut self,
        outer: &[usize],
        inner: &[usize],
        delta: i64,
        steps: &mut Steps<L>,
    )
        requires positive { pos 1 ≤ℤ delta }
        requires tops { CanRaise self.old outer.now inner.now (nat_of delta) }
        ensures raised { self.new ≡ raised self.old outer.now inner.now (nat_of delta) }
        ensures family { IsFamily self.new }
        ensures taken { self.new.steps ≡ self.old.steps + 1 }
        ensures counted { steps.new ≡ steps.old + 1 }
    {
        steps.tick();
        let amount = amount_of(delta);
        raise_duals(&mut self.cells, outer, amount);
        lower_duals(&mut self.cells, inner, amount);
        self.history.raise(outer, inner, amount);
    }
}

// A positive number without its sign.
fn amount_of(delta: i64) -> u64
    requires { pos 1 ≤ℤ delta }
    ensures { result ≡ nat_of delta }
{
    delta as u64
}
