ghost use Rattle.std.specs.Prelude.{◌≡◌, ◌<◌, false, MatchOption};
ghost use Rattle.sg_arena.specs.Family.{Holds, IsAlive, dual_of, holds, leaf_count};
ghost use Rattle.sg_arena.specs.Sets.{inner_of};

use sg_arena::Arena;

/// The dual of the set with this name, 0 if there is none. A set has some leaf, so the name is looked
/// for on the way up from each of the family's leaves.
pub fn dual_under(family: &Arena, leaves: u32, name: usize) -> u64
    requires { leaf_count family.now ≡ leaves }
    ensures { result ≡ dual_of family.now name }
{
    let _room = family.room();
    for leaf in 0..leaves {
        if let Some(_inner) = inner_duals(family, name, leaf) {
            return dual(family, name);
        }
    }
    0
}

/// What the duals of the smaller sets within the set sum to at the leaf: none if the set does not
/// hold the leaf. It goes up from the leaf's own node.
pub fn inner_duals(family: &Arena, name: usize, leaf: u32) -> Option<u64>
    requires { leaf < leaf_count family.now }
    ensures { MatchOption result (holds family.now name leaf ≡ false)
        (λ inner. Holds family.now name leaf × (inner ≡ inner_of family.now name leaf)) }
{
    let _room = family.room();
    let mut at = family.leaf_node(leaf);
    let mut inner: u64 = 0;
    while at != name {
        let Some(parent) = family.parent(at) else {
            return None;
        };
        inner += dual(family, at);
        at = parent;
    }
    Some(inner)
}

// The dual of a node, which is never negative.
fn dual(family: &Arena, name: usize) -> u64
    requires { IsAlive family.now name }
    ensures { result ≡ dual_of family.now name }
{
    family.dual(name) as u64
}
