// The dual without the bonds that are left out, and a ground state on it.
use super::chains::Chains;
use super::lists::{between, entry_or};
use super::sheet::{Sheet, first_dart, second_dart};
use sg_slots::{Slot, Store, number, set_entry};
use std::alloc::Global;
use std::mem::swap;

/// What it costs to turn bonds in units of the couplings, and of how many of them nothing is known.
#[derive(Clone, Copy)]
pub struct Turning {
    pub cost: i64,
    pub open: u32,
}

impl Turning {
    /// No bonds.
    pub fn none() -> Turning {
        Turning { cost: 0, open: 0 }
    }

    /// The bonds of both.
    pub fn and(self, other: Turning) -> Turning {
        Turning {
            cost: self.cost.wrapping_add(other.cost),
            open: self.open.saturating_add(other.open),
        }
    }
}

/// The dual in which each chain of bonds is one edge: another ground state turns all bonds of a chain, or none.
pub struct Reduced {
    // The chains of the bonds that are not left out, by their places in a list; and for each bond its chain.
    chains: Chains,
    bonds: Store<u32>,
    chain_of: Store<Slot>,
    // For each chain what it costs to turn it from how it was at first, of how many bonds nothing is known, and
    // whether it is turned, for the first time since the proposal was begun.
    first: Store<Turning>,
    is_turned: Store<bool>,
    is_new: Store<bool>,
    // Sets of chains that were found and not taken, and the place behind each.
    kept: Store<u32>,
    kept_ends: Store<u32>,
}

// An explicit `Drop`: otherwise every early return of an owner drops each list, and the prover pays for each.
impl Drop for Reduced {
    fn drop(self) {
        let Reduced {
            chains: _chains,
            bonds: _bonds,
            chain_of: _chain_of,
            first: _first,
            is_turned: _is_turned,
            is_new: _is_new,
            kept: _kept,
            kept_ends: _kept_ends,
        } = self;
    }
}

impl Reduced {
    /// The dual at a ground state that breaks these bonds, with some left out.
    pub fn new(alloc: Global, sheet: &Sheet, broken: &[bool], is_out: &Store<bool>) -> Reduced {
        let bonds = bonds_left(alloc, is_out);
        let chains = chains_of(alloc, sheet, &bonds.items);
        let mut reduced = Reduced {
            chain_of: Store::filled(alloc, Slot::none(), sheet.bonds()),
            first: Store::with_room(alloc, chains.len()),
            is_turned: Store::filled(alloc, false, chains.len()),
            is_new: Store::filled(alloc, false, chains.len()),
            kept: Store::new(alloc),
            kept_ends: Store::new(alloc),
            chains,
            bonds,
        };
        reduced.add_chains(sheet, broken);
        reduced
    }

    /// Whether a list found no memory.
    pub fn is_short(&self) -> bool {
        let are_bonds = self.bonds.is_short() | self.chain_of.is_short() | self.chains.is_short();
        let are_marks = self.is_turned.is_short() | self.is_new.is_short();
        let are_kept = self.kept.is_short() | self.kept_ends.is_short();
        are_bonds | are_marks | are_kept | self.first.is_short()
    }

    // Adds what it costs to turn each chain.
    fn add_chains(&mut self, sheet: &Sheet, broken: &[bool]) {
        for chain in 0..number(self.chains.len()) {
            self.add_chain(sheet, broken, chain);
        }
    }

    // Adds what it costs to turn a chain.
    fn add_chain(&mut self, sheet: &Sheet, broken: &[bool], chain: u32) {
        let mut first = Turning::none();
        for place in self.chains.at(chain) {
            let bond = entry_or(&self.bonds.items, *place, 0);
            set_entry(&mut self.chain_of.items, bond, Slot::of(chain));
            let is_broken = entry_or(broken, bond, false);
            first = first.and(turning_of(sheet.coupling(bond), is_broken));
        }
        self.first.push(first);
    }

    /// The number of chains.
    pub fn len(&self) -> usize {
        self.first.items.len()
    }

    /// The number of nodes at ends of chains.
    pub fn nodes(&self) -> usize {
        self.chains.nodes as usize
    }

    /// The node on the side of a dart of a chain.
    pub fn side(&self, dart: u32) -> u32 {
        entry_or(&self.chains.sides.items, dart, 0)
    }

    /// The chain of a bond, if it is in one.
    pub fn chain_of(&self, bond: u32) -> Option<u32> {
        entry_or(&self.chain_of.items, bond, Slot::none()).number()
    }

    /// A bond of a chain.
    pub fn bond_of(&self, chain: u32) -> u32 {
        match self.chains.at(chain).first() {
            Some(place) => entry_or(&self.bonds.items, *place, 0),
            None => 0,
        }
    }

    /// What it costs to turn a chain from how it was at first.
    pub fn first(&self, chain: u32) -> Turning {
        entry_or(&self.first.items, chain, Turning::none())
    }

    /// Whether nothing is known of some bond of a chain.
    pub fn is_open(&self, chain: u32) -> bool {
        self.first(chain).open > 0
    }

    /// Whether a chain is turned from how it was at first.
    pub fn is_turned(&self, chain: u32) -> bool {
        entry_or(&self.is_turned.items, chain, false)
    }

    /// What it costs to turn a chain.
    pub fn turning(&self, chain: u32) -> Turning {
        let first = self.first(chain);
        Turning {
            cost: if self.is_turned(chain) {
                first.cost.wrapping_neg()
            } else {
                first.cost
            },
            open: first.open,
        }
    }

    /// Begins a proposal with what was kept of the last one, where that still costs nothing, and says whether there
    /// was any.
    pub fn begin(&mut self, alloc: Global) -> bool {
        let chains = self.len();
        self.is_new.items.clear();
        self.is_new.resize(chains, false);
        let mut kept = Vec::new(alloc);
        let mut ends = Vec::new(alloc);
        swap(&mut kept, &mut self.kept.items);
        swap(&mut ends, &mut self.kept_ends.items);
        let mut first = 0u32;
        let mut found = false;
        for end in &ends {
            if self.take_free(between(&kept, first, *end)) {
                found = true;
            }
            first = *end;
        }
        found
    }

    // Turns chains if that costs nothing and tells something.
    fn take_free(&mut self, turned: &[u32]) -> bool {
        let mut all = Turning::none();
        for chain in turned {
            all = all.and(self.turning(*chain));
        }
        if all.cost != 0 || all.open == 0 {
            return false;
        }
        self.take(turned)
    }

    /// Turns chains, or keeps them for the next proposal where one of them has turned for the first time since this
    /// one was begun.
    pub fn take(&mut self, turned: &[u32]) -> bool {
        if self.has_new(turned) {
            self.kept.extend(turned);
            self.kept_ends.push(number(self.kept.items.len()));
            return false;
        }
        for chain in turned {
            let is_turned = !self.is_turned(*chain);
            self.set_turned(*chain, is_turned);
        }
        true
    }

    // Whether one of these chains has turned for the first time since the proposal was begun.
    fn has_new(&self, chains: &[u32]) -> bool {
        for chain in chains {
            if entry_or(&self.is_new.items, *chain, true) {
                return true;
            }
        }
        false
    }

    /// Turns a chain or not, and says whether that tells something of it.
    pub fn set_turned(&mut self, chain: u32, is_turned: bool) -> bool {
        set_entry(&mut self.is_turned.items, chain, is_turned);
        if !is_turned || !self.is_open(chain) {
            return false;
        }
        let cost = self.first(chain).cost;
        set_entry(&mut self.first.items, chain, Turning { cost, open: 0 });
        set_entry(&mut self.is_new.items, chain, true);
        true
    }
}

// What it costs to turn a bond of which nothing is known.
fn turning_of(coupling: i64, is_broken: bool) -> Turning {
    let size = coupling.wrapping_abs();
    Turning {
        cost: if is_broken { size.wrapping_neg() } else { size },
        open: 1,
    }
}

// The bonds that are not left out.
fn bonds_left(alloc: Global, is_out: &Store<bool>) -> Store<u32> {
    let mut bonds = Store::new(alloc);
    bonds.note(is_out);
    for (bond, is_out) in is_out.items.iter().enumerate() {
        if !*is_out {
            bonds.push(number(bond));
        }
    }
    bonds
}

// The chains of these bonds.
fn chains_of(alloc: Global, sheet: &Sheet, bonds: &[u32]) -> Chains {
    let sides = sides_of(alloc, sheet, bonds);
    Chains::new(alloc, sheet.faces(), &sides)
}

// The faces on both sides of each of these bonds.
fn sides_of(alloc: Global, sheet: &Sheet, bonds: &[u32]) -> Store<u32> {
    let mut sides = Store::with_room(alloc, bonds.len().saturating_mul(2));
    for bond in bonds {
        sides.push(sheet.side(first_dart(*bond)));
        sides.push(sheet.side(second_dart(*bond)));
    }
    sides
}
