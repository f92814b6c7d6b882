// The steps of the method: a tree grows, two trees are augmented, a cycle shrinks to a blossom, and an
// inner blossom expands again.
use super::Engine;
use sg_forest::{Contact, End, Link, Role};
use std::mem::swap;

impl<'a> Engine<'a> {
    // An outer region meets another, outer or free, over a contact.
    pub(super) fn meet(&mut self, contact: Contact) {
        let own = self.forest.top(contact.own.terminal);
        let other = self.forest.top(contact.other.terminal);
        if self.forest.role(other) == Role::Free {
            match self.forest.pair(other) {
                Some(pair) if pair.is_with_node() => self.augment_by_hub(contact),
                Some(_) => self.grow(contact),
                None => self.augment_rest(contact),
            }
        } else if self.forest.tree(own) == self.forest.tree(other) {
            self.shrink(contact)
        } else {
            self.augment(contact)
        }
    }

    // A tree grows by a free region that one of its outer regions has met, and by the region that is
    // paired with it.
    fn grow(&mut self, contact: Contact) {
        let tree = self.forest.tree(self.forest.top(contact.own.terminal));
        let inner = self.forest.top(contact.other.terminal);
        let (Some(tree), Some(pair)) = (tree, self.forest.pair(inner)) else {
            return;
        };
        let outer = self.forest.top(pair.other.terminal);
        self.forest.set_above(contact.reversed());
        self.forest.add_member(inner, tree);
        self.forest.add_member(outer, tree);
        self.set_inner(inner);
        self.forest.set_role(outer, Role::Outer, self.clock.now());
        self.wake_region(outer, outer)
    }

    // Two trees meet by a contact between outer regions: the pairs on both ways to the roots change
    // sides, both roots are paired then, and both trees go.
    fn augment(&mut self, contact: Contact) {
        let own = self.forest.tree(self.forest.top(contact.own.terminal));
        let other = self.forest.tree(self.forest.top(contact.other.terminal));
        self.forest.flip_pairs(contact, &mut self.work);
        self.forest.flip_pairs(contact.reversed(), &mut self.work);
        self.end_tree(own);
        self.end_tree(other)
    }

    // A tree whose root has a mate goes.
    pub(super) fn end_tree(&mut self, tree: Option<u32>) {
        self.unpaired = self.unpaired.saturating_sub(1);
        self.batches.end(tree);
        self.let_go(tree)
    }

    // Lets a tree go: what was kept off by its inner regions may come now.
    pub(super) fn let_go(&mut self, tree: Option<u32>) {
        let Some(tree) = tree else {
            return;
        };
        let start = self.inner.items.len();
        self.free_members(tree);
        self.wake_inner(start, None)
    }

    // Takes the regions that were inner off their list, from a place on, and enters their events where they are in an
    // outer top, or the events of the arcs that lead to them.
    pub(super) fn wake_inner(&mut self, start: usize, top: Option<u32>) {
        for place in start..self.inner.items.len() {
            let Some(name) = self.inner.items.get(place).copied() else {
                break;
            };
            match top {
                Some(top) => self.wake_region(name, top),
                None => self.wake_around_region(name),
            }
        }
        self.inner.items.truncate(start);
    }

    // Makes the members of a tree free, and lists those that were inner. What is no top of this tree any more is left
    // out, and the name of a region that is gone may be used again.
    pub(super) fn free_members(&mut self, tree: u32) {
        let mut member = self.forest.dissolve(tree);
        for _ in 0..self.forest.len() {
            let Some(name) = member else {
                break;
            };
            self.work.add(1);
            member = self.forest.next_member(name);
            let role = self.forest.role(name);
            if !self.cover.is_open(name) {
                self.forest.free_name(name);
            } else if role != Role::Part && self.forest.tree(name) == Some(tree) {
                if role == Role::Inner {
                    self.inner.push(name);
                }
                self.forest.quit_tree(name);
                self.forest.set_role(name, Role::Free, self.clock.now());
            }
        }
    }

    // The cycle that a contact within a tree closes becomes an outer blossom: its regions that were inner are woken.
    pub(super) fn shrink(&mut self, contact: Contact) {
        let own = self.forest.top(contact.own.terminal);
        let other = self.forest.top(contact.other.terminal);
        let Some(base) = self.forest.common_above(own, other, &mut self.work) else {
            return;
        };
        self.forest.list_cycle(base, contact, &mut self.cycle);
        let start = self.inner.items.len();
        self.list_inner();
        let now = self.clock.now();
        let blossom = self
            .forest
            .shrink(&self.cycle.items, base, now, &mut self.work);
        self.cover.open(blossom);
        self.append_rows(blossom);
        if self.is_first {
            self.rest(blossom, start)
        } else {
            self.wake_inner(start, Some(blossom))
        }
    }

    // Lists the inner regions of the cycle.
    fn list_inner(&mut self) {
        for link in &self.cycle.items {
            if self.forest.role(link.child) == Role::Inner {
                self.inner.push(link.child);
            }
        }
    }

    // The rows of the cycle's regions become one.
    pub(super) fn append_rows(&mut self, blossom: u32) {
        for link in &self.cycle.items {
            self.cover.append(blossom, link.child);
        }
    }

    // The inner region of a terminal has come to nothing, or two outer regions touch at a bare node of
    // an inner one: they make a blossom with it. So no terminal's dual falls below 0.
    pub(super) fn shrink_at(&mut self, name: u32) {
        match (self.forest.pair(name), self.forest.above(name)) {
            (Some(pair), Some(above)) => self.shrink(Contact {
                own: pair.other,
                other: above.other,
            }),
            _ => {}
        }
    }

    // An inner blossom of radius 0 is taken apart: its even side stays in the tree.
    pub(super) fn expand(&mut self, name: u32) {
        let (Some(pair), Some(above)) = (self.forest.pair(name), self.forest.above(name)) else {
            return;
        };
        let tree = self.forest.tree(name);
        let size = self.forest.cycles().size(name);
        self.take_apart(name);
        let first = self.forest.top(above.own.terminal);
        let last = self.forest.top(pair.own.terminal);
        let length = self
            .forest
            .list_even_way(first, last, size, &mut self.cycle);
        self.forest.set_above(above);
        self.forest.set_pair(pair);
        let mut way = Vec::new(self.alloc);
        swap(&mut way, &mut self.cycle.items);
        self.regroup(&way, length, tree);
        swap(&mut way, &mut self.cycle.items);
    }

    // The parts of a blossom are tops.
    pub(super) fn take_apart(&mut self, blossom: u32) {
        self.cut_rows(blossom);
        self.cover.close(blossom);
        self.forest
            .expand(blossom, self.clock.now(), &mut self.work)
    }

    // The rows of a blossom's parts are rows of their own again.
    pub(super) fn cut_rows(&mut self, blossom: u32) {
        let mut part = self.forest.cycles().first(blossom);
        for _ in 0..self.forest.cycles().size(blossom) {
            self.cover.cut(part);
            part = self.forest.cycles().next(part);
        }
    }

    // The regions of the first `length` links, and the one behind them, stay in the tree, inner at even steps and outer
    // at odd ones; the others are paired. Then the events of all are entered.
    fn regroup(&mut self, way: &[Link], length: usize, tree: Option<u32>) {
        for (step, link) in way.iter().enumerate() {
            if step > length {
                if (step - length) % 2 == 1 {
                    self.forest.pair_by(link.contact);
                }
                continue;
            }
            if let Some(tree) = tree {
                self.forest.add_member(link.child, tree);
            }
            if step % 2 == 1 {
                self.forest.set_above(link.contact.reversed());
                self.forest
                    .set_role(link.child, Role::Outer, self.clock.now());
                continue;
            }
            if step < length {
                self.forest.pair_by(link.contact);
            }
            self.set_inner(link.child);
        }
        self.wake_parts(way, length)
    }

    // Enters the events of the regions that were a blossom's.
    fn wake_parts(&mut self, way: &[Link], length: usize) {
        for (step, link) in way.iter().enumerate() {
            if step > length {
                self.wake_around_region(link.child);
            } else if step % 2 == 1 {
                self.wake_region(link.child, link.child);
            }
        }
    }

    // One side of a contact, at the start of an arc.
    pub(super) fn end_at(&self, node: u32, dart: u32) -> Option<End> {
        match self.cover.held(node) {
            Some(held) => Some(End {
                terminal: held.terminal,
                dart,
            }),
            None => None,
        }
    }
}
