// Odd cycles at rest: the first half of a run makes no blossom that has to give way.
//
// In the first half a tree ends with its first odd cycle. The pairs on the way from the cycle to the
// root change sides, and the cycle is left at rest: a free blossom of radius 0 that is paired with
// none. The next tree that comes to it pairs its regions, one with the tree and the others along the
// cycle, and the blossom is gone. So terminals near one hub change their mates at no cost, where
// blossoms would be nested and taken apart again for each of them. When no tree is left, the cycles
// that still rest become roots of trees, and in the second half cycles grow on as blossoms.
//
// Two outer regions have to meet at a whole time. Where arcs are twice as long as edges weigh, the radii
// of all outer regions are odd at odd times and even at even ones. A cycle that came to rest at a time of
// the other kind becomes a root one later; and where arcs are four times as long, two later.
use super::{Engine, Exit};
use crate::NoMemory;
use sg_forest::{Contact, Role};
use sg_slots::{Store, number};

impl<'a> Engine<'a> {
    /// Runs until each terminal has a mate. False if that did not come about within the work allowed. All
    /// arcs are so many times two as long as their edges weigh. The only error is running out of memory.
    pub fn run_by_method(&mut self, unit: i64) -> Result<bool, NoMemory> {
        let is_done = self.go_by_method(unit);
        self.unless_short(is_done)
    }

    // The same, but it may be that a list is short.
    pub(super) fn go_by_method(&mut self, unit: i64) -> bool {
        let mut is_done = self.go_on();
        if is_done && self.is_first {
            self.is_first = false;
            self.rests = 0;
            is_done = self.go_on_from_rests(unit);
        }
        if is_done && self.is_open {
            self.close_hubs();
            is_done = self.go_on_from_rests(unit);
        }
        is_done
    }

    // All that rests becomes a root, and trees grow until none is left.
    fn go_on_from_rests(&mut self, unit: i64) -> bool {
        self.end_rests(unit);
        self.go_on()
    }

    // Leaves a cycle at rest that was closed in a tree, and lets the tree go. Regions of the cycle that were inner
    // are listed from a place on.
    pub(super) fn rest(&mut self, blossom: u32, start: usize) {
        let tree = self.forest.tree(blossom);
        self.forest.leave_unpaired(blossom, &mut self.work);
        self.rests = self.rests.saturating_add(1);
        self.let_go(tree);
        self.wake_inner(start, None)
    }

    // A tree comes to what is at rest: the pairs on the way to the root change sides, and what rests is paired:
    // in the first half, where it is a cycle of radius 0, it is taken apart.
    pub(super) fn augment_rest(&mut self, contact: Contact) {
        let tree = self.forest.tree(self.forest.top(contact.own.terminal));
        let rest = self.forest.top(contact.other.terminal);
        self.batches.end(self.forest.tree(rest));
        self.forest.flip_pairs(contact, &mut self.work);
        if self.is_first {
            self.pair_rest(contact.reversed());
        } else {
            self.forest.quit_tree(rest);
            self.forest.set_pair(contact.reversed());
        }
        self.rests = self.rests.saturating_sub(1);
        self.unpaired = self.unpaired.saturating_sub(1);
        self.end_tree(tree)
    }

    // Takes a cycle at rest apart: one of its regions is paired by a contact, the others along the cycle.
    fn pair_rest(&mut self, contact: Contact) {
        let blossom = self.forest.top(contact.own.terminal);
        let size = self.forest.cycles().size(blossom);
        self.take_apart(blossom);
        self.forest.free_name(blossom);
        let first = self.forest.top(contact.own.terminal);
        self.forest.list_ahead(first, size, &mut self.cycle);
        for (step, link) in self.cycle.items.iter().enumerate() {
            if step % 2 == 1 {
                self.forest.pair_by(link.contact);
            }
        }
        self.forest.set_pair(contact);
    }

    // Whether a name is that of a region at rest: of a cycle that was closed in the first half, or of what was left
    // over at a hub.
    fn is_at_rest(&self, name: u32) -> bool {
        self.cover.is_open(name)
            && self.forest.role(name) == Role::Free
            && self.forest.pair(name).is_none()
    }

    // All regions at rest become roots, now or a unit later.
    fn end_rests(&mut self, unit: i64) {
        let mut roots = Store::new(self.alloc);
        for name in 0..number(self.forest.len()) {
            if self.is_at_rest(name) {
                let terminal = self.terminal_in(name);
                if self.is_in_step(terminal, unit) {
                    roots.push(Exit {
                        region: name,
                        terminal,
                    });
                } else {
                    self.clock.expect_root(name, unit);
                }
            }
        }
        self.make_roots(&roots.items);
        self.was_short |= roots.is_short();
    }

    // Whether the radii over a terminal are an odd number of units just where the time is.
    fn is_in_step(&self, terminal: u32, unit: i64) -> bool {
        let now = self.clock.now();
        let reach = self.forest.reach(terminal, now);
        reach.by.wrapping_sub(now) & unit == 0
    }

    // A terminal in a region.
    fn terminal_in(&self, name: u32) -> u32 {
        if self.seed(name).is_some() {
            return name;
        }
        let cycles = self.forest.cycles();
        cycles.link(cycles.first(name)).contact.own.terminal
    }

    // The event of a region that is to become a root, if it still rests.
    pub(super) fn root_event(&mut self, name: u32) {
        if !self.is_at_rest(name) {
            return;
        }
        let terminal = self.terminal_in(name);
        self.forest.make_root(name, terminal, self.clock.now());
        self.wake_region(name, name)
    }
}
