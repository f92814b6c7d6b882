// Taking finished regions apart: all that lie over the two ends of an edge.
//
// The parts of a blossom that stay are paired along its cycle, each with its neighbour. What is left
// over has no mate: it becomes the root of a tree, and grows.
use super::NoMemory;
use super::parts::work_for;
use sg_forest::Link;
use sg_region_engine::{Engine, Exit};
use sg_slots::Store;
use std::alloc::AllocError;

// A node, its terminal that is none any more, and the one that is new there.
#[derive(Clone, Copy)]
pub struct Ending {
    pub node: u32,
    pub gone: Option<u32>,
    pub new: Option<u32>,
}

// Takes all regions over two nodes apart, and lets what is left over grow until each terminal has a
// mate, but for those that are gone. False if that did not come about within the work allowed.
pub fn repair(engine: &mut Engine, ends: [Ending; 2]) -> Result<bool, NoMemory> {
    let mut open = Store::new(engine.alloc());
    take_apart(engine, ends, &mut open);
    for end in ends {
        if let Some(terminal) = end.new {
            plant_again(engine, end.node, terminal, &mut open);
        }
    }
    if open.is_short() {
        return Err(AllocError);
    }
    let work = work_for(&open.items, engine.arcs());
    engine.grow_from(&open.items, work)
}

// Takes all regions over two nodes apart, and lists those that have no mate any more.
fn take_apart(engine: &mut Engine, ends: [Ending; 2], open: &mut Store<Exit>) {
    let [one, other] = ends;
    engine.meet_none();
    let first = met_over(engine, one.node);
    let second = met_over(engine, other.node);
    leave_mate(engine, &first.items, open);
    leave_mate(engine, &second.items, open);
    open_regions(engine, &first.items, ends, open);
    open_regions(engine, &second.items, ends, open);
    open.note(&first);
    open.note(&second);
}

// Meets the regions over a node that were not met, and lists them, each before its parts.
fn met_over(engine: &mut Engine, node: u32) -> Store<u32> {
    let mut list = Store::new(engine.alloc());
    let mut here = match engine.cover().held(node) {
        Some(held) => Some(held.region),
        None => None,
    };
    for _ in 0..engine.forest().len() {
        let Some(name) = here else {
            break;
        };
        if engine.meet_again(name) {
            break;
        }
        list.push(name);
        here = engine.forest().cycles().parent(name).number();
    }
    list.items.reverse();
    list
}

// The mate of the first of these regions is left without one, if it stays.
fn leave_mate(engine: &Engine, regions: &[u32], open: &mut Store<Exit>) {
    let Some(name) = regions.first() else {
        return;
    };
    let forest = engine.forest();
    if !forest.cycles().parent(*name).is_none() {
        return;
    }
    if let Some(pair) = forest.pair(*name) {
        let terminal = pair.other.terminal;
        let region = forest.top(terminal);
        if !forest.was_met(region) {
            open.push(Exit { region, terminal });
        }
    }
}

// Takes regions apart, each of them a top when its turn comes.
fn open_regions(engine: &mut Engine, regions: &[u32], ends: [Ending; 2], open: &mut Store<Exit>) {
    for name in regions {
        open_region(engine, *name, ends, open);
    }
}

// Takes a top apart, and pairs those of its parts that stay. What is left of the region of a
// terminal is the terminal.
fn open_region(engine: &mut Engine, name: u32, ends: [Ending; 2], open: &mut Store<Exit>) {
    let size = engine.forest().cycles().size(name);
    engine.uncover(name);
    if let Some(node) = engine.seed(name) {
        if !is_gone(name, ends) {
            plant_again(engine, node, name, open);
        }
        return;
    }
    let mut cycle = Store::new(engine.alloc());
    let first = first_met(engine, name);
    let forest = engine.forest();
    forest.list_ahead(forest.cycles().next(first), size, &mut cycle);
    engine.open_blossom(name);
    pair_along(engine, &cycle.items, open);
    open.note(&cycle);
}

// Whether a terminal is none any more when the ends of an edge are these.
pub fn is_gone(name: u32, ends: [Ending; 2]) -> bool {
    let [one, other] = ends;
    one.gone == Some(name) || other.gone == Some(name)
}

// A part of a blossom that was met, if there is one; else any.
fn first_met(engine: &Engine, blossom: u32) -> u32 {
    let forest = engine.forest();
    let cycles = forest.cycles();
    let mut part = cycles.first(blossom);
    for _ in 0..cycles.size(blossom) {
        if forest.was_met(part) {
            break;
        }
        part = cycles.next(part);
    }
    part
}

// Pairs the regions of a way that were not met, each with the next one, and lists those that are
// left over.
fn pair_along(engine: &mut Engine, way: &[Link], open: &mut Store<Exit>) {
    let mut left: Option<Link> = None;
    for link in way {
        let stays = !engine.forest().was_met(link.child);
        match left {
            None if stays => left = Some(*link),
            None => {}
            Some(before) => {
                if stays {
                    engine.pair_by(before.contact);
                } else {
                    open.push(exit_of(before));
                }
                left = None;
            }
        }
    }
    if let Some(before) = left {
        open.push(exit_of(before));
    }
}

// A terminal at a node that nothing covers, ungrown.
fn plant_again(engine: &mut Engine, node: u32, terminal: u32, open: &mut Store<Exit>) {
    engine.plant_as(terminal, node);
    open.push(Exit {
        region: terminal,
        terminal,
    });
}

// A region of a cycle with the terminal by which it touched the next one.
fn exit_of(link: Link) -> Exit {
    Exit {
        region: link.child,
        terminal: link.contact.own.terminal,
    }
}
