// Which cost is found next: one that may be the largest.
ghost use Rattle.std.specs.Prelude.{◌<◌, length, IfOk, IfSome};

use super::NoMemory;
use super::bounds::Bound;
use std::alloc::Global;
use std::cmp::Reverse;
use std::collections::BinaryHeap;

// A bond, and what was the bound of its cost when it was put here. Of bonds with one bound the first is
// the greatest.
#[derive(Clone, Copy, PartialEq, Eq, PartialOrd, Ord)]
struct Bounded {
    bound: i64,
    bond: Reverse<u32>,
}

/// The bonds whose costs are not known. Nothing is promised of their order.
#[derive(Drop)]
pub(crate) struct Waiting {
    heap: BinaryHeap<Bounded>,
}

impl Waiting {
    /// These bonds, none with a bound.
    pub(crate) fn new(alloc: Global, bonds: &[u32]) -> Result<Waiting, NoMemory> {
        let mut heap = BinaryHeap::with_capacity(alloc, bonds.len())?;
        for bond in bonds {
            heap.push(Bounded {
                bound: i64::MAX,
                bond: Reverse(*bond),
            })?;
        }
        Ok(Waiting { heap })
    }

    /// The bond whose cost may be the largest, of those whose cost is not known: the first without an upper
    /// bound, and else the first of the largest one. It waits no more then.
    ///
    /// Bounds only fall. One that fell since its bond was put here goes back to where it belongs, so
    /// each call takes a logarithm, and so does each bound that falls.
    pub(crate) fn next(&mut self, bounds: &[Bound]) -> Result<Option<u32>, NoMemory>
        ensures { IfOk result (λ found. IfSome found (λ bond. bond < length bounds.now)) }
    {
        for _ in 0..=self.heap.len() {
            let Some(first) = self.heap.pop() else {
                break;
            };
            let Reverse(bond) = first.bond;
            let Some(bound) = open_bound(bounds, bond) else {
                continue;
            };
            if bound >= first.bound {
                return Ok(Some(bond));
            }
            self.heap.push(Bounded { bound, ..first })?;
        }
        Ok(None)
    }
}

// The upper bound of a cost that is not known.
fn open_bound(bounds: &[Bound], bond: u32) -> Option<i64>
    ensures { IfSome result (λ _. bond < length bounds.now) }
{
    let Bound { low, high } = *bounds.get(bond as usize)?;
    if high < 0 {
        return Some(i64::MAX);
    }
    if low < high { Some(high) } else { None }
}
