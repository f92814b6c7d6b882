ghost use Rattle.std.specs.Prelude.{◌≡◌, ℕ, ◌<◌, ◌≤◌, ◌+◌, ◌^◌, length, IsTrue};
ghost use Rattle.sg_arena.specs.Family.{IsTop, IsBlossom, leaf_count, total_of};

use super::facts::expect;
use sg_arena::{Arena, Link, NoMemory};
use sg_base::Steps;
use std::alloc::Global;
use std::marker::Brand;
use std::process::Abort;
use std::sync::ledger::{Blank, Ledger};

// A cycle of three tops: link i joins leaf `from[i]` of one to leaf `to[i]` of the next.
#[derive(Clone, Copy)]
struct Ring {
    from: [u32; 3],
    to: [u32; 3],
}

// A call that changes an arena, with a top named by one of its leaves. For a top that is expanded there are also
// leaves of its first child.
#[derive(Clone, Copy)]
enum Change {
    Shrink(Ring),
    Expand(u32, &'static [u32]),
    Lift(u32, i64),
    Lower(u32, i64),
    Shift(u32, u32, i64),
}

const A: Ring = Ring {
    from: [0, 1, 2],
    to: [1, 2, 0],
};

const B: Ring = Ring {
    from: [3, 4, 5],
    to: [4, 5, 3],
};

const C: Ring = Ring {
    from: [6, 7, 8],
    to: [7, 8, 6],
};

// Enters and leaves each of the three by different leaves.
const ALL: Ring = Ring {
    from: [0, 4, 8],
    to: [3, 7, 2],
};

// The first of them and two leaves more.
const OUTER: Ring = Ring {
    from: [0, 3, 4],
    to: [3, 4, 2],
};

// Shrinks the tops of the ring's leaves.
fn shrink_ring<L: Ledger, R: Abort>(
    rt: &R,
    arena: &mut Arena,
    k: u32,
    ring: Ring,
    steps: &mut Steps<L>,
) -> usize
    requires { leaf_count arena.old ≡ k }
    ensures count { leaf_count arena.new ≡ k }
    ensures top { IsTop arena.new result }
{
    let [a, b, c] = ring.from;
    let [x, y, z] = ring.to;
    expect(rt, "first leaf", a < k);
    expect(rt, "second leaf", b < k);
    expect(rt, "third leaf", c < k);
    expect(rt, "leaf after the first", x < k);
    expect(rt, "leaf after the second", y < k);
    expect(rt, "leaf after the third", z < k);
    let first = arena.top(a);
    let second = arena.top(b);
    let third = arena.top(c);
    expect(rt, "two tops", first != second);
    expect(rt, "two tops", second != third);
    expect(rt, "two tops", third != first);
    let after_first = arena.top(x);
    let after_second = arena.top(y);
    let after_third = arena.top(z);
    expect(rt, "the next top", after_first == second);
    expect(rt, "the next top", after_second == third);
    expect(rt, "the next top", after_third == first);
    let cycle = [
        Link {
            node: first,
            from: a,
            to: x,
        },
        Link {
            node: second,
            from: b,
            to: y,
        },
        Link {
            node: third,
            from: c,
            to: z,
        },
    ];
    arena.shrink(&cycle, steps)
}

// Whether each total may grow by 1000.
fn totals_fit(arena: &Arena, k: u32) -> bool
    requires { leaf_count arena.now ≡ k }
    ensures { IsTrue result → (leaf : ℕ) → leaf < k → total_of arena.now leaf + 1000 ≤ 2 ^ 61 }
{
    for leaf in 0..k {
        if arena.total(leaf) > 1_000_000 {
            return false;
        }
    }
    true
}

// Raises or lowers the tops of these leaves.
fn change_duals<L: Ledger, R: Abort>(
    rt: &R,
    arena: &mut Arena,
    k: u32,
    change: Change,
    steps: &mut Steps<L>,
)
    requires { leaf_count arena.old ≡ k }
    ensures { leaf_count arena.new ≡ k }
{
    expect(rt, "totals", totals_fit(arena, k));
    let room = arena.room();
    match change {
        Change::Lift(up, delta) => {
            expect(rt, "outer leaf", up < k);
            expect(rt, "least change", 1 <= delta);
            expect(rt, "largest change", delta <= 1000);
            let outer = arena.top(up);
            expect(rt, "outer top", outer < room);
            arena.raise(&[outer], &[], delta, steps);
        }
        Change::Lower(down, delta) => {
            expect(rt, "inner leaf", down < k);
            expect(rt, "least change", 1 <= delta);
            let inner = arena.top(down);
            expect(rt, "inner dual", delta <= arena.dual(inner));
            arena.raise(&[], &[inner], delta, steps);
        }
        Change::Shift(up, down, delta) => {
            expect(rt, "outer leaf", up < k);
            expect(rt, "inner leaf", down < k);
            expect(rt, "least change", 1 <= delta);
            expect(rt, "largest change", delta <= 1000);
            let outer = arena.top(up);
            let inner = arena.top(down);
            expect(rt, "two tops", outer != inner);
            expect(rt, "inner dual", delta <= arena.dual(inner));
            arena.raise(&[outer], &[inner], delta, steps);
        }
        _ => {}
    }
}

// Expands the top of a leaf. Its first child is handed back.
fn expand_top<L: Ledger, R: Abort>(
    rt: &R,
    arena: &mut Arena,
    k: u32,
    leaf: u32,
    steps: &mut Steps<L>,
) -> usize
    requires { leaf_count arena.old ≡ k }
    ensures { leaf_count arena.new ≡ k }
{
    expect(rt, "leaf", leaf < k);
    let node = arena.top(leaf);
    expect(rt, "a blossom", !arena.is_leaf(node));
    expect(rt, "dual of a blossom to expand", arena.dual(node) == 0);
    let first = arena.first_child(node);
    arena.expand(node, steps);
    first
}

// This is the top of each of these leaves.
fn expect_tops<R: Abort>(rt: &R, arena: &Arena, k: u32, leaves: &[u32], top: usize)
    requires { leaf_count arena.now ≡ k }
{
    for leaf in leaves {
        expect(rt, "leaf", *leaf < k);
        expect(rt, "top of a leaf", arena.top(*leaf) == top);
    }
}

// A new blossom has dual 0, is the top of these leaves, and has this first child.
fn expect_blossom<R: Abort>(
    rt: &R,
    arena: &Arena,
    k: u32,
    leaves: &[u32],
    name: usize,
    first: usize,
)
    requires count { leaf_count arena.now ≡ k }
    requires top { IsTop arena.now name }
{
    expect(rt, "dual of a new blossom", arena.dual(name) == 0);
    expect_tops(rt, arena, k, leaves, name);
    expect(rt, "a new blossom", !arena.is_leaf(name));
    expect(rt, "first child", arena.first_child(name) == first);
}

// Reads a blossom's cycle once round.
fn read_cycle<R: Abort>(rt: &R, arena: &Arena, blossom: usize, ring: Ring)
    requires { IsBlossom arena.now blossom }
{
    let first = arena.first_child(blossom);
    let mut child = first;
    for i in 0..3 {
        let link = Link {
            node: child,
            from: ring.from[i],
            to: ring.to[i],
        };
        expect(rt, "link", arena.link(child) == link);
        child = arena.after(child);
    }
    expect(rt, "first child", child == first);
}

// Reads all that holds a leaf, from its node to its top: these cycles, the innermost first.
fn read_leaf<R: Abort>(rt: &R, arena: &Arena, leaf: u32, total: i64, rings: &[Ring])
    requires { leaf < leaf_count arena.now }
{
    let room = arena.room();
    let mut node = arena.leaf_node(leaf);
    expect(rt, "a leaf", arena.is_leaf(node));
    for &ring in rings {
        match arena.parent(node) {
            None => panic!(rt; "no blossom holds the node"),
            Some(blossom) => {
                expect(rt, "room of a blossom", blossom < room);
                expect(rt, "a blossom", !arena.is_leaf(blossom));
                expect(
                    rt,
                    "child that holds the leaf",
                    arena.child(blossom, leaf) == node,
                );
                read_cycle(rt, arena, blossom, ring);
                node = blossom;
            }
        }
    }
    expect(rt, "parent of the top", arena.parent(node) == None);
    expect(rt, "top", arena.top(leaf) == node);
    expect(rt, "total", arena.total(leaf) == total);
}

// Makes one change.
fn apply<L: Ledger, R: Abort>(
    rt: &R,
    arena: &mut Arena,
    k: u32,
    change: Change,
    steps: &mut Steps<L>,
)
    requires { leaf_count arena.old ≡ k }
    ensures { leaf_count arena.new ≡ k }
{
    match change {
        Change::Shrink(ring) => {
            expect(rt, "first leaf", ring.from[0] < k);
            let first = arena.top(ring.from[0]);
            let name = shrink_ring(rt, arena, k, ring, steps);
            expect_blossom(rt, arena, k, &ring.from, name, first);
        }
        Change::Expand(leaf, leaves) => {
            let first = expand_top(rt, arena, k, leaf, steps);
            expect_tops(rt, arena, k, leaves, first);
        }
        _ => change_duals(rt, arena, k, change, steps),
    }
}

// A change, and what is read after it: the total of each leaf, and the cycles that hold the leaves 0 to 2, 3 to 5
// and 6 to 8, the innermost first.
struct Row {
    change: Change,
    totals: [i64; 9],
    cycles: [&'static [Ring]; 3],
}

// Changes of so many leaves, one after another.
static RUNS: [(u32, &[Row]); 4] = [
    // Three leaves come under one top, and are their own tops again.
    (
        3,
        &[
            Row {
                change: Change::Shrink(A),
                totals: [0, 0, 0, 0, 0, 0, 0, 0, 0],
                cycles: [&[A], &[], &[]],
            },
            Row {
                change: Change::Expand(0, &[0]),
                totals: [0, 0, 0, 0, 0, 0, 0, 0, 0],
                cycles: [&[], &[], &[]],
            },
        ],
    ),
    // A blossom inside a blossom, and the outer one expanded.
    (
        5,
        &[
            Row {
                change: Change::Shrink(A),
                totals: [0, 0, 0, 0, 0, 0, 0, 0, 0],
                cycles: [&[A], &[], &[]],
            },
            Row {
                change: Change::Shrink(OUTER),
                totals: [0, 0, 0, 0, 0, 0, 0, 0, 0],
                cycles: [&[A, OUTER], &[OUTER], &[]],
            },
            Row {
                change: Change::Expand(4, &[0, 1, 2]),
                totals: [0, 0, 0, 0, 0, 0, 0, 0, 0],
                cycles: [&[A], &[], &[]],
            },
        ],
    ),
    // One leaf as outer, then another as outer and the first as inner.
    (
        3,
        &[
            Row {
                change: Change::Lift(0, 2),
                totals: [2, 0, 0, 0, 0, 0, 0, 0, 0],
                cycles: [&[], &[], &[]],
            },
            Row {
                change: Change::Shift(1, 0, 1),
                totals: [1, 1, 0, 0, 0, 0, 0, 0, 0],
                cycles: [&[], &[], &[]],
            },
        ],
    ),
    // Three levels of nine leaves are built, raised, lowered and taken down again, and names are used twice.
    (
        9,
        &[
            Row {
                change: Change::Lift(0, 5),
                totals: [5, 0, 0, 0, 0, 0, 0, 0, 0],
                cycles: [&[], &[], &[]],
            },
            Row {
                change: Change::Lift(3, 4),
                totals: [5, 0, 0, 4, 0, 0, 0, 0, 0],
                cycles: [&[], &[], &[]],
            },
            Row {
                change: Change::Shrink(A),
                totals: [5, 0, 0, 4, 0, 0, 0, 0, 0],
                cycles: [&[A], &[], &[]],
            },
            Row {
                change: Change::Shift(1, 3, 2),
                totals: [7, 2, 2, 2, 0, 0, 0, 0, 0],
                cycles: [&[A], &[], &[]],
            },
            Row {
                change: Change::Shrink(B),
                totals: [7, 2, 2, 2, 0, 0, 0, 0, 0],
                cycles: [&[A], &[B], &[]],
            },
            Row {
                change: Change::Shrink(C),
                totals: [7, 2, 2, 2, 0, 0, 0, 0, 0],
                cycles: [&[A], &[B], &[C]],
            },
            Row {
                change: Change::Lift(8, 3),
                totals: [7, 2, 2, 2, 0, 0, 3, 3, 3],
                cycles: [&[A], &[B], &[C]],
            },
            Row {
                change: Change::Shrink(ALL),
                totals: [7, 2, 2, 2, 0, 0, 3, 3, 3],
                cycles: [&[A, ALL], &[B, ALL], &[C, ALL]],
            },
            Row {
                change: Change::Lift(4, 7),
                totals: [14, 9, 9, 9, 7, 7, 10, 10, 10],
                cycles: [&[A, ALL], &[B, ALL], &[C, ALL]],
            },
            Row {
                change: Change::Lower(6, 7),
                totals: [7, 2, 2, 2, 0, 0, 3, 3, 3],
                cycles: [&[A, ALL], &[B, ALL], &[C, ALL]],
            },
            Row {
                change: Change::Expand(2, &[0, 1, 2]),
                totals: [7, 2, 2, 2, 0, 0, 3, 3, 3],
                cycles: [&[A], &[B], &[C]],
            },
            Row {
                change: Change::Lower(0, 2),
                totals: [5, 0, 0, 2, 0, 0, 3, 3, 3],
                cycles: [&[A], &[B], &[C]],
            },
            Row {
                change: Change::Expand(1, &[0]),
                totals: [5, 0, 0, 2, 0, 0, 3, 3, 3],
                cycles: [&[], &[B], &[C]],
            },
            Row {
                change: Change::Shift(5, 7, 3),
                totals: [5, 0, 0, 5, 3, 3, 0, 0, 0],
                cycles: [&[], &[B], &[C]],
            },
            Row {
                change: Change::Expand(6, &[6]),
                totals: [5, 0, 0, 5, 3, 3, 0, 0, 0],
                cycles: [&[], &[B], &[]],
            },
            Row {
                change: Change::Shrink(A),
                totals: [5, 0, 0, 5, 3, 3, 0, 0, 0],
                cycles: [&[A], &[B], &[]],
            },
            Row {
                change: Change::Shrink(C),
                totals: [5, 0, 0, 5, 3, 3, 0, 0, 0],
                cycles: [&[A], &[B], &[C]],
            },
        ],
    ),
];

// Reads every leaf.
fn read_row<R: Abort>(rt: &R, arena: &Arena, k: u32, row: &Row)
    requires { leaf_count arena.now ≡ k }
{
    expect(rt, "few leaves", k <= 9);
    for leaf in 0..k {
        let total = row.totals[leaf as usize];
        let rings = row.cycles[leaf as usize / 3];
        read_leaf(rt, arena, leaf, total, rings);
    }
}

// Makes the changes of a run, and reads every leaf after each.
fn expect_run<L: Ledger, R: Abort>(
    rt: &R,
    alloc: Global,
    k: u32,
    rows: &[Row],
    steps: &mut Steps<L>,
) -> Result<(), NoMemory> {
    expect(rt, "few leaves", k <= 9);
    let mut arena = Arena::open(alloc, k)?;
    let room = arena.room();
    for row in rows {
        apply(rt, &mut arena, k, row.change, steps);
        read_row(rt, &arena, k, row);
        expect(rt, "room", arena.room() == room);
    }
    Ok(())
}

// Makes all runs.
fn expect_all<L: Ledger, R: Abort>(rt: &R, alloc: Global, blank: Blank) -> Result<(), NoMemory>
    requires name { blank.name ≡ L.name }
    requires parts { blank.parts ≡ L.parts }
    requires some { 0 < L.parts }
{
    let mut steps = Steps::<L>::new(blank);
    for (k, rows) in &RUNS {
        expect_run(rt, alloc, *k, rows, &mut steps)?;
    }
    Ok(())
}

#[test]
fn leaves_are_read_after_each_change(rt: HostRuntime) -> Result<(), NoMemory> {
    expect_all::<Brand, HostRuntime>(&rt, rt.alloc(), Blank::new(1))
}
