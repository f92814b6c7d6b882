ghost use Rattle.std.specs.Prelude.{◌≡◌, ◌↔◌, ℕ, ◌+◌, ◌-◌, ◌<◌, ◌≤◌, length, pos};
ghost use Rattle.sg_slack.specs.Line.{IsLine};
ghost use Rattle.sg_slack.specs.Slack.{mark_at, total_at};
ghost use Rattle.sg_slack.specs.declared.Mark.TheVariants.{Outer};

use super::costs::{SETS, costs_of};
use super::facts::expect;
use super::slacks::{are_small, slack_of};
use sg_slack::{Costs, Mark, Near, NoMemory, Pair, least_outer_free};
use std::alloc::Global;
use std::process::Abort;
use std::test::Fail;

// The next leaf joins with total 0, and all totals grow by 1.
fn lengthen(near: &mut Near, leaf: u32)
    requires line { IsLine near.old.members leaf }
    requires leaf { leaf < near.old.table.size }
    requires small { leaf ≤ 8 }
    ensures table { near.new.table ≡ near.old.table }
    ensures line { IsLine near.new.members (leaf + 1) }
{
    near.add(leaf, 0);
    near.shift(1);
}

// How many of the members have come since this one.
fn since(count: usize, leaf: usize) -> i64
    requires { count ≤ 8 }
    ensures { result ≡ pos (count - leaf) }
{
    count.saturating_sub(leaf) as i64
}

// The mark of a leaf where those before a place are outer.
fn mark_before(place: usize, leaf: usize) -> Mark
    ensures { (result ≡ Mark.Outer) ↔ (leaf < place) }
{
    if leaf < place {
        Mark::Outer
    } else {
        Mark::Free
    }
}

// The totals and the marks where the leaves before a place are members.
fn fill(place: usize, totals: &mut [i64], marks: &mut [Mark])
    requires place { place ≤ 8 }
    requires counts { length marks.old ≡ length totals.old }
    ensures totals_count { length totals.new ≡ length totals.old }
    ensures marks_count { length marks.new ≡ length marks.old }
    ensures totals { (v : ℕ) → v < length totals.new → total_at totals.new v ≡ pos (place - v) }
    ensures marks { (v : ℕ) → v < length marks.new → (mark_at marks.new v ≡ Outer) ↔ (v < place) }
{
    for v in 0..totals.len() {
        totals[v] = since(place, v);
        marks[v] = mark_before(place, v);
    }
}

// What is kept gives the slack that the scan of all pairs finds.
fn agrees<R: Abort>(
    rt: &R,
    near: &Near,
    place: usize,
    totals: &mut [i64],
    tops: &[usize],
    marks: &mut [Mark],
) -> Option<Pair>
    requires line { IsLine near.now.members place }
    requires within { place ≤ near.now.table.size }
    requires place { place ≤ 8 }
    requires totals { length totals.old ≡ near.now.table.size }
    requires tops { length tops.now ≡ near.now.table.size }
    requires marks { length marks.old ≡ near.now.table.size }
    ensures totals { length totals.new ≡ near.now.table.size }
    ensures marks { length marks.new ≡ near.now.table.size }
{
    fill(place, totals, marks);
    expect(rt, "small costs", are_small(near.costs(), totals));
    let free = near.least(totals, tops, marks);
    let free_scanned = least_outer_free(near.costs(), totals, tops, marks);
    expect(rt, "slack", slack_of(free) == slack_of(free_scanned));
    free
}

// Two leaves at cost 4, of which the first has total 1.
#[test]
fn the_nearest_member_is_found(rt: HostRuntime) -> Result<(), NoMemory> {
    let mut costs = Costs::new(rt.alloc(), 2)?;
    costs.set(0, 1, 4);
    let mut near = Near::open(rt.alloc(), costs)?;
    lengthen(&mut near, 0);
    let mut totals = [0; 2];
    let mut marks = [Mark::Free; 2];
    let found = agrees(&rt, &near, 1, &mut totals, &[7, 8], &mut marks);
    let pair = Pair {
        u: 0,
        v: 1,
        slack: 3,
    };
    expect(&rt, "pair", found == Some(pair));
    Ok(())
}

// The leaves join one after the other. Each is its own top.
fn grows<R: Abort>(rt: &R, alloc: Global, places: &[u32; 8]) -> Result<(), NoMemory> {
    let costs = costs_of(alloc, places)?;
    let mut near = Near::open(alloc, costs)?;
    let mut totals = [0; 8];
    let mut marks = [Mark::Free; 8];
    let tops = [0, 1, 2, 3, 4, 5, 6, 7];
    for leaf in 0..7u32 {
        lengthen(&mut near, leaf);
        agrees(rt, &near, leaf as usize + 1, &mut totals, &tops, &mut marks);
    }
    near.clear();
    agrees(rt, &near, 0, &mut totals, &tops, &mut marks);
    Ok(())
}

#[test]
fn slacks_are_kept_as_they_are_scanned(rt: HostRuntime) -> Result<(), Fail> {
    for (places, _) in &SETS {
        grows(&rt, rt.alloc(), places)?;
    }
    Ok(())
}
