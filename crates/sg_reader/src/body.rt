ghost use Rattle.std.specs.Prelude.{◌≡◌, ◌<◌, ◌≤◌, ◌≤ℤ◌, ◌++◌, length, None, Some, IfOk, IfErr, OnOk};
ghost use Rattle.sg_reader.specs.Body.{link_fault, numbers_from, sole_list_fault, sizes_from};
ghost use Rattle.sg_draft.specs.Tests.{Refuses};
ghost use Rattle.sg_reader.specs.Tests.{any_index, any_number, fields_fault, field_fault, number_in, size_in};
ghost use Rattle.sg_model.specs.Faults.{OrNoMemory};

use super::range::Range;
use super::row::Row;
use sg_model::{BondList, Couplings, Fault, Refusal};
use std::alloc::Global;

/// The word that ends an instance, and a result.
pub const END: &[u8] = b"end";

/// The word of a record that gives the seam.
pub(crate) const SEAM: &[u8] = b"seam";

/// Adds the couplings of a record, which are all its fields.
pub(crate) fn push_couplings(couplings: &mut Couplings, row: &Row) -> Result<(), Fault>
    ensures passes { OnOk result (fields_fault (field_fault any_number) 0 row.now ≡ None) }
    ensures added { OnOk result (couplings.new ≡ couplings.old ++ numbers_from row.now 0) }
    ensures fault { IfErr result (OrNoMemory (Refuses (fields_fault (field_fault any_number) 0 row.now))) }
{
    for i in 0..row.len() {
        let coupling = row.number(i, Range::any_number())?;
        couplings.push(coupling)?;
    }
    Ok(())
}

/// The numbers of bonds or darts in the fields of a record from field `from` on.
pub(crate) fn indices(alloc: Global, row: &Row, from: usize) -> Result<BondList, Fault>
    requires { from ≤ length row.now.fields }
    ensures passes { IfOk result (λ l. fields_fault (field_fault any_index) from row.now ≡ None) }
    ensures value { IfOk result (λ l. l ≡ sizes_from row.now from) }
    ensures fault { IfErr result (OrNoMemory (Refuses (fields_fault (field_fault any_index) from row.now))) }
{
    let mut list = BondList::new(alloc);
    for i in from..row.len() {
        let index = row.size(i, Range::any_index())?;
        list.push(index as u32)?;
    }
    Ok(list)
}

/// The numbers behind the word of a record that may appear once.
///
/// # Errors
/// In this order: `BadShape` where one was seen before, and `BadNumber`.
pub fn list_once(alloc: Global, row: &Row, seen: bool) -> Result<BondList, Fault>
    requires { 1 ≤ length row.now.fields }
    ensures passes { IfOk result (λ l. sole_list_fault seen row.now ≡ None) }
    ensures value { IfOk result (λ l. l ≡ sizes_from row.now 1) }
    ensures fault { IfErr result (OrNoMemory (Refuses (sole_list_fault seen row.now))) }
{
    if seen {
        return Err(Fault::Refused(Refusal::BadShape { at: row.at() }));
    }
    indices(alloc, row, 1)
}

/// Two of the spins of an instance, or of the nodes of a graph, and a number.
#[derive(Clone, Copy)]
pub struct Link {
    pub u: u32,
    pub v: u32,
    pub value: i64,
}

/// What a record `WORD,U,V,Z` says: two of `n` spins, and a number of the range.
///
/// # Errors
/// In this order: `BadShape` for another number of fields, and `BadNumber`.
#[tactic(auto, unfolding(crate::specs::Body::link_fault))]
pub fn read_link(row: &Row, n: u32, range: Range) -> Result<Link, Refusal>
    requires { 1 ≤ n }
    ensures passes { IfOk result (λ l. link_fault range n row.now ≡ None) }
    ensures u { IfOk result (λ l. (l.u ≡ size_in row.now 1) × (l.u < n)) }
    ensures v { IfOk result (λ l. (l.v ≡ size_in row.now 2) × (l.v < n)) }
    ensures value { IfOk result (λ l. l.value ≡ number_in row.now 3) }
    ensures bounds { IfOk result (λ l. (range.low ≤ℤ l.value) × (l.value ≤ℤ range.high)) }
    ensures refused { IfErr result (λ e. link_fault range n row.now ≡ Some e) }
{
    row.check_shape(4)?;
    let u = row.size(1, Range::spin_below(n))?;
    let v = row.size(2, Range::spin_below(n))?;
    let value = row.number(3, range)?;
    Ok(Link {
        u: u as u32,
        v: v as u32,
        value,
    })
}
