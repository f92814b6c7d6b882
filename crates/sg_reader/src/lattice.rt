ghost use Rattle.std.specs.Prelude.{◌≡◌, [], None, Some, IfOk, IfErr, OnOk};
ghost use Rattle.sg_model.specs.WellFormed.{IsInstance};
ghost use Rattle.sg_lattice.specs.Tables.{IsSize};
ghost use Rattle.sg_reader.specs.declared.header.Header.TheVariants as header;
ghost use Rattle.sg_reader.specs.Body.{lattice_end_fault, lattice_fault};
ghost use Rattle.sg_reader.specs.ReadInstance.{HoldsLattice, ReadsBody, RefusesBody};
ghost use Rattle.sg_reader.specs.Ended.{Fails};

use super::NoMemory;
use super::body::{SEAM, list_once, push_couplings};
use super::ended::{Gather, read_to_end};
use super::row::Row;
use super::rows::Rows;
use sg_draft::{Size, build_lattice, check_coupling_count};
use sg_lattice::{Kind, bond_count};
use sg_model::{BondList, Couplings, Fault, Instance, Refusal};
use std::alloc::Global;

/// What the records of a lattice have given so far; so many couplings are wanted.
#[derive(Drop)]
pub(crate) struct LatticeBody {
    wanted: u32,
    couplings: Couplings,
    seam: Option<BondList>,
}

impl LatticeBody {
    // Nothing was given yet; there is room for the couplings.
    fn new(alloc: Global, wanted: u32) -> Result<Self, NoMemory>
        ensures wanted { IfOk result (λ body. body.wanted ≡ wanted) }
        ensures holds { IfOk result (λ body. HoldsLattice body [] body) }
    {
        let mut couplings = Couplings::new(alloc);
        couplings.reserve(wanted as usize)?;
        Ok(LatticeBody {
            wanted,
            couplings,
            seam: None,
        })
    }
}

impl Gather for LatticeBody {
    ghost tests = { λ start. lattice_fault start.wanted };

    ghost holds = { HoldsLattice };

    fn take(&mut self, alloc: Global, row: &Row) -> Result<(), Fault> {
        if row.begins(SEAM) {
            let bonds = list_once(alloc, row, self.seam.is_some())?;
            self.seam = Some(bonds);
            return Ok(());
        }
        push_couplings(&mut self.couplings, row)?;
        Ok(())
    }
}

// The tests of the record that ends a lattice of `wanted` bonds with the couplings that were found.
fn check_end(row: &Row, found: usize, wanted: u32) -> Result<(), Refusal>
    ensures count { OnOk result (found ≡ wanted) }
    ensures passes { OnOk result (lattice_end_fault wanted found row.now ≡ None) }
    ensures refused { IfErr result (λ e. lattice_end_fault wanted found row.now ≡ Some e) }
{
    row.check_shape(1)?;
    check_coupling_count(found, wanted)?;
    Ok(())
}

/// Reads the records of a lattice behind the first, up to its `end`, and gives the instance.
///
/// # Errors
/// The first test that a record fails: `BadShape`, `BadNumber`, `CouplingCount`, `BadSeam`; `Unended`
/// where the records run out.
pub(crate) fn read_lattice(
    alloc: Global,
    records: &mut Rows<'_>,
    row: &mut Row,
    kind: Kind,
    rows: u32,
    cols: u32,
) -> Result<Instance, Fault>
    requires { IsSize kind rows cols }
    ensures read { IfOk result (λ inst. ReadsBody (header.Lattice kind rows cols) records.old inst records.new) }
    ensures instance { IfOk result IsInstance }
    ensures fault { IfErr result (Fails (RefusesBody (header.Lattice kind rows cols) records.old) records.old records.new) }
{
    let bonds = bond_count(kind, rows, cols);
    let mut body = LatticeBody::new(alloc, bonds)?;
    read_to_end(alloc, records, row, &mut body)?;
    check_end(row, body.couplings.len(), bonds)?;
    let inst = build_lattice(alloc, kind, Size { rows, cols }, body.couplings, body.seam)?;
    Ok(inst)
}
