ghost use Rattle.std.specs.Prelude.{Bool, ◌≡◌, ◌≢◌, ◌<◌, ◌≤◌, [], ◌^◌, List, true, None, Some, length, map, IfOk, IfErr, OnOk};
ghost use Rattle.sg_base.specs.Limits.{bond_limit};
ghost use Rattle.sg_model.specs.Ising.{IsBond};
ghost use Rattle.sg_model.specs.WellFormed.{IsInstance};
ghost use Rattle.sg_reader.specs.declared.header.Header.TheVariants as header;
ghost use Rattle.sg_reader.specs.Kept.{Kept};
ghost use Rattle.sg_reader.specs.Tests.{field_fault, size_in, spin_below};
ghost use Rattle.sg_reader.specs.Body.{bond_fault, bond_of, ends_fault, general_fault, given_darts, instance_of, says_bond, says_rot, says_seam, rot_fault};
ghost use Rattle.sg_reader.specs.ReadInstance.{HoldsGeneral, ReadsBody, RefusesBody};
ghost use Rattle.sg_reader.specs.Ended.{Fails, HoldsSome, RefusesNext, TakesNext};
ghost use Rattle.sg_model.specs.Faults.{IsRefusalOf, OrNoMemory};

use super::NoMemory;
use super::body::{Link, SEAM, indices, list_once, read_link};
use super::ended::{Gather, read_to_end};
use super::range::Range;
use super::row::Row;
use super::rows::Rows;
use sg_base::Records;
use sg_draft::{Limits, check_bond_count};
use sg_model::{Bond, BondList, Bonds, DartList, Fault, Instance, Refusal, Rotation};
use std::alloc::Global;

const BOND: &[u8] = b"bond";

const ROT: &[u8] = b"rot";

/// What the records of a general instance have given so far, of each spin its darts.
#[derive(Drop)]
pub(crate) struct GeneralBody {
    n: u32,
    bonds: Bonds,
    rotation: Records<Option<DartList>>,
    seam: Option<BondList>,
}

// The tests of bond `m` between two spins: there is room for it, and its ends differ.
fn check_ends(u: u32, v: u32, m: usize) -> Result<(), Refusal>
    requires { m ≤ bond_limit }
    ensures passes { OnOk result (ends_fault u v m ≡ None) }
    ensures room { OnOk result (m < bond_limit) }
    ensures differ { OnOk result (u ≢ v) }
    ensures refused { IfErr result (λ e. ends_fault u v m ≡ Some e) }
{
    check_bond_count(Limits::of_program(), m + 1)?;
    if u == v {
        return Err(Refusal::SelfBond { bond: m as u32 });
    }
    Ok(())
}

// The bond of a record `bond,U,V,J`, where `m` bonds stand before it.
fn read_bond(row: &Row, n: u32, m: usize) -> Result<Bond, Refusal>
    requires some { 1 ≤ n }
    requires few { m ≤ bond_limit }
    ensures passes { IfOk result (λ b. bond_fault n m row.now ≡ None) }
    ensures value { IfOk result (λ b. b ≡ bond_of row.now) }
    ensures sound { IfOk result (IsBond n) }
    ensures room { IfOk result (λ b. m < bond_limit) }
    ensures refused { IfErr result (λ e. bond_fault n m row.now ≡ Some e) }
{
    let Link { u, v, value } = read_link(row, n, Range::any_number())?;
    check_ends(u, v, m)?;
    Ok(Bond { u, v, j: value })
}

// The spin of a record `rot,I,D,..`.
fn rot_spin(row: &Row, n: u32) -> Result<u32, Refusal>
    requires some { 1 ≤ n }
    requires inside { 1 ≤ length row.now.fields }
    ensures count { IfOk result (λ i. 2 ≤ length row.now.fields) }
    ensures value { IfOk result (λ i. i ≡ size_in row.now 1) }
    ensures below { IfOk result (λ i. i < n) }
    ensures passes { IfOk result (λ i. field_fault (spin_below n) 1 row.now ≡ None) }
    ensures refused { IfErr result (λ e. (seen : Bool) → rot_fault n seen row.now ≡ Some e) }
{
    if row.len() == 1 {
        return Err(Refusal::BadShape { at: row.at() });
    }
    let spin = row.size(1, Range::spin_below(n))?;
    Ok(spin as u32)
}

impl GeneralBody {
    // Nothing was given yet.
    fn new(alloc: Global, n: u32) -> Result<Self, NoMemory>
        requires { 1 ≤ n }
        ensures value { IfOk result (λ s. s.n ≡ n) }
        ensures holds { IfOk result (λ s. HoldsGeneral s [] s) }
    {
        let mut rotation = Records::new(alloc);
        for _spin in 0..n {
            rotation.push(None)?;
        }
        Ok(GeneralBody {
            n,
            bonds: Bonds::new(alloc),
            rotation,
            seam: None,
        })
    }

    fn take_bond(&mut self, row: &Row) -> Result<(), Fault>
        requires held { HoldsSome HoldsGeneral self.old }
        requires word { says_bond row.now ≡ true }
        ensures taken { OnOk result (TakesNext (λ s. general_fault s.n) HoldsGeneral self.old row.now self.new) }
        ensures fault { IfErr result (RefusesNext (λ s. general_fault s.n) HoldsGeneral self.old row.now) }
    {
        let bond = read_bond(row, self.n, self.bonds.len())?;
        self.bonds.push(bond)?;
        Ok(())
    }

    fn take_rot(&mut self, alloc: Global, row: &Row) -> Result<(), Fault>
        requires held { HoldsSome HoldsGeneral self.old }
        requires word { says_rot row.now ≡ true }
        ensures taken { OnOk result (TakesNext (λ s. general_fault s.n) HoldsGeneral self.old row.now self.new) }
        ensures fault { IfErr result (RefusesNext (λ s. general_fault s.n) HoldsGeneral self.old row.now) }
    {
        let spin = rot_spin(row, self.n)?;
        let darts = indices(alloc, row, 2)?;
        if self.rotation.at(spin as usize).is_some() {
            return Err(Fault::Refused(Refusal::BadShape { at: row.at() }));
        }
        self.rotation.set(spin as usize, Some(darts));
        Ok(())
    }

    fn take_seam(&mut self, alloc: Global, row: &Row) -> Result<(), Fault>
        requires { says_seam row.now ≡ true }
        ensures taken { OnOk result (TakesNext (λ s. general_fault s.n) HoldsGeneral self.old row.now self.new) }
        ensures fault { IfErr result (RefusesNext (λ s. general_fault s.n) HoldsGeneral self.old row.now) }
    {
        let bonds = list_once(alloc, row, self.seam.is_some())?;
        self.seam = Some(bonds);
        Ok(())
    }

    // The instance, once all records were taken.
    fn instance(self, alloc: Global) -> Result<Instance, Fault>
        requires small { self.n ≤ 2 ^ 24 }
        requires held { HoldsSome HoldsGeneral self }
        ensures ok { IfOk result (λ inst. (start : _) (body : List Kept) → HoldsGeneral start body self
            → inst ≡ instance_of (header.General start.n) body) }
        ensures instance { IfOk result IsInstance }
        ensures fault { IfErr result (λ e. (start : _) (body : List Kept) → HoldsGeneral start body self
            → OrNoMemory (IsRefusalOf (instance_of (header.General start.n) body)) e) }
    {
        let seam = self.seam.unwrap_or(BondList::new(alloc));
        let rotation = laid_out(alloc, self.rotation.as_slice())?;
        Instance::new(alloc, self.n, self.bonds, rotation, seam)
    }
}

impl Gather for GeneralBody {
    ghost tests = { λ start. general_fault start.n };

    ghost holds = { HoldsGeneral };

    fn take(&mut self, alloc: Global, row: &Row) -> Result<(), Fault> {
        if row.begins(BOND) {
            self.take_bond(row)
        } else if row.begins(ROT) {
            self.take_rot(alloc, row)
        } else if row.begins(SEAM) {
            self.take_seam(alloc, row)
        } else {
            Err(Fault::Refused(Refusal::UnknownKind { at: row.at() }))
        }
    }
}

// The lists of darts, one behind another, with an empty one for each spin without darts.
fn laid_out(alloc: Global, lists: &[Option<DartList>]) -> Result<Rotation, NoMemory>
    ensures { IfOk result (λ rotation. rotation ≡ map given_darts lists.now) }
{
    let mut rotation = Rotation::new(alloc);
    for list in lists {
        rotation.push(darts_of(list))?;
    }
    Ok(rotation)
}

// The darts of a spin, none where they were not given.
fn darts_of(list: &Option<DartList>) -> &[u32]
    ensures { result.now ≡ given_darts list.now }
{
    match list {
        Some(darts) => darts.as_slice(),
        None => &[],
    }
}

/// Reads the records of a general instance of `n` spins behind the first, up to its `end`, and gives
/// the instance.
///
/// # Errors
/// The first test that a record fails, `UnknownKind` for a record of no kind, `BadRotation` and
/// `BadSeam` at the `end`; `Unended` where the records run out.
pub(crate) fn read_general(
    alloc: Global,
    records: &mut Rows<'_>,
    row: &mut Row,
    n: u32,
) -> Result<Instance, Fault>
    requires some { 1 ≤ n }
    requires small { n ≤ 2 ^ 24 }
    ensures read { IfOk result (λ inst. ReadsBody (header.General n) records.old inst records.new) }
    ensures instance { IfOk result IsInstance }
    ensures fault { IfErr result (Fails (RefusesBody (header.General n) records.old) records.old records.new) }
{
    let mut body = GeneralBody::new(alloc, n)?;
    read_to_end(alloc, records, row, &mut body)?;
    row.check_shape(1)?;
    let inst = body.instance(alloc)?;
    Ok(inst)
}
