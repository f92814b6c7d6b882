// The calls on a general graph by numbers. Beside another status than 0 no result is written, and beside
// another than 1 no line; but the line of a verdict on loops is written beside 0 and 3.
ghost use Rattle.std.specs.Prelude.{◌≡◌, ◌≢◌, ◌⊎◌, ◌<◌, length};
ghost use Rattle.sg_base.specs.Limits.{bond_limit, spin_limit, table_limit};
ghost use Rattle.sg_bonds.specs.Cluster.{AreClusters};
ghost use Rattle.sg_bonds.specs.Cost.{AreCosts};
ghost use Rattle.sg_bonds.specs.Weakened.{WeakenedTablesExceed};
ghost use Rattle.sg_calls.specs.Proofs.{HandsLoops, HandsNest, loop_lists, nest_fault, nest_lists, stated_fault, States};
ghost use Rattle.sg_calls.specs.Crossing.{Shows, TellsRefusal};
ghost use Rattle.sg_calls.specs.Graphs.{Finds, IsFitFault, IsFitGraph, IsFitProofFault, IsGraph, IsProofFault, IsWallFault, numbers};
ghost use Rattle.sg_calls.specs.Grounds.{IsExact, IsGround, IsNested, IsNestVerdict, IsWallAtSeam, Judges};
ghost use Rattle.sg_draft.specs.Limits.{large_limits, program_limits};
ghost use Rattle.sg_ground.specs.Allowance.{TablesExceed};
ghost use Rattle.sg_wall.specs.Wall.{WallTablesExceed};

use sg_calls::{
    Given, GivenLoops, GivenNest, NO_PROOF, Unanswered, clusters_of, code_by, costs_of, fill,
    ground_of, judge, judge_nest, nest_of, refuse, wall_of,
};
use sg_cli::Status;
use std::alloc::Global;

// The numbers of a graph as one. It is a macro, so that proofs see the fields.
macro_rules! given {
    ($n:ident, $ends:ident, $couplings:ident, $starts:ident, $darts:ident, $seam:ident) => {
        Given {
            n: $n,
            ends: $ends,
            couplings: $couplings,
            starts: $starts,
            darts: $darts,
            seam: $seam,
        }
    };
}

/// The least energy, and how many loops prove it, with how many bonds together.
#[repr(C)]
#[derive(Clone, Copy)]
pub struct GroundNumbers {
    pub energy: i64,
    pub loop_count: usize,
    pub bond_count: usize,
}

/// The least energy, and of how many regions over how many faces a nest is that proves it.
#[repr(C)]
#[derive(Clone, Copy)]
pub struct NestNumbers {
    pub energy: i64,
    pub region_count: usize,
    pub face_count: usize,
}

/// The least energy, the least energy with the signs of the seam changed, and the second minus the first.
#[repr(C)]
#[derive(Clone, Copy)]
pub struct WallNumbers {
    pub periodic: i64,
    pub antiperiodic: i64,
    pub difference: i64,
}

/// Finds a ground state of a graph, and the loops that prove it.
#[unsafe(no_mangle)]
pub extern "C" fn ising2d_c_ground(
    alloc: Global,
    n: u32,
    ends: &[u32],
    couplings: &[i64],
    dart_starts: &[usize],
    darts: &[u32],
    seam: &[u32],
    answer: &mut GroundNumbers,
    spins: &mut [i8],
    weights: &mut [i64],
    starts: &mut [usize],
    bonds: &mut [u32],
    line: &mut [u8],
    line_written: &mut usize,
) -> u8
    ensures found { result ≡ 0 → Finds (IsFitGraph large_limits (numbers n ends.now couplings.now dart_starts.now darts.now seam.now)) (λ inst. IsGround inst answer.new.energy (λ s loops. Shows s spins.old spins.new
        × HandsLoops loops (loop_lists weights.old starts.old bonds.old) (loop_lists weights.new starts.new bonds.new) answer.new.loop_count answer.new.bond_count)) }
    ensures refused { result ≡ 1 → TellsRefusal (IsFitFault large_limits (numbers n ends.now couplings.now dart_starts.now darts.now seam.now)) line.old line.new line_written.new }
    ensures too_large { result ≡ 5 → Finds (IsFitGraph large_limits (numbers n ends.now couplings.now dart_starts.now darts.now seam.now)) (TablesExceed table_limit) }
    ensures large { result ≡ 5 → (spin_limit < n) ⊎ (bond_limit < length couplings.now) }
    ensures codes { (result ≡ 0) ⊎ ((result ≡ 1) ⊎ ((result ≡ 5) ⊎ (result ≡ 6))) }
    ensures kept { result ≢ 0 → (answer.new ≡ answer.old) × (spins.new ≡ spins.old) × (weights.new ≡ weights.old) × (starts.new ≡ starts.old) × (bonds.new ≡ bonds.old) }
    ensures kept_line { result ≢ 1 → (line.new ≡ line.old) × (line_written.new ≡ line_written.old) }
{
    let given = given!(n, ends, couplings, dart_starts, darts, seam);
    match ground_of(alloc, &given) {
        Ok((found, rows)) => {
            *answer = GroundNumbers {
                energy: found.energy,
                loop_count: rows.weights.len(),
                bond_count: rows.bonds.len(),
            };
            fill(found.spins.as_slice(), spins);
            fill(rows.weights.as_slice(), weights);
            fill(rows.starts.as_slice(), starts);
            fill(rows.bonds.as_slice(), bonds);
            Status::Done.exit_code()
        }
        Err(Unanswered::Fault(fault)) => refuse(alloc, &fault, line, line_written),
        Err(Unanswered::TablesTooLarge) => NO_PROOF,
    }
}

/// Finds a ground state of a graph, and a nest of regions over its faces that proves it.
#[unsafe(no_mangle)]
pub extern "C" fn ising2d_c_nest(
    alloc: Global,
    n: u32,
    ends: &[u32],
    couplings: &[i64],
    dart_starts: &[usize],
    darts: &[u32],
    seam: &[u32],
    answer: &mut NestNumbers,
    spins: &mut [i8],
    parents: &mut [u32],
    radii: &mut [u64],
    regions: &mut [u32],
    at_radii: &mut [u64],
    line: &mut [u8],
    line_written: &mut usize,
) -> u8
    ensures found { result ≡ 0 → Finds (IsFitGraph large_limits (numbers n ends.now couplings.now dart_starts.now darts.now seam.now)) (λ inst. IsNested inst answer.new.energy (λ s nest. Shows s spins.old spins.new
        × HandsNest nest (nest_lists parents.old radii.old regions.old at_radii.old) (nest_lists parents.new radii.new regions.new at_radii.new) answer.new.region_count answer.new.face_count)) }
    ensures refused { result ≡ 1 → TellsRefusal (IsFitFault large_limits (numbers n ends.now couplings.now dart_starts.now darts.now seam.now)) line.old line.new line_written.new }
    ensures too_large { result ≡ 5 → Finds (IsFitGraph large_limits (numbers n ends.now couplings.now dart_starts.now darts.now seam.now)) (TablesExceed table_limit) }
    ensures large { result ≡ 5 → (spin_limit < n) ⊎ (bond_limit < length couplings.now) }
    ensures codes { (result ≡ 0) ⊎ ((result ≡ 1) ⊎ ((result ≡ 5) ⊎ (result ≡ 6))) }
    ensures kept { result ≢ 0 → (answer.new ≡ answer.old) × (spins.new ≡ spins.old) × (parents.new ≡ parents.old) × (radii.new ≡ radii.old)
        × (regions.new ≡ regions.old) × (at_radii.new ≡ at_radii.old) }
    ensures kept_line { result ≢ 1 → (line.new ≡ line.old) × (line_written.new ≡ line_written.old) }
{
    let given = given!(n, ends, couplings, dart_starts, darts, seam);
    match nest_of(alloc, &given) {
        Ok((found, rows)) => {
            *answer = NestNumbers {
                energy: found.energy,
                region_count: rows.parents.len(),
                face_count: rows.regions.len(),
            };
            fill(found.spins.as_slice(), spins);
            fill(rows.parents.as_slice(), parents);
            fill(rows.radii.as_slice(), radii);
            fill(rows.regions.as_slice(), regions);
            fill(rows.at_radii.as_slice(), at_radii);
            Status::Done.exit_code()
        }
        Err(Unanswered::Fault(fault)) => refuse(alloc, &fault, line, line_written),
        Err(Unanswered::TablesTooLarge) => NO_PROOF,
    }
}

/// Finds the energies of the wall at the seam of a graph.
#[unsafe(no_mangle)]
pub extern "C" fn ising2d_c_wall(
    alloc: Global,
    n: u32,
    ends: &[u32],
    couplings: &[i64],
    dart_starts: &[usize],
    darts: &[u32],
    seam: &[u32],
    answer: &mut WallNumbers,
    line: &mut [u8],
    line_written: &mut usize,
) -> u8
    ensures found { result ≡ 0 → Finds (IsFitGraph large_limits (numbers n ends.now couplings.now dart_starts.now darts.now seam.now)) (λ inst. IsWallAtSeam inst answer.new.periodic answer.new.antiperiodic answer.new.difference) }
    ensures refused { result ≡ 1 → TellsRefusal (IsWallFault large_limits (numbers n ends.now couplings.now dart_starts.now darts.now seam.now)) line.old line.new line_written.new }
    ensures too_large { result ≡ 5 → Finds (IsFitGraph large_limits (numbers n ends.now couplings.now dart_starts.now darts.now seam.now)) (WallTablesExceed table_limit) }
    ensures large { result ≡ 5 → (spin_limit < n) ⊎ (bond_limit < length couplings.now) }
    ensures codes { (result ≡ 0) ⊎ ((result ≡ 1) ⊎ ((result ≡ 5) ⊎ (result ≡ 6))) }
    ensures kept { result ≢ 0 → answer.new ≡ answer.old }
    ensures kept_line { result ≢ 1 → (line.new ≡ line.old) × (line_written.new ≡ line_written.old) }
{
    let given = given!(n, ends, couplings, dart_starts, darts, seam);
    match wall_of(alloc, &given) {
        Ok(found) => {
            *answer = WallNumbers {
                periodic: found.periodic,
                antiperiodic: found.antiperiodic,
                difference: found.difference,
            };
            Status::Done.exit_code()
        }
        Err(Unanswered::Fault(fault)) => refuse(alloc, &fault, line, line_written),
        Err(Unanswered::TablesTooLarge) => NO_PROOF,
    }
}

/// Finds the cost of each bond of a graph.
#[unsafe(no_mangle)]
pub extern "C" fn ising2d_c_bonds(
    alloc: Global,
    n: u32,
    ends: &[u32],
    couplings: &[i64],
    dart_starts: &[usize],
    darts: &[u32],
    seam: &[u32],
    bond_costs: &mut [i64],
    line: &mut [u8],
    line_written: &mut usize,
) -> u8
    ensures found { result ≡ 0 → Finds (IsFitGraph program_limits (numbers n ends.now couplings.now dart_starts.now darts.now seam.now)) (λ inst. IsExact (AreCosts inst) (λ c. Shows c bond_costs.old bond_costs.new)) }
    ensures refused { result ≡ 1 → TellsRefusal (IsFitFault program_limits (numbers n ends.now couplings.now dart_starts.now darts.now seam.now)) line.old line.new line_written.new }
    ensures codes { (result ≡ 0) ⊎ ((result ≡ 1) ⊎ (result ≡ 6)) }
    ensures kept { result ≢ 0 → bond_costs.new ≡ bond_costs.old }
    ensures kept_line { result ≢ 1 → (line.new ≡ line.old) × (line_written.new ≡ line_written.old) }
{
    let given = given!(n, ends, couplings, dart_starts, darts, seam);
    match costs_of(alloc, &given) {
        Ok(found) => {
            fill(found.as_slice(), bond_costs);
            Status::Done.exit_code()
        }
        Err(fault) => refuse(alloc, &fault, line, line_written),
    }
}

/// Finds the cluster of each spin of a graph.
#[unsafe(no_mangle)]
pub extern "C" fn ising2d_c_clusters(
    alloc: Global,
    n: u32,
    ends: &[u32],
    couplings: &[i64],
    dart_starts: &[usize],
    darts: &[u32],
    seam: &[u32],
    names: &mut [u32],
    line: &mut [u8],
    line_written: &mut usize,
) -> u8
    ensures found { result ≡ 0 → Finds (IsFitGraph large_limits (numbers n ends.now couplings.now dart_starts.now darts.now seam.now)) (λ inst. IsExact (AreClusters inst) (λ c. Shows c names.old names.new)) }
    ensures refused { result ≡ 1 → TellsRefusal (IsFitFault large_limits (numbers n ends.now couplings.now dart_starts.now darts.now seam.now)) line.old line.new line_written.new }
    ensures too_large { result ≡ 5 → Finds (IsFitGraph large_limits (numbers n ends.now couplings.now dart_starts.now darts.now seam.now)) (WeakenedTablesExceed table_limit) }
    ensures large { result ≡ 5 → (spin_limit < n) ⊎ (bond_limit < length couplings.now) }
    ensures codes { (result ≡ 0) ⊎ ((result ≡ 1) ⊎ ((result ≡ 5) ⊎ (result ≡ 6))) }
    ensures kept { result ≢ 0 → names.new ≡ names.old }
    ensures kept_line { result ≢ 1 → (line.new ≡ line.old) × (line_written.new ≡ line_written.old) }
{
    let given = given!(n, ends, couplings, dart_starts, darts, seam);
    match clusters_of(alloc, &given) {
        Ok(found) => {
            fill(found.as_slice(), names);
            Status::Done.exit_code()
        }
        Err(Unanswered::Fault(fault)) => refuse(alloc, &fault, line, line_written),
        Err(Unanswered::TablesTooLarge) => NO_PROOF,
    }
}

/// Judges what is stated as a proof of a least energy of a graph.
#[unsafe(no_mangle)]
pub extern "C" fn ising2d_c_check(
    alloc: Global,
    n: u32,
    ends: &[u32],
    couplings: &[i64],
    dart_starts: &[usize],
    darts: &[u32],
    seam: &[u32],
    energy: i64,
    spins: &[i8],
    weights: &[i64],
    starts: &[usize],
    bonds: &[u32],
    line: &mut [u8],
    line_written: &mut usize,
) -> u8
    ensures found { (result ≡ 0) ⊎ (result ≡ 3) → Finds (IsGraph large_limits (numbers n ends.now couplings.now dart_starts.now darts.now seam.now))
        (Judges (States energy spins.now (loop_lists weights.now starts.now bonds.now)) line.old line.new line_written.new result) }
    ensures refused { result ≡ 1 → TellsRefusal (IsProofFault large_limits (numbers n ends.now couplings.now dart_starts.now darts.now seam.now) (stated_fault spins.now (loop_lists weights.now starts.now bonds.now))) line.old line.new line_written.new }
    ensures codes { (result ≡ 0) ⊎ ((result ≡ 1) ⊎ ((result ≡ 3) ⊎ (result ≡ 6))) }
    ensures kept { result ≡ 6 → (line.new ≡ line.old) × (line_written.new ≡ line_written.old) }
{
    let given = given!(n, ends, couplings, dart_starts, darts, seam);
    let loops = GivenLoops {
        weights,
        starts,
        bonds,
    };
    match judge(alloc, &given, energy, spins, &loops) {
        Ok(found) => {
            *line_written = fill(found.line.as_slice(), line);
            code_by(found.verdict)
        }
        Err(fault) => refuse(alloc, &fault, line, line_written),
    }
}

/// Judges what is stated as a proof of a least energy of a graph by a nest.
#[unsafe(no_mangle)]
pub extern "C" fn ising2d_c_nest_check(
    alloc: Global,
    n: u32,
    ends: &[u32],
    couplings: &[i64],
    dart_starts: &[usize],
    darts: &[u32],
    seam: &[u32],
    energy: i64,
    spins: &[i8],
    parents: &[u32],
    radii: &[u64],
    regions: &[u32],
    at_radii: &[u64],
    line: &mut [u8],
    line_written: &mut usize,
) -> u8
    ensures found { (result ≡ 0) ⊎ (result ≡ 3) → Finds (IsFitGraph large_limits (numbers n ends.now couplings.now dart_starts.now darts.now seam.now))
        (IsNestVerdict spins.now (nest_lists parents.now radii.now regions.now at_radii.now) energy result) }
    ensures refused { result ≡ 1 → TellsRefusal (IsFitProofFault large_limits (numbers n ends.now couplings.now dart_starts.now darts.now seam.now) (nest_fault spins.now (nest_lists parents.now radii.now regions.now at_radii.now))) line.old line.new line_written.new }
    ensures codes { (result ≡ 0) ⊎ ((result ≡ 1) ⊎ ((result ≡ 3) ⊎ (result ≡ 6))) }
    ensures kept_line { result ≢ 1 → (line.new ≡ line.old) × (line_written.new ≡ line_written.old) }
{
    let given = given!(n, ends, couplings, dart_starts, darts, seam);
    let nest = GivenNest {
        parents,
        radii,
        regions,
        at_radii,
    };
    match judge_nest(alloc, &given, energy, spins, &nest) {
        Ok(code) => code,
        Err(fault) => refuse(alloc, &fault, line, line_written),
    }
}
