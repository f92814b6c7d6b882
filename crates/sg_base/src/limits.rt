// The limits of the program and of the library, each once, with its reason.
//
// Contracts cite the numerals of `specs/Limits.antt`, so that no constant of the code can change a
// theorem; the code uses the constants here, and `limits_are_as_stated` shows the two equal.
ghost use Rattle.std.specs.Prelude.{◌≡◌, pos};
ghost use Rattle.sg_base.specs.Limits.{spin_limit, bond_limit, large_spin_limit, large_bond_limit, sum_limit, forced_limit, cost_limit, table_limit, input_limit, text_limit, sample_limit, width_limit, json_limit};

/// The most spins of an instance: a lattice of 45 by 45 fits.
pub const SPIN_LIMIT: u32 = 2048;

/// The most bonds of an instance, three for each spin.
pub const BOND_LIMIT: u32 = 6144;

/// The most spins of a large instance, which the calls of a library take and the program does not: a
/// lattice of 2048 by 2048.
pub const LARGE_SPIN_LIMIT: u32 = 1 << 22;

/// The most bonds of a large instance, three for each spin: with the spins 2^24, as many as a dual graph takes.
pub const LARGE_BOND_LIMIT: u32 = 3 << 22;

/// The largest sum of the couplings' sizes of an instance that is solved, also of a large one.
pub const SUM_LIMIT: i128 = 1 << 44;

/// The largest such sum where one coupling is made larger than all others together, to force its bond.
pub const FORCED_LIMIT: i128 = (1 << 45) + 1;

/// The largest cost of two leaves of the matching: twice a distance, with room to spare.
pub const COST_LIMIT: i64 = 1 << 47;

/// The most bytes of the tables that a matching rests on in a call that takes large instances, 4 GiB: three
/// times what they take at most within the limits of the program.
pub const TABLE_LIMIT: u64 = 1 << 32;

/// The most bytes of an input, 512 MiB.
pub const INPUT_LIMIT: usize = 536_870_912;

/// Every text that is read has fewer bytes, so its records, fields and items are numbered in 32 bits.
pub const TEXT_LIMIT: usize = 1 << 30;

/// The most samples of an ensemble.
pub const SAMPLE_LIMIT: u64 = 1000;

/// The most columns of a study over widths.
pub const WIDTH_LIMIT: u32 = 64;

/// The most bytes of an input that is read as JSON, 64 MiB: as a value it takes some twenty times
/// its bytes.
pub const JSON_LIMIT: usize = 67_108_864;

/// The constants are the numerals of the definitions. It computes nothing.
pub fn limits_are_as_stated()
    ensures spins { SPIN_LIMIT ≡ spin_limit }
    ensures bonds { BOND_LIMIT ≡ bond_limit }
    ensures large_spins { LARGE_SPIN_LIMIT ≡ large_spin_limit }
    ensures large_bonds { LARGE_BOND_LIMIT ≡ large_bond_limit }
    ensures sum { SUM_LIMIT ≡ pos sum_limit }
    ensures forced { FORCED_LIMIT ≡ pos forced_limit }
    ensures cost { COST_LIMIT ≡ pos cost_limit }
    ensures tables { TABLE_LIMIT ≡ table_limit }
    ensures input { INPUT_LIMIT ≡ input_limit }
    ensures text { TEXT_LIMIT ≡ text_limit }
    ensures samples { SAMPLE_LIMIT ≡ sample_limit }
    ensures widths { WIDTH_LIMIT ≡ width_limit }
    ensures json { JSON_LIMIT ≡ json_limit }
{}
