//! What an input says of an instance before it is judged: its members, the checks on them, and the
//! instance that they give.
//!
//! An instance comes as records, as JSON or as numbers of a caller. Each of these reads its members in
//! its own way: a value, or the entry at which the member is malformed. The checks on them are made
//! here, in one order and with one name each, and so is the instance.
//!
//! A caller reads the members and asks `check_lattice` or `check_general` for the first failed check,
//! which does not allocate; then it makes the lists and passes them to `build_lattice` or
//! `build_general`. The checks are public too, for callers that make them in another order.
//!
//! For the next engineer: `specs/Draft.antt` has the table of checks and the instance;
//! `specs/Members.antt` has the members with the numbers that a refusal prints for them, which are
//! defined only there; `specs/Tests.antt` says how checks follow each other.
#![tactic(auto)]

mod building;
mod checking;
mod entries;
mod law;
mod limits;
mod member;
mod numbers;
mod read;

pub use building::{build_general, build_lattice};
pub use checking::{check_general, check_lattice};
pub use entries::{check_entry, check_list, is_among, is_coupling};
pub use law::drafts_have_one_answer;
pub use limits::Limits;
pub use member::{Member, bad_entry, bad_member};
pub use numbers::{
    Size, check_bond_count, check_coupling_count, check_lattice_size, check_spin_count, check_spins,
};
pub use read::{Read, unless};
