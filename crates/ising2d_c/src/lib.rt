//! Calls from C: the answers of the library, as the exports of a static library.
//!
//! Tests of an annealer and averages over many samples need a function call, not a process and a text
//! for each instance. `ising2d_c_run` runs the whole program on words and an input in memory. The other
//! functions take a graph as numbers and return numbers: a ground state with the loops that prove it
//! (`ising2d_c_ground`) or with a nest of regions (`ising2d_c_nest`), the energies of the wall at the
//! seam, the cost of each bond, and the rigid clusters. `check` and `nest_check` judge a proof from any
//! source. `ising2d_c_lattice` writes the tables by which a lattice is such a graph. `ising2d_c_join`,
//! `join_check` and `joins` take a weighted graph with terminals, and find minimum T-joins with the nests that
//! prove them, judge one, or find those of many lists of terminals. `ising2d_c_bond_costs` finds the costs of
//! chosen bonds, by bounds of all costs that the caller keeps from call to call, and `ising2d_c_cost_bounds`
//! bounds those of all bonds at once. Functions that
//! compute at most two least energies take larger instances than the program. There they end without an
//! answer (`NO_PROOF`) if no proposal is accepted and the tables of the matching fallback need more than
//! 4 GiB. Any numbers may be passed: if they describe no instance, the function names the first fault by
//! the line that the program prints. It trusts that pointers and lengths are what they say.
//!
//! For the next engineer: what is answered is computed in `sg_calls`, whose `specs/` say what each clause here
//! means; an export takes a caller's numbers to it, and fills the caller's places. A list that does not fit is cut
//! off, so no clause requires room. The header for C and the Python module are in `bindings/`, and tested there.
#![tactic(auto)]

mod bond_costs;
mod calls;
mod cost_bounds;
mod draws;
mod joins;
mod running;
mod tables;
