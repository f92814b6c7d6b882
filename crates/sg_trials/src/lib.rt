//! Tests of the parts through their public functions: lists, devices and laws; on instances read from texts, the
//! tables of the lattices, the faces, the dual graph, the components, other couplings, the walk that breaks given
//! bonds, and the plain reference solver; and on drawn instances and graphs, the proposers and the judges.
//!
//! No clause says that there is a proposal and a retry, that the judges accept them, or that a repair proves
//! the state for which it was made: here each must exist and be good. That the energies are least is proved;
//! `tools/lib/rows/least.py` compares them with all assignments.
//!
//! Expected values come from outside the program: drawn and counted by hand.
#![tactic(auto)]

#[cfg(test)]
mod components;
#[cfg(test)]
mod devices;
#[cfg(test)]
mod drawings;
#[cfg(test)]
mod duals;
#[cfg(test)]
mod facts;
#[cfg(test)]
mod graphs;
#[cfg(test)]
mod instances;
#[cfg(test)]
mod lattices;
#[cfg(test)]
mod laws;
#[cfg(test)]
mod lists;
#[cfg(test)]
mod proposals;
#[cfg(test)]
mod second;
#[cfg(test)]
mod slices;
#[cfg(test)]
mod spins;
#[cfg(test)]
mod states;
#[cfg(test)]
mod tables;
#[cfg(test)]
mod texts;
#[cfg(test)]
mod walks;
#[cfg(test)]
mod webs;
