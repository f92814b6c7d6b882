//! Tests of weighted graphs and of what is found in them, through their public functions: tables of
//! distances, shortest walks, minimum T-joins, the cuts of moats, and the judges of T-joins by cuts and
//! by nests. Also of the matching engine, and of the nested blossoms, the slacks and the metrics below it.
//! `tools/lib/rows/graphs.py` has the closed walks over every edge.
//!
//! Expected values come from outside the program: worked by hand, or by trying all walks, all T-joins or
//! all pairings.
#![tactic(auto)]

#[cfg(test)]
mod allowances;
#[cfg(test)]
mod blossoms;
#[cfg(test)]
mod costs;
#[cfg(test)]
mod distances;
#[cfg(test)]
mod facts;
#[cfg(test)]
mod graphs;
#[cfg(test)]
mod joins;
#[cfg(test)]
mod judged;
#[cfg(test)]
mod matching;
#[cfg(test)]
mod metrics;
#[cfg(test)]
mod moats;
#[cfg(test)]
mod near;
#[cfg(test)]
mod nests;
#[cfg(test)]
mod slacks;
#[cfg(test)]
mod webs;
