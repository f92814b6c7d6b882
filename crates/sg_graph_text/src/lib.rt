//! Reads weighted graphs from texts: a number of nodes, the edges with their weights, and for T-joins
//! the terminals.
//!
//! `read_graph` gives the graph at the front of a text, or the one refusal that names its first fault;
//! `read_network` reads to the end of the text, and gives the graph if it is connected. A graph has no
//! spins: it is the input of `tjoin` and `postman`. `web_within`, `check_joined` and `list_terminals`
//! are its tests behind the records, also for callers that have numbers and no text.
//!
//! For the next engineer: `specs/Graph.antt` is the table of checks, over the records of `sg_reader`. It
//! says what a text gives and why it is refused, by the rules for records up to an `end` by which
//! results are read too; `specs/Network.antt` has the checks on the whole. In the code `network.rt` and
//! `read.rt` are the way through, `size.rt` reads the first record, `body.rt` those that follow it, and
//! `terminals.rt` tests the entries of the terminals and lists them in rising order.
#![tactic(auto)]

mod body;
mod graph;
mod law;
mod network;
mod read;
mod size;
mod terminals;

pub use graph::GraphText;
pub use law::networks_have_one_answer;
pub use network::{Network, check_joined, read_network, web_within};
pub use read::read_graph;
use std::alloc::AllocError;
pub use terminals::list_terminals;

/// The allocator had no memory left.
pub type NoMemory = AllocError;
