ghost use Rattle.std.specs.Prelude.{◌≡◌, ◌≤◌, None, Some, IfOk, IfErr};
ghost use Rattle.sg_base.specs.Limits.{spin_limit};
ghost use Rattle.sg_reader.specs.Tests.{size_in};
ghost use Rattle.sg_graph_text.specs.Graph.{size_fault};

use sg_draft::{Limits, check_spins};
use sg_model::Refusal;
use sg_reader::{Range, Row};

const GRAPH: &[u8] = b"graph";

/// The number of nodes, in a record `graph,N`.
///
/// # Errors
/// In this order: `UnknownKind` for another word, `BadShape` for another number of fields,
/// `BadNumber`, and `TooManySpins` above the limit.
pub(crate) fn read_size(row: &Row) -> Result<u32, Refusal>
    ensures passes { IfOk result (λ n. size_fault row.now ≡ None) }
    ensures value { IfOk result (λ n. n ≡ size_in row.now 1) }
    ensures some { IfOk result (λ n. 1 ≤ n) }
    ensures few { IfOk result (λ n. n ≤ spin_limit) }
    ensures refused { IfErr result (λ e. size_fault row.now ≡ Some e) }
{
    row.check_word(GRAPH)?;
    row.check_shape(2)?;
    let nodes = row.size(1, Range::at_least(1))?;
    check_spins(Limits::of_program(), u128::from(nodes))?;
    Ok(nodes as u32)
}
