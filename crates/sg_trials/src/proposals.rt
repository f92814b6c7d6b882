// What is proposed for minimum T-joins, and whether the judges accept it.

ghost use Rattle.sg_graph.specs.Join.{AreTerminals};

use super::facts::expect;
use sg_dual::dual;
use sg_graph::{Terminals, Web};
use sg_join_check::{Proposal, proves_least};
use sg_nest::proves;
use sg_planar::Planar;
use sg_regions::{NestProposal, propose, propose_again, propose_nest, propose_nest_again};
use std::alloc::{AllocError, Global};
use std::process::Abort;

// Whether there is a proposal and its cuts prove it.
fn has_good_cuts(
    alloc: Global,
    web: &Web,
    terminals: &Terminals,
    proposal: Option<Proposal>,
) -> Result<bool, AllocError>
    requires { AreTerminals web.now terminals.now }
{
    match proposal {
        Some(proposal) => proves_least(alloc, web, terminals, &proposal),
        None => Ok(false),
    }
}

// The same of the first proposal, and of the retry.
fn are_good_cuts(
    alloc: Global,
    web: &Web,
    terminals: &Terminals,
    is_again: bool,
) -> Result<bool, AllocError>
    requires { AreTerminals web.now terminals.now }
{
    let grown = if is_again {
        propose_again(alloc, web, terminals)
    } else {
        propose(alloc, web, terminals)
    };
    has_good_cuts(alloc, web, terminals, grown?.found)
}

// Whether there is a proposal and its nest proves it.
fn has_good_nest(
    alloc: Global,
    web: &Web,
    terminals: &Terminals,
    proposal: Option<NestProposal>,
) -> Result<bool, AllocError>
    requires { AreTerminals web.now terminals.now }
{
    match proposal {
        Some(proposal) => proves(alloc, web, terminals, &proposal.edges, &proposal.nest),
        None => Ok(false),
    }
}

// The same of the first proposal, and of the retry.
fn is_good_nest(
    alloc: Global,
    web: &Web,
    terminals: &Terminals,
    is_again: bool,
) -> Result<bool, AllocError>
    requires { AreTerminals web.now terminals.now }
{
    let grown = if is_again {
        propose_nest_again(alloc, web, terminals)
    } else {
        propose_nest(alloc, web, terminals)
    };
    has_good_nest(alloc, web, terminals, grown?.found)
}

// Whether there is such a proposal, of cuts or of a nest, and a judge accepts it.
fn is_good(
    alloc: Global,
    web: &Web,
    terminals: &Terminals,
    is_nest: bool,
    is_again: bool,
) -> Result<bool, AllocError>
    requires { AreTerminals web.now terminals.now }
{
    if is_nest {
        is_good_nest(alloc, web, terminals, is_again)
    } else {
        are_good_cuts(alloc, web, terminals, is_again)
    }
}

// A proposal must be good.
fn assert_proved(rt: &impl Abort, which: &str, about: &str, is_good: bool) {
    assert!(rt; is_good, "{which}: {about}");
}

// The proposals: whether each is of a nest, and whether it is the retry.
static PROPOSALS: [(&str, bool, bool); 4] = [
    ("the first", false, false),
    ("the second", false, true),
    ("the first nest", true, false),
    ("the second nest", true, true),
];

/// Both the first proposal and the retry must exist and be good; else `least_join` would fall back on
/// the matching each time, and nobody would notice.
pub fn assert_good(
    rt: &impl Abort,
    alloc: Global,
    web: &Web,
    terminals: &Terminals,
    about: &str,
) -> Result<(), AllocError>
    requires { AreTerminals web.now terminals.now }
{
    for (which, is_nest, is_again) in &PROPOSALS {
        let is_proved = is_good(alloc, web, terminals, *is_nest, *is_again)?;
        assert_proved(rt, which, about, is_proved);
    }
    Ok(())
}

/// The same for the dual of an instance.
pub fn assert_proposed(
    rt: &impl Abort,
    alloc: Global,
    planar: &Planar,
    about: &str,
) -> Result<(), AllocError> {
    let faces = planar.faces();
    expect(rt, "number of faces", faces.count() <= 1 << 24);
    let (web, terminals) = dual(alloc, planar.instance(), faces)?;
    assert_good(rt, alloc, &web, &terminals, about)
}
