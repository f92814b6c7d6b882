// Proposers: growing regions, and in trials one that proposes nothing.
ghost use Rattle.std.specs.Prelude.{◌≡◌, ◌+◌, ℕ, length, IfOk, IfSome};
ghost use Rattle.sg_regions.specs.Places.{place_count};
ghost use Rattle.sg_regions.specs.Steps.{Accounts, RegionSteps, TakesRuns, no_steps};

use super::layout::Layout;
use super::nest_proposal::propose_over;
use super::{
    Growth, NestProposal, NoMemory, propose, propose_again, propose_nest, propose_nest_again,
};
use sg_graph::{Terminals, Web};
use sg_join_check::Proposal;
use std::alloc::Global;
use std::marker::Model;
use std::snapshot::Snapshot;

/// What is proposed with the edges that may be a minimum T-join.
pub trait Proposed {
    // How many regions it tells of.
    ghost regions: { Self → ℕ };
}

impl Proposed for Proposal {
    ghost regions = { λ _. 0 };
}

impl Proposed for NestProposal {
    ghost regions = { λ p. length p.nest.regions };
}

/// Proposers of minimum T-joins with what is to prove them, of one kind. Nothing is promised of a proposal but
/// the number of steps, which the proposer counts itself.
pub trait Proposer<P: Proposed> {
    // The steps of all runs so far.
    ghost steps: { Self → RegionSteps };

    /// Proposes a minimum T-join of the terminals, or nothing.
    fn propose(
        &mut self,
        alloc: Global,
        web: &Web,
        terminals: &Terminals,
    ) -> Result<Option<P>, NoMemory>
        ensures within { IfOk result
            (λ _. TakesRuns 3 (length terminals.now) (place_count web.now) (steps self.old) (steps self.new)) }
        ensures counted { IfOk result (λ found. IfSome found
            (λ p. Accounts (length terminals.now) (P.regions p) (steps self.old) (steps self.new))) };

    /// Retries in another order, where the first proposal was rejected.
    fn propose_again(
        &mut self,
        alloc: Global,
        web: &Web,
        terminals: &Terminals,
    ) -> Result<Option<P>, NoMemory>
        ensures within { IfOk result
            (λ _. TakesRuns 1 (length terminals.now) (place_count web.now) (steps self.old) (steps self.new)) }
        ensures counted { IfOk result (λ found. IfSome found
            (λ p. Accounts (length terminals.now) (P.regions p) (steps self.old) (steps self.new))) };
}

/// Growing regions, as they propose cuts and nests, with the count of their steps. It takes no bytes.
///
/// Each count remembers the one before it by a snapshot, which has no bytes and shows what it was taken of. So it
/// has no largest number.
#[derive(Drop)]
#[cycle(regions)]
pub struct Regions {
    last: Snapshot<Count>,
}

impl Model for Regions {
    ghost use Rattle.std.specs.Prelude.{ℕ, ◌*◌, ◌+◌};
    ghost use Rattle.std.proofs.Common.{arith};
    ghost use Rattle.sg_regions.specs.Steps.{RegionSteps};

    ghost Value = { RegionSteps };

    ghost view = { λ r. r.last.value };

    ghost size = { λ s. 2 * s.proposals + 1 };

    ghost size_decreases = { λ r h. Prim.grind (arith) };
}

const _: () = prove!(size_of::<Regions>() == 0);

// The steps for a proposal, and those before it, if there are any.
#[derive(Drop)]
#[cycle(regions)]
struct Count {
    before: Option<Snapshot<Regions>>,
    growth: Growth,
}

impl Model for Count {
    ghost use Rattle.std.specs.Prelude.{ℕ, ◌*◌, ◌+◌};
    ghost use Rattle.std.specs.Option.{option_map_or};
    ghost use Rattle.std.proofs.Common.{arith};
    ghost use Rattle.sg_regions.specs.Steps.{RegionSteps};

    ghost Value = { RegionSteps };

    ghost view = { λ c. record { blossoms = option_map_or (λ r. r.value.blossoms) c.before 0 + c.growth.blossoms; events = option_map_or (λ r. r.value.events) c.before 0 + c.growth.events; proposals = option_map_or (λ r. r.value.proposals + 1) c.before 0 } };

    ghost size = { λ s. 2 * s.proposals };

    ghost size_decreases = { λ c h. Prim.grind (arith) };
}

impl Regions {
    /// Before the first proposal.
    pub fn new() -> Regions
        ensures { result ≡ no_steps }
    {
        let count = Count {
            before: None,
            growth: Growth::none(),
        };
        Regions {
            last: Snapshot::of(&count),
        }
    }

    // Counts the steps for a proposal.
    fn count(&mut self, growth: Growth)
        ensures blossoms { self.new.blossoms ≡ self.old.blossoms + growth.blossoms }
        ensures events { self.new.events ≡ self.old.events + growth.events }
    {
        let count = Count {
            before: Some(Snapshot::of(self)),
            growth,
        };
        self.last = Snapshot::of(&count);
    }
}

impl Proposer<Proposal> for Regions {
    ghost steps = { λ r. r };

    fn propose(
        &mut self,
        alloc: Global,
        web: &Web,
        terminals: &Terminals,
    ) -> Result<Option<Proposal>, NoMemory> {
        let grown = propose(alloc, web, terminals)?;
        self.count(grown.growth);
        Ok(grown.found)
    }

    fn propose_again(
        &mut self,
        alloc: Global,
        web: &Web,
        terminals: &Terminals,
    ) -> Result<Option<Proposal>, NoMemory> {
        let grown = propose_again(alloc, web, terminals)?;
        self.count(grown.growth);
        Ok(grown.found)
    }
}

impl Proposer<NestProposal> for Regions {
    ghost steps = { λ r. r };

    fn propose(
        &mut self,
        alloc: Global,
        web: &Web,
        terminals: &Terminals,
    ) -> Result<Option<NestProposal>, NoMemory> {
        let grown = propose_nest(alloc, web, terminals)?;
        self.count(grown.growth);
        Ok(grown.found)
    }

    fn propose_again(
        &mut self,
        alloc: Global,
        web: &Web,
        terminals: &Terminals,
    ) -> Result<Option<NestProposal>, NoMemory> {
        let grown = propose_nest_again(alloc, web, terminals)?;
        self.count(grown.growth);
        Ok(grown.found)
    }
}

/// Growing regions for one list of terminals after another on one graph: what depends on the graph alone is made
/// for the first proposal and kept. On another graph its proposals would be rejected.
#[derive(Drop)]
pub struct KeptRegions {
    counted: Regions,
    layout: Option<Layout>,
}

impl KeptRegions {
    /// Before the first proposal.
    pub fn new() -> KeptRegions
        ensures { result.counted ≡ no_steps }
    {
        KeptRegions {
            counted: Regions::new(),
            layout: None,
        }
    }
}

impl Proposer<NestProposal> for KeptRegions {
    ghost steps = { λ r. r.counted };

    fn propose(
        &mut self,
        alloc: Global,
        web: &Web,
        terminals: &Terminals,
    ) -> Result<Option<NestProposal>, NoMemory> {
        let mut layout = match self.layout.take() {
            Some(layout) => layout,
            None => Layout::kept(alloc, web)?,
        };
        let grown = propose_over(alloc, web, terminals, &mut layout)?;
        self.layout = Some(layout);
        self.counted.count(grown.growth);
        Ok(grown.found)
    }

    fn propose_again(
        &mut self,
        alloc: Global,
        web: &Web,
        terminals: &Terminals,
    ) -> Result<Option<NestProposal>, NoMemory> {
        let grown = propose_nest_again(alloc, web, terminals)?;
        self.counted.count(grown.growth);
        Ok(grown.found)
    }
}
