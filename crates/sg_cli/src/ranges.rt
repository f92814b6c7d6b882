// What `ranges` answers.
ghost use Rattle.std.specs.Prelude.{◌≡◌, map, IfOk};
ghost use Rattle.sg_planar.specs.Fit.{IsFit};
ghost use Rattle.sg_report.specs.Exit.{IsReply};
ghost use Rattle.sg_cli.specs.Served.{PrintsTurns};

use sg_model::Bond;
use sg_planar::Planar;
use sg_ranges::turns;
use sg_report::{NoMemory, Reply, done, ranges_text};
use std::alloc::Global;

/// The turning coupling of each bond, and where its coupling lies.
pub fn ranges_reply(alloc: Global, planar: &Planar) -> Result<Reply, NoMemory>
    requires { IsFit planar.now.instance }
    ensures served { IfOk result (λ reply. PrintsTurns planar.now.instance reply.text.items reply.status) }
    ensures replied { IfOk result (λ reply. IsReply reply.status) }
{
    let found = turns(alloc, planar)?;
    let couplings = couplings(alloc, planar.instance().bonds().as_slice())?;
    let text = ranges_text(alloc, couplings.as_slice(), found.as_slice())?;
    Ok(done(text))
}

// The couplings of bonds.
fn couplings(alloc: Global, bonds: &[Bond]) -> Result<Vec<i64>, NoMemory>
    ensures { IfOk result (λ couplings. couplings.items ≡ map (λ b. b.j) bonds.now) }
{
    let mut couplings = Vec::with_capacity(alloc, bonds.len())?;
    for bond in bonds {
        couplings.push(bond.j)?;
    }
    Ok(couplings)
}
