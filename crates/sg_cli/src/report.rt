// What `report` answers.
ghost use Rattle.std.specs.Prelude.{IfOk};
ghost use Rattle.sg_planar.specs.Fit.{IsFit};
ghost use Rattle.sg_report.specs.Exit.{IsReply};
ghost use Rattle.sg_cli.specs.Served.{IsSeamWall, PrintsReport};

use sg_bonds::{clusters_by, costs};
use sg_ground::solve;
use sg_planar::Planar;
use sg_report::{NoMemory, Reply, bond_count, done, report_text, size_sum};
use sg_wall::wall;
use std::alloc::Global;

/// A ground state with its proof, the costs, the clusters and the energies of the domain wall.
pub fn report_reply(alloc: Global, planar: &Planar) -> Result<Reply, NoMemory>
    requires { IsFit planar.now.instance }
    ensures served { IfOk result (λ reply. PrintsReport planar.now.instance reply.text.items reply.status) }
    ensures replied { IfOk result (λ reply. IsReply reply.status) }
{
    let instance = planar.instance();
    let answer = solve(alloc, planar)?;
    let cost_list = costs(alloc, planar)?;
    let cluster_list = clusters_by(alloc, instance, cost_list.as_slice())?;
    let energies = seam_wall(alloc, planar)?;
    let text = report_text(
        alloc,
        bond_count(instance),
        size_sum(instance),
        answer.energy,
        &answer.spins,
        &answer.loops,
        cost_list.as_slice(),
        cluster_list.as_slice(),
        energies,
    )?;
    Ok(done(text))
}

// The energies of the domain wall at the seam, or none where the seam is empty.
fn seam_wall(alloc: Global, planar: &Planar) -> Result<Option<[i64; 3]>, NoMemory>
    ensures { IfOk result (IsSeamWall planar.now.instance) }
{
    if planar.instance().seam().is_empty() {
        return Ok(None);
    }
    let found = wall(alloc, planar)?;
    Ok(Some([found.periodic, found.antiperiodic, found.difference]))
}
