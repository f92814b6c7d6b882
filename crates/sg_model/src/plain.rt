ghost use Rattle.std.specs.Prelude.{◌≡◌, ◌<◌, ◌≤◌, ◌-◌, ◌*◌, ◌^◌, ◌≤ℤ◌, ℕ, pos, length, IfOk};
ghost use Rattle.sg_model.specs.Spins.{spin};
ghost use Rattle.sg_model.specs.Energy.{energy, IsGroundState};
ghost use Rattle.sg_model.specs.Codes.{coded};

use super::{Instance, NoMemory, Spins};
use std::alloc::Global;

/// A ground state with spin 0 up, and its energy, by trying every assignment with spin 0 up: the
/// reference for each faster solver. The time is 2^(n-1) times the number of bonds. It asks for
/// memory once, for the spins, before the first try; the only error is that there is none.
pub fn least_plain(alloc: Global, inst: &Instance) -> Result<(Spins, i128), NoMemory>
    requires { inst.now.n ≤ 16 }
    ensures least { IfOk result (λ r. IsGroundState inst.now r.0) }
    ensures first_up { IfOk result (λ r. spin r.0 0 ≡ pos 1) }
    ensures energy { IfOk result (λ r. r.1 ≡ energy inst.now r.0) }
{
    let mut spins = Spins::all_up(alloc, inst.n() as usize)?;
    let best = best_half(inst, &mut spins);
    spins.assign(2 * best);
    let least = inst.energy(&spins);
    Ok((spins, least))
}

// The half of an even code with the least energy. An even code is an assignment with spin 0 up.
fn best_half(inst: &Instance, trial: &mut Spins) -> u32
    requires few { inst.now.n ≤ 16 }
    requires count { length trial.old ≡ inst.now.n }
    ensures least { (half : ℕ) → half < 2 ^ (inst.now.n - 1) →
        energy inst.now (coded inst.now.n (2 * result)) ≤ℤ energy inst.now (coded inst.now.n (2 * half)) }
    ensures size { result < 2 ^ 15 }
    ensures count { length trial.new ≡ inst.now.n }
{
    trial.assign(0);
    let mut best = 0;
    let mut least = inst.energy(trial);
    for half in 0..2u32.pow(inst.n() - 1) {
        trial.assign(2 * half);
        let energy = inst.energy(trial);
        if energy < least {
            best = half;
            least = energy;
        }
    }
    best
}
