// The sum of wall energies, and the sum of their squares.
ghost use Rattle.std.specs.Prelude.{◌≡◌, ◌≤◌, ◌*◌, ◌^◌, ◌*ℤ◌, length, All, unsigned_abs};
ghost use Rattle.sg_base.specs.Limits.{sample_limit};
ghost use Rattle.sg_ensemble.specs.Samples.{int_sum, square_sum};

/// The sum of at most 1000 wall energies.
pub fn sum(walls: &[i64]) -> i64
    requires few { length walls.now ≤ sample_limit }
    requires small { All (λ d. unsigned_abs d ≤ 2 ^ 33) walls.now }
    ensures { result ≡ int_sum walls.now }
{
    let mut sum = 0;
    for wall in walls {
        sum += *wall;
    }
    sum
}

/// The sum of the squares of at most 1000 wall energies.
pub fn sum_of_squares(walls: &[i64]) -> i128
    requires few { length walls.now ≤ sample_limit }
    requires small { All (λ d. unsigned_abs d ≤ 2 ^ 33) walls.now }
    ensures { result ≡ square_sum walls.now }
{
    let mut sum: i128 = 0;
    for wall in walls {
        sum += square(*wall);
    }
    sum
}

// The square of a wall energy.
fn square(wall: i64) -> i128
    requires { unsigned_abs wall ≤ 2 ^ 33 }
    ensures value { result ≡ wall *ℤ wall }
    ensures size { unsigned_abs result ≤ 2 ^ 66 }
{
    let wide = i128::from(wall);
    wide * wide
}
