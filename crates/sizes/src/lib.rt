// The sides of a grid, and how many voxels it has.
#![tactic(auto)]

ghost use Rattle.std.specs.Prelude.{◌≡◌, true, ◌≤◌};
ghost use Rattle.rules.specs.Grid.{fit_side, fit_sides, size};

use rules::Sides;

fn fit_side(n: usize) -> bool
    ensures { result ≡ fit_side n }
{
    (3..=64).contains(&n)
}

pub fn fit_sides(s: Sides) -> bool
    ensures { result ≡ fit_sides s }
{
    fit_side(s.a) && fit_side(s.b) && fit_side(s.c)
}

// n
pub fn voxel_count(s: Sides) -> usize
    requires { fit_sides s ≡ true }
    ensures { (result ≡ size s) × (result ≤ 262144) }
{
    s.a * s.b * s.c
}
