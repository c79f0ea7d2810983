// The checks of the coarse begin, document 02's CR 10: numbers 1 and 2, those of begin on what is given, and 31.
#![tactic(auto)]

ghost use Rattle.std.specs.Prelude.{◌≡◌, length};
ghost use Rattle.rules.specs.Checks.{first_failing};
ghost use Rattle.rules.specs.Refusals.{number_in};
ghost use Rattle.rules.specs.Fit.{Sized};
ghost use Rattle.marks.specs.Lent.{All};
ghost use Rattle.coarse.specs.Coarse.{FourBuffers, unfit_side, unfit_coarse, coarse_checks};
ghost use Rattle.coarse_checks.specs.Lengths.{Lengths};

use rules::{Refusal, Sides};

// Whether a side is odd, or under 6.
fn unfit_side(n: usize) -> bool
    ensures { result ≡ unfit_side n }
{
    n % 2 == 1 || n < 6
}

// Number 31: an unfit side, or a measured negative voxel closer than 2 to an end of the grid.
fn unfit(sides: Sides, values: &[i32]) -> bool
    requires { Sized sides (length values.now) }
    ensures { result ≡ unfit_coarse sides values.now }
{
    unfit_side(sides.a)
        || unfit_side(sides.b)
        || unfit_side(sides.c)
        || begin_checks::edge_negative(sides, values, 2)
}

// The first check that fails, for buffers of these lengths.
pub fn refusal(
    sides: Sides,
    values: &[i32],
    marks: &[u8],
    all: u8,
    dist: usize,
    status: usize,
    block_dist: usize,
    block_status: usize,
) -> Result<(), Refusal>
    requires { All marks.now all }
    ensures { (l : FourBuffers) → Lengths l dist status block_dist block_status
        → number_in result ≡ first_failing (coarse_checks sides values.now marks.now l) }
{
    if !sizes::fit_sides(sides) {
        return Err(Refusal::Side);
    }
    let n = sizes::voxel_count(sides);
    if dist != n || status != n || block_dist != n / 8 || block_status != n / 8 {
        return Err(Refusal::Length);
    }
    begin_checks::given_refusal(sides, values, marks, all)?;
    if unfit(sides, values) {
        return Err(Refusal::Coarse);
    }
    Ok(())
}
