// Taxicab distances to S by sweeps, up and down along each axis, slab by slab. Along x a layer is transposed first.
#![tactic(auto)]

ghost use Rattle.std.specs.Prelude.{◌≡◌, true, List, ℕ, ◌*◌, ◌≤◌, ◌<◌, length, slice_index, EachIndex};
ghost use Rattle.sweeps.specs.Sweep.{Slab, Both};
ghost use Rattle.distances.specs.Work.{Seeded, Measured};

use rules::Sides;

// Whether the distances are all the same: without a branch, so that a compiler looks at many at a time.
fn level(d: &[u8]) -> bool
    requires { 0 < length d.now }
    ensures { result ≡ true → EachIndex d.now (λ k. slice_index d.now k ≡ slice_index d.now 0) }
{
    let first = d[0];
    d.iter().fold(true, |level, v| level & (*v == first))
}

// Sweeps st rows of m voxels up and down: transposed, they are a slab, whose lines do not wait for one another. In a layer without a voxel of S all
// distances are the same, and there is nothing to sweep.
fn rows(d: &mut [u8], at: usize, st: usize, m: usize)
    requires { Slab d.old st m at × (m * st ≤ 4096) }
    ensures { Both true st m at d.old d.new }
{
    if !level(&d[at..at + m * st]) {
        let mut layer = [0u8; 4096];
        transposing::transpose(d, at, st, m, &mut layer, 0);
        sweeps::both(&mut layer, 0, st, m);
        transposing::transpose(&layer, 0, m, st, d, at);
    }
}

// Puts the taxicab distance to S in place of 0 at S and a number beyond all distances elsewhere.
pub fn measure(d: &mut [u8], sides: Sides)
    requires { (S : List ℕ) × Seeded sides S d.old }
    ensures { (S : List ℕ) → Seeded sides S d.old → Measured sides S d.new }
{
    let Sides { a, b, c } = sides;
    let ab = a * b;
    for z in 0..c {
        rows(d, z * ab, b, a);
    }
    for z in 0..c {
        sweeps::both(d, z * ab, a, b);
    }
    sweeps::both(d, 0, ab, c);
}
