// Sweeps of distances up and down through a slab. One function with a stride serves all axes.
#![tactic(auto)]

ghost use Rattle.std.specs.Prelude.{true, false};
ghost use Rattle.sweeps.specs.Sweep.{Lowered, Apart, Slab, Swept, Both};

// Lowers the distances of a run of n voxels: each is then at most 1 more than the one as far along the run at `from`.
fn lower(d: &mut [u8], at: usize, from: usize, n: usize)
    requires { Apart d.old at from n }
    ensures { Lowered at from n d.old d.new }
{
    // the two runs are parts of one slice, so that one index goes along both
    for k in 0..n {
        d[at + k] = d[at + k].min(d[from + k] + 1);
    }
}

// Sweeps a slab of m positions with st voxels at each upwards, run by run.
fn up(d: &mut [u8], at: usize, st: usize, m: usize)
    requires { Slab d.old st m at }
    ensures { Swept st m at false d.old d.new }
{
    for q in 1..m {
        let run = at + q * st;
        lower(d, run, run - st, st);
    }
}

// The same downwards.
fn down(d: &mut [u8], at: usize, st: usize, m: usize)
    requires { Slab d.old st m at }
    ensures { Swept st m at true d.old d.new }
{
    for q in (1..m).rev() {
        let from = at + q * st;
        lower(d, from - st, from, st);
    }
}

// Sweeps a slab up and down.
pub fn both(d: &mut [u8], at: usize, st: usize, m: usize)
    requires { Slab d.old st m at }
    ensures { Both false st m at d.old d.new }
{
    up(d, at, st, m);
    down(d, at, st, m);
}
