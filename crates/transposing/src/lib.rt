// A layer of bytes transposed: its columns as rows. A pass along rows, in which each byte waits for the one before it, is then one along columns, which a
// compiler does many bytes at a time.
#![tactic(auto)]

ghost use Rattle.std.specs.Prelude.{◌≡◌, ℕ, ◌*◌, ◌<◌, length, slice_index, EachIndex};
ghost use Rattle.transposing.specs.Transposed.{Transposable, Transposed};

// Puts every step-th byte of `from` side by side.
fn gather(from: &[u8], step: usize, to: &mut [u8])
    requires { (k : ℕ) → k < length to.old → k * step < length from.now }
    ensures { EachIndex to.new (λ k. slice_index to.new k ≡ slice_index from.now (k * step)) }
{
    for (k, v) in to.iter_mut().enumerate() {
        *v = from[k * step];
    }
}

// Puts the columns of a layer, which has so many rows of m bytes from `at` on, one after the other, from first on.
pub fn transpose(from: &[u8], at: usize, rows: usize, m: usize, to: &mut [u8], first: usize)
    requires { Transposable (length from.now) at rows m (length to.old) first }
    ensures { Transposed from.now at rows m m first to.old to.new }
{
    for j in 0..m {
        let start = first + j * rows;
        gather(&from[at + j..], m, &mut to[start..start + rows]);
    }
}
