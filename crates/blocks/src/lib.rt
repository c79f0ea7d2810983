// Blocks of two by two by two voxels, document 02's CR 10: their grid, and their distances, row of blocks by row.
#![tactic(auto)]

ghost use Rattle.std.specs.Prelude.{◌≡◌, map, ℕ, ◌+◌, ◌*◌, ◌^◌, ◌<◌, length, slice_index_or};
ghost use Rattle.rules.specs.Grid.{size, distance_at};
ghost use Rattle.coarse.specs.Blocks.{halved as halved_of, least_of, block_distances};
ghost use Rattle.blocks.specs.Work.{square, corners, corner, Blocked};

use rules::Sides;

// The grid of blocks.
pub fn halved(s: Sides) -> Sides
    ensures { result ≡ halved_of s }
{
    Sides {
        a: s.a / 2,
        b: s.b / 2,
        c: s.c / 2,
    }
}

// The least distance of four voxels of a layer, of which the first is at: rows are a long.
fn least_of_four(dist: &[i32], a: usize, at: usize) -> i32
    requires { at + 1 + a < length dist.now }
    ensures { result ≡ least_of (map (distance_at dist.now) (square a at)) }
{
    dist[at]
        .min(dist[at + 1])
        .min(dist[at + a])
        .min(dist[at + a + 1])
}

// The least distance of a block's eight voxels, of which the first is at: rows are a long, layers l.
fn least(dist: &[i32], a: usize, l: usize, at: usize) -> i32
    requires { at + 1 + a + l < length dist.now }
    ensures { result ≡ least_of (map (distance_at dist.now) (corners a l at)) }
{
    least_of_four(dist, a, at).min(least_of_four(dist, a, at + l))
}

// Puts in a row of blocks the value of each block's first voxel, of which the first is from and each other 2 further.
fn fill_row<T: Copy, F: Fn(usize) -> T>(row: &mut [T], from: usize, value: &F)
    requires few { from + 2 * length row.old < 2 ^ 64 }
    requires callable { (x : ℕ) → x < length row.old → F.pre value.now (from + 2 * x) }
    ensures { (x : ℕ) (d : T) → x < length row.old → F.post value.now (from + 2 * x) (slice_index_or row.new x d) }
{
    for (x, block) in row.iter_mut().enumerate() {
        *block = value(from + 2 * x);
    }
}

// Puts in each block the value of the first of its eight voxels.
pub fn fill_with<T: Copy, F: Fn(usize) -> T>(blocks: &mut [T], s: Sides, value: F)
    requires sides { Blocked s (size s) (length blocks.old) }
    requires callable { (j : ℕ) → j < size (halved_of s) → F.pre value (corner s j) }
    ensures { (j : ℕ) (d : T) → j < length blocks.old → F.post value (corner s j) (slice_index_or blocks.new j d) }
{
    let h = halved(s);
    for row in 0..h.b * h.c {
        let first = h.a * row;
        let from = s.a * (2 * (row % h.b) + s.b * (2 * (row / h.b)));
        fill_row(&mut blocks[first..first + h.a], from, &value);
    }
}

// The distances of all blocks.
pub fn measure(blocks: &mut [i32], dist: &[i32], s: Sides)
    requires { Blocked s (length dist.now) (length blocks.old) }
    ensures { blocks.new ≡ block_distances s dist.now }
{
    let l = s.a * s.b;
    fill_with(blocks, s, |at: usize| least(dist, s.a, l, at));
}
