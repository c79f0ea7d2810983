// The search for the voxel to open, over all voxels and by stretches of them.
#![tactic(auto)]

ghost use Rattle.std.specs.Prelude.{◌≡◌, ℕ, ℤ, ◌+◌, ◌-◌, ◌≤◌, ◌<◌, length};
ghost use Rattle.rules.specs.Status.{first_of, openable};
ghost use Rattle.rules.specs.Marks.{marked};
ghost use Rattle.rules.specs.Machine.{may_go, farther};
ghost use Rattle.searching.specs.Argmax.{surface_at, height_of, surface_height, height_at, key_at, rank};
ghost use Rattle.searching.specs.Argmax.{held_of, Greatest, Holding, Leading, Lent, Span, Peak, Layers, Searchable};

use rules::Sides;

// The greatest height so far, and the first stretch of voxels that has it.
#[derive(Clone, Copy)]
pub struct Held {
    pub height: i32,
    pub first: usize,
    pub end: usize,
}

// Whether voxel i is kept and one of the six that share a face with it is not.
pub fn on_surface(status: &[u8], a: usize, l: usize, i: usize) -> bool
    requires { Span a l i (i + 1) (length status.now) }
    ensures { result ≡ surface_at status.now a l i }
{
    let near = status[i - l]
        & (status[i - a] & (status[i - 1] & (status[i + 1] & (status[i + a] & status[i + l]))));
    status::is_kept(status[i]) & !status::is_kept(near)
}

// The distance of a voxel on the surface, -1 for any other.
fn height(d: i32, surface: bool) -> i32
    ensures { result ≡ height_of d surface }
{
    if surface { d } else { -1 }
}

fn surface_height(dist: &[i32], status: &[u8], a: usize, l: usize, i: usize) -> i32
    requires { Span a l i (i + 1) (length status.now) × (length dist.now ≡ length status.now) }
    ensures { result ≡ surface_height dist.now status.now a l i }
{
    height(dist[i], on_surface(status, a, l, i))
}

fn height_at(dist: &[i32], marks: &[u8], status: &[u8], a: usize, l: usize, i: usize) -> i32
    requires { Span a l i (i + 1) (length status.now) × Lent dist.now marks.now (length status.now) }
    ensures { result ≡ height_at (marked marks.now) dist.now status.now a l i }
{
    height(
        dist[i],
        on_surface(status, a, l, i) & !marks::pins(marks[i]),
    )
}

// The greatest height of a stretch of voxels, or -1, without its place and without a branch: so that a compiler does many voxels at a time.
fn greatest_of<F: Fn(usize) -> i32>(first: usize, end: usize, height: F) -> i32
    requires order { first ≤ end }
    requires callable { (i : ℕ) → first ≤ i → i < end → F.pre height i }
    ensures { (f : ℕ → ℕ) → ((i : ℕ) (h : ℤ) → first ≤ i → i < end → F.post height i h → f i ≡ rank h)
        → Greatest f first end (rank result) }
{
    let mut best: i32 = -1;
    for i in first..end {
        best = best.max(height(i));
    }
    best
}

// The greatest height of a stretch's voxels that are not pinned: by the quicker loop where the stretch has no marks.
fn greatest(
    dist: &[i32],
    marks: &[u8],
    status: &[u8],
    a: usize,
    l: usize,
    first: usize,
    end: usize,
) -> i32
    requires { Span a l first end (length status.now) × Lent dist.now marks.now (length status.now) }
    ensures { Greatest (key_at (marked marks.now) dist.now status.now a l) first end (rank result) }
{
    if loops::joined(marks, first, end) == 0 {
        greatest_of(first, end, |i: usize| surface_height(dist, status, a, l, i))
    } else {
        greatest_of(
            first,
            end,
            |i: usize| height_at(dist, marks, status, a, l, i),
        )
    }
}

fn keep(best: Held, height: i32, first: usize, end: usize) -> Held
    ensures { result ≡ held_of best height first end }
{
    if best.height < height {
        Held { height, first, end }
    } else {
        best
    }
}

// The first stretch of the greatest height; voxels before the first and after the last of these lie on the border.
fn highest(dist: &[i32], marks: &[u8], status: &[u8], a: usize, l: usize) -> Held
    requires { Layers a l (length status.now) × Lent dist.now marks.now (length status.now) }
    ensures { Holding (key_at (marked marks.now) dist.now status.now a l) (1 + a + l)
        (length status.now - (1 + a + l)) result }
{
    let first = 1 + a + l;
    let end = status.len() - first;
    let mut best = Held {
        height: -1,
        first,
        end: first,
    };
    let mut i = first;
    // 64 voxels at a time, and what is left at the end.
    while i < end {
        let e = end.min(i + 64);
        best = keep(best, greatest(dist, marks, status, a, l, i, e), i, e);
        i = e;
    }
    best
}

// The first voxel of a stretch that has its greatest height.
fn first_of(dist: &[i32], marks: &[u8], status: &[u8], a: usize, l: usize, held: Held) -> usize
    requires { Peak (key_at (marked marks.now) dist.now status.now a l) a l (length status.now) held
        × Lent dist.now marks.now (length status.now) }
    ensures { Leading (key_at (marked marks.now) dist.now status.now a l) held.first held.end
        (rank held.height) result }
{
    for i in held.first..held.end {
        if height_at(dist, marks, status, a, l, i) == held.height {
            return i;
        }
    }
    held.end
}

// The voxel to open: kept, outside S, not pinned, with a face neighbour not kept, the farthest, the first among equals.
pub fn to_open(s: Sides, dist: &[i32], marks: &[u8], status: &[u8]) -> Option<usize>
    requires { Searchable s dist.now marks.now status.now }
    ensures { result ≡ first_of s (farther dist.now)
        (openable s (may_go (marked marks.now) dist.now) status.now) }
{
    let a = s.a;
    let l = s.a * s.b;
    let held = highest(dist, marks, status, a, l);
    if held.height < 0 {
        None
    } else {
        Some(first_of(dist, marks, status, a, l, held))
    }
}
