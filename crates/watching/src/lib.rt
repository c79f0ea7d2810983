// Whether any voxel passes while a removal list is judged: of all voxels, or of those near what has gone since none did.
#![tactic(auto)]

ghost use Rattle.std.specs.Prelude.{◌≡◌, true, ◌<◌, length};
ghost use Rattle.rules.specs.Grid.{size};
ghost use Rattle.rules.specs.Neighbours.{Inner};
ghost use Rattle.rules.specs.Status.{is_kept};
ghost use Rattle.rules.specs.Machine.{is_inside};
ghost use Rattle.judging.specs.Judge.{can_pass, some_passes};
ghost use Rattle.watching.specs.Watching.{standing, Held, passes_around, any_around, Since};

use rules::Sides;

// Whether voxel j is kept and outside S.
pub fn stands(dist: &[i32], status: &[u8], j: usize) -> bool
    requires { (j < length dist.now) × (j < length status.now) }
    ensures { result ≡ standing dist.now status.now j }
{
    status::is_kept(status[j]) & (dist[j] >= 0)
}

// Whether it passes as well.
pub fn can_pass(s: Sides, dist: &[i32], status: &[u8], j: usize) -> bool
    requires { Held s dist.now status.now × (j < size s) }
    ensures { result ≡ can_pass s (is_inside dist.now) (is_kept status.now) j }
{
    stands(dist, status, j) && neighbourhood::passes_at(s, status, j)
}

// Whether the voxel at position p around voxel i can.
fn passes_around(s: Sides, dist: &[i32], status: &[u8], i: usize, p: usize) -> bool
    requires { Held s dist.now status.now × Inner s i × (p < 27) }
    ensures { result ≡ passes_around s dist.now status.now i p }
{
    let j = neighbourhood::first_around(s, i) + waking::offset(s.a, s.a * s.b, p);
    can_pass(s, dist, status, j)
}

// Whether one of the 27 voxels around voxel i can.
fn any_around(s: Sides, dist: &[i32], status: &[u8], i: usize) -> bool
    requires { Held s dist.now status.now × Inner s i }
    ensures { result ≡ any_around s dist.now status.now i }
{
    for p in 0..27 {
        if passes_around(s, dist, status, i, p) {
            return true;
        }
    }
    false
}

// Whether any voxel can, by a look at each.
fn any_at_all(s: Sides, dist: &[i32], status: &[u8]) -> bool
    requires { Held s dist.now status.now }
    ensures { result ≡ some_passes s (is_inside dist.now) (is_kept status.now) }
{
    for j in 0..status.len() {
        if can_pass(s, dist, status, j) {
            return true;
        }
    }
    false
}

// Whether any voxel can, by a look around the voxels of the entries from this one, at which none could, up to that one.
fn any_since(s: Sides, dist: &[i32], status: &[u8], list: &[u8], from: usize, to: usize) -> bool
    requires { Since s dist.now status.now list.now true from to }
    ensures { result ≡ some_passes s (is_inside dist.now) (is_kept status.now) }
{
    for r in from..to {
        let i = entries::index_of(list, r);
        if any_around(s, dist, status, i) {
            return true;
        }
    }
    false
}

// Whether any voxel can: where it was asked before, by what has gone since.
pub fn some_pass(
    s: Sides,
    dist: &[i32],
    status: &[u8],
    list: &[u8],
    asked: bool,
    from: usize,
    to: usize,
) -> bool
    requires { Since s dist.now status.now list.now asked from to }
    ensures { result ≡ some_passes s (is_inside dist.now) (is_kept status.now) }
{
    if asked {
        any_since(s, dist, status, list, from, to)
    } else {
        any_at_all(s, dist, status)
    }
}
