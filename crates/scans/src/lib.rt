// Number 7 over the buffers, in three scans: each over bytes alone or without a branch, so that a compiler does many voxels at a time.
#![tactic(auto)]

ghost use Rattle.std.specs.Prelude.{◌≡◌, ◌+◌, ◌-◌, ◌*◌, ◌≤◌, ◌<◌, length};
ghost use Rattle.cells.specs.Groups.{any};
ghost use Rattle.rules.specs.Grid.{size, range};
ghost use Rattle.rules.specs.Machine.{unfit_voxel};
ghost use Rattle.rules.specs.Fit.{Sized, Lent};
ghost use Rattle.scans.specs.Scans.{unknown_at, held_up, unheld_at, used_at, used_border_at};

use rules::Sides;

// Some voxel has a status that is not 0, 1 or 3.
fn unknown(status: &[u8]) -> bool
    ensures { result ≡ any (unknown_at status.now) (range 0 (length status.now)) }
{
    status
        .iter()
        .fold(false, |bad, &s| bad | !((s == 0) | ((s == 1) | (s == 3))))
}

// The distance of a voxel whose distance may not be negative, 0 where it may.
fn held_up(d: i32, s: u8) -> i32
    ensures { result ≡ held_up d s }
{
    if s == 1 { 0 } else { d }
}

// Some voxel has a negative distance and a status that is not 1: the bits of such numbers, joined, make a negative one.
fn unheld(dist: &[i32], status: &[u8]) -> bool
    requires { length dist.now ≡ length status.now }
    ensures { result ≡ any (unheld_at dist.now status.now) (range 0 (length status.now)) }
{
    let mut all = 0;
    for (&d, &s) in dist.iter().zip(status) {
        all |= held_up(d, s);
    }
    all < 0
}

// Some voxel from first up to end has a status other than 0.
fn used_span(status: &[u8], first: usize, end: usize) -> bool
    requires { (first ≤ end) × (end ≤ length status.now) }
    ensures { result ≡ any (used_at status.now) (range first (end - first)) }
{
    loops::joined(status, first, end) != 0
}

// Some border voxel of a row has: its first or its last voxel, or any if the row lies on the border.
fn used_row(s: Sides, status: &[u8], y: usize, z: usize) -> bool
    requires { Sized s (length status.now) × (y < s.b) × (z < s.c) }
    ensures { result ≡ any (used_border_at s status.now) (range (s.a * (y + s.b * z)) s.a) }
{
    let first = s.a * (y + s.b * z);
    let end = first + s.a;
    if ((y == 0) | (y + 1 == s.b)) | ((z == 0) | (z + 1 == s.c)) {
        used_span(status, first, end)
    } else {
        (status[first] != 0) | (status[end - 1] != 0)
    }
}

fn used_layer(s: Sides, status: &[u8], z: usize) -> bool
    requires { Sized s (length status.now) × (z < s.c) }
    ensures { result ≡ any (used_border_at s status.now) (range (s.a * (s.b * z)) (s.a * s.b)) }
{
    let mut found = false;
    for y in 0..s.b {
        found |= used_row(s, status, y, z);
    }
    found
}

// Some border voxel has a status other than 0.
fn used_border(s: Sides, status: &[u8]) -> bool
    requires { Sized s (length status.now) }
    ensures { result ≡ any (used_border_at s status.now) (range 0 (size s)) }
{
    let mut found = false;
    for z in 0..s.c {
        found |= used_layer(s, status, z);
    }
    found
}

pub fn unfit_grid(s: Sides, dist: &[i32], status: &[u8]) -> bool
    requires { Lent s dist.now status.now }
    ensures { result ≡ any (unfit_voxel s dist.now status.now) (range 0 (size s)) }
{
    unknown(status) | (used_border(s, status) | unheld(dist, status))
}
