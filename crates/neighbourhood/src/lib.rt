// The neighbourhood of an inner voxel, read once into a block, an array of three layers of three rows, which the local test is given by value.
#![tactic(auto)]

ghost use Rattle.std.specs.Prelude.{◌≡◌, ◌+◌, ◌*◌, ◌<◌, length};
ghost use Rattle.cells.specs.Cells.{passes};
ghost use Rattle.rules.specs.Status.{test_at};
ghost use Rattle.local_test.specs.Answers.{GroupsOf};
ghost use Rattle.rules.specs.Neighbours.{Inner};
ghost use Rattle.neighbourhood.specs.Neighbourhood.{Few, Statuses, first_around, Room, row_at, layer_at, cube_at, Gathered};

use local_test::Groups;
use rules::Sides;

// A row of three voxels from voxel at on, two bits each: bit 0 of a status says kept, bit 1 pending. The sum puts them side by side.
fn row(status: &[u8], at: usize) -> u8
    requires { (at + 2 < length status.now) × Few status.now }
    ensures { result ≡ row_at status.now at }
{
    status[at] + 4 * (status[at + 1] + 4 * status[at + 2])
}

// Three rows, each a voxels after the other.
fn layer(status: &[u8], a: usize, at: usize) -> [u8; 3]
    requires { (at + 2 * a + 2 < length status.now) × Few status.now }
    ensures { result ≡ layer_at status.now a at }
{
    [
        row(status, at),
        row(status, at + a),
        row(status, at + 2 * a),
    ]
}

// Three layers, each l voxels after the other.
fn cube(status: &[u8], a: usize, l: usize, at: usize) -> [[u8; 3]; 3]
    requires { Room a l at (length status.now) × Few status.now }
    ensures { result ≡ cube_at status.now a l at }
{
    [
        layer(status, a, at),
        layer(status, a, at + l),
        layer(status, a, at + 2 * l),
    ]
}

// The voxel at position 0 around voxel i.
pub fn first_around(s: Sides, i: usize) -> usize
    requires { Inner s i }
    ensures { result ≡ first_around s i }
{
    i - (1 + s.a + s.a * s.b)
}

// The neighbourhood of voxel i.
pub fn gather(s: Sides, status: &[u8], i: usize) -> [[u8; 3]; 3]
    requires { Inner s i × Statuses s status.now }
    ensures { Gathered s status.now i result }
{
    let at = first_around(s, i);
    cube(status, s.a, s.a * s.b, at)
}

// k, m and the face of the local test of voxel i.
pub fn groups_at(s: Sides, status: &[u8], i: usize) -> Groups
    requires { Inner s i × Statuses s status.now }
    ensures { GroupsOf (test_at s status.now i) result }
{
    local_test::groups_of(gather(s, status, i))
}

// Whether voxel i passes it. It goes by the groups, so that the test that only says whether is called in one place, by carve, and set in place there.
pub fn passes_at(s: Sides, status: &[u8], i: usize) -> bool
    requires { Inner s i × Statuses s status.now }
    ensures { result ≡ passes (test_at s status.now i) }
{
    let t = groups_at(s, status, i);
    (t.k == 1) & (t.m == 1)
}
