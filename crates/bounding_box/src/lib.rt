// The smallest box that holds S, and the status by it: 0 gone, 1 kept, 3 kept and pending. Both row by row, where d is 0 at the voxels of S.
#![tactic(auto)]

ghost use Rattle.std.specs.Prelude.{◌≡◌, cond, ◌||◌, ◌≤◌, ◌<◌, eqb, length};
ghost use Rattle.loops.specs.InPlace.{Each};
ghost use Rattle.loops.specs.Rows.{Row};
ghost use Rattle.bounding_box.specs.Bounds.{Widened, Enclosable, Enclosed, Settled, row_status, status_in, status_by};

use rules::Sides;

// The least and the greatest coordinate of S along each axis.
#[derive(Clone, Copy)]
pub struct Bounds {
    pub x0: usize,
    pub x1: usize,
    pub y0: usize,
    pub y1: usize,
    pub z0: usize,
    pub z1: usize,
}

// The box with the voxels of S in a row taken in.
fn widened(b: Bounds, d: &[u8], sides: Sides, row: usize) -> Bounds
    requires { Row sides (length d.now) row }
    ensures { Widened sides d.now row b result }
{
    let first = sides.a * row;
    let end = first + sides.a;
    let Some(p) = loops::first_of(d, 0, first, end) else {
        return b;
    };
    let q = loops::last_of(d, 0, p + 1, end).unwrap_or(p);
    let y = row % sides.b;
    let z = row / sides.b;
    Bounds {
        x0: (p - first).min(b.x0),
        x1: (q - first).max(b.x1),
        y0: y.min(b.y0),
        y1: y.max(b.y1),
        z0: z.min(b.z0),
        z1: z.max(b.z1),
    }
}

// The smallest box that holds the voxels where d is 0.
pub fn enclose(d: &[u8], sides: Sides) -> Bounds
    requires { Enclosable sides d.now }
    ensures { Enclosed sides d.now result }
{
    let mut b = Bounds {
        x0: sides.a,
        x1: 0,
        y0: sides.b,
        y1: 0,
        z0: sides.c,
        z1: 0,
    };
    for row in 0..sides.b * sides.c {
        b = widened(b, d, sides, row);
    }
    b
}

// 1 for a voxel of S, another status for any other.
fn chosen(d: u8, other: u8) -> u8
    ensures { result ≡ cond (eqb d 0) 1 other }
{
    if d == 0 { 1 } else { other }
}

// The status of a voxel outside S in a row of the box, off the row's ends: pending at an end of the box along y or z.
fn rim(b: Bounds, y: usize, z: usize) -> u8
    ensures { result ≡ cond (eqb z b.z0 || (eqb y b.y0 || (eqb y b.y1 || eqb z b.z1))) 3 1 }
{
    if z == b.z0 || y == b.y0 || y == b.y1 || z == b.z1 {
        3
    } else {
        1
    }
}

// The status of the voxels of a row of the box, from low to high in it, of which those at both ends are pending if they are outside S.
fn box_row(row: &mut [u8], low: usize, high: usize, other: u8)
    requires { (low ≤ high) × (high < length row.old) }
    ensures { Each 0 (row_status low high other) 0 (length row.old) row.old row.new }
{
    let p = chosen(row[low], 3);
    let q = chosen(row[high], 3);
    row[..low].fill(0);
    for d in &mut row[low..=high] {
        *d = chosen(*d, other);
    }
    row[high + 1..].fill(0);
    row[low] = p;
    row[high] = q;
}

// The status of the voxels of the row at y and z, in place of their distances.
fn settle_row(row: &mut [u8], b: Bounds, y: usize, z: usize)
    requires { (b.x0 ≤ b.x1) × (b.x1 < length row.old) }
    ensures { Each 0 (λ x d. status_in b (record { x = x; y = y; z = z }) d) 0 (length row.old) row.old row.new }
{
    if (b.y0..=b.y1).contains(&y) && (b.z0..=b.z1).contains(&z) {
        box_row(row, b.x0, b.x1, rim(b, y, z));
    } else {
        row.fill(0);
    }
}

// The status of all voxels, in place of their distances.
pub fn settle(status: &mut [u8], b: Bounds, sides: Sides)
    requires { Settled sides (length status.old) b }
    ensures { status.new ≡ status_by sides b status.old }
{
    for row in 0..sides.b * sides.c {
        let first = sides.a * row;
        settle_row(
            &mut status[first..first + sides.a],
            b,
            row % sides.b,
            row / sides.b,
        );
    }
}
