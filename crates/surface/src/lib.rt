// Document 01, "Surface points": crossing.
#![tactic(auto)]

ghost use Rattle.std.specs.Prelude.{◌≡◌, true, ◌||◌, ◌+◌, ◌<◌, ◌≤◌, ltb, nat_abs, length};
ghost use Rattle.std.specs.Prelude.{Option};
ghost use Rattle.surface.specs.declared.Point.{Point};
ghost use Rattle.rules.specs.Grid.{voxel, size, fit_sides};
ghost use Rattle.rules.specs.Checks.{first_failing};
ghost use Rattle.rules.specs.Answer.{done, outcome, buffers};
ghost use Rattle.rules.specs.Refusals.{number_in};
ghost use Rattle.rules.specs.Machine.{state};
ghost use Rattle.surface.specs.Surface.{along, whole, share, moved, point_from, crossing_at, no_next};
ghost use Rattle.surface.specs.Surface.{crossing_checks, crossing, crossed_answer, HasNext, BoundedAt};
ghost use Rattle.surface.specs.Coordinates.{voxel_of, UpTo, stride};

use rules::{Record, Refusal, Sides};

#[repr(C)]
#[derive(Clone, Copy)]
pub struct Point {
    pub x: f64,
    pub y: f64,
    pub z: f64,
}

// No crossing, a point, or a refusal's number: document 01 names this form, an enum whose point case carries doubles beside a refusal case.
#[derive(Clone, Copy)]
pub enum Crossed {
    Nowhere,
    At(Point),
    Refused(u8),
}

// A voxel's coordinates.
#[derive(Clone, Copy)]
pub struct Coordinates {
    pub x: usize,
    pub y: usize,
    pub z: usize,
}

// ---- the point

// A small whole number as a double, exactly.
fn whole(n: usize) -> f64
    requires { n ≤ 64 }
    ensures { result ≡ whole n }
{
    n as f64
}

// t: one division of two whole numbers, each exact as a double.
fn share(p: u64, q: u64) -> f64
    requires { p + q ≤ 4294967296 }
    ensures { result ≡ share p q }
{
    p as f64 / (p + q) as f64
}

// A coordinate moved by t, towards the next voxel or towards the one before, rounded once.
fn moved(higher: bool, x: usize, p: u64, q: u64) -> f64
    requires { (x ≤ 64) × (p + q ≤ 4294967296) }
    ensures { result ≡ moved higher x p q }
{
    let from = whole(x);
    let t = share(p, q);
    if higher { from + t } else { from - t }
}

// The negative voxel's coordinates as doubles, changed in one.
fn point_from(axis: u32, higher: bool, v: Coordinates, p: u64, q: u64) -> Point
    requires { UpTo 63 v × (p + q ≤ 4294967296) }
    ensures { result ≡ point_from axis higher (voxel_of v) p q }
{
    let mut point = Point {
        x: whole(v.x),
        y: whole(v.y),
        z: whole(v.z),
    };
    match axis {
        0 => point.x = moved(higher, v.x, p, q),
        1 => point.y = moved(higher, v.y, p, q),
        _ => point.z = moved(higher, v.z, p, q),
    }
    point
}

// ---- voxels

// What stands along an axis: 0, 1, 2 for x, y, z.
fn along(axis: u32, x: usize, y: usize, z: usize) -> usize
    ensures { result ≡ along axis x y z }
{
    match axis {
        0 => x,
        1 => y,
        _ => z,
    }
}

fn coordinates_of(sides: Sides, i: usize) -> Coordinates
    requires { (fit_sides sides ≡ true) × (i < size sides) }
    ensures { (voxel_of result ≡ voxel sides i) × UpTo 63 result }
{
    let row = i / sides.a;
    Coordinates {
        x: i % sides.a,
        y: row % sides.b,
        z: row / sides.b,
    }
}

// How far the next voxel along the axis lies in index.
pub fn stride(sides: Sides, axis: u32) -> usize
    requires { fit_sides sides ≡ true }
    ensures { (result ≡ stride axis sides) × (result ≤ 4096) }
{
    along(axis, 1, sides.a, sides.a * sides.b)
}

// Number 6: the axis is over 2, or the next voxel lies beyond the grid.
pub fn beyond(sides: Sides, i: usize, axis: u32) -> bool
    requires { (fit_sides sides ≡ true) × (i < size sides) }
    ensures { result ≡ (ltb 2 axis || no_next sides i axis) }
{
    let v = coordinates_of(sides, i);
    let end = along(axis, sides.a, sides.b, sides.c);
    let at = along(axis, v.x, v.y, v.z);
    2 < axis || end <= at + 1
}

// ---- the crossing

// The point from the negative voxel of index k towards the next or the one before, by the distances of both.
fn point_between(
    axis: u32,
    higher: bool,
    sides: Sides,
    k: usize,
    inside: i32,
    outside: i32,
) -> Point
    requires { (fit_sides sides ≡ true) × (k < size sides) }
    ensures { result ≡ point_from axis higher (voxel sides k) (nat_abs inside) (nat_abs outside) }
{
    let v = coordinates_of(sides, k);
    let p = u64::from(inside.unsigned_abs());
    let q = u64::from(outside.unsigned_abs());
    point_from(axis, higher, v, p, q)
}

// From the voxel of index i, which has a next one along the axis. No status is looked at.
pub fn crossing_at(sides: Sides, dist: &[i32], i: usize, axis: u32) -> Option<Point>
    requires { HasNext sides i axis × (length dist.now ≡ size sides) }
    ensures result_value { result ≡ crossing_at sides dist.now i axis }
    ensures bounded_at { BoundedAt sides dist.now i axis result }
{
    let j = i + stride(sides, axis);
    let here = dist[i];
    let there = dist[j];
    match (here < 0, there < 0) {
        (true, false) => Some(point_between(axis, true, sides, i, here, there)),
        (false, true) => Some(point_between(axis, false, sides, j, there, here)),
        (true, true) | (false, false) => None,
    }
}

// The checks of crossing, the first that fails.
fn crossing_refusal(
    given: Record,
    dist: &[i32],
    status: &[u8],
    index: usize,
    axis: u32,
) -> Result<(), Refusal>
    ensures { number_in result ≡ first_failing (crossing_checks index axis (state given dist.now status.now)) }
{
    fitness::finished_refusal(given, dist, status)?;
    if sizes::voxel_count(given.sides) <= index {
        return Err(Refusal::Index);
    }
    if beyond(given.sides, index, axis) {
        return Err(Refusal::Axis);
    }
    Ok(())
}

// Crossing, from the voxel of that index to the next along the axis.
pub fn crossing(given: Record, dist: &[i32], status: &[u8], index: usize, axis: u32) -> Crossed
    ensures status_value { outcome (crossed_answer result) (buffers dist.now status.now)
        ≡ crossing index axis (state given dist.now status.now) }
    ensures bounded_at { (o : Option Point) → crossed_answer result ≡ done o → BoundedAt given.sides dist.now index axis o }
{
    if let Err(refusal) = crossing_refusal(given, dist, status, index, axis) {
        return Crossed::Refused(u8::from(refusal));
    }
    match crossing_at(given.sides, dist, index, axis) {
        Some(point) => Crossed::At(point),
        None => Crossed::Nowhere,
    }
}
