// The points of a finished grid, many in one call.
#![tactic(auto)]

ghost use Rattle.std.specs.Prelude.{◌≡◌, suc, ◌+◌, ◌-◌, ◌*◌, ◌≤◌, length, Some};
ghost use Rattle.rules.specs.Grid.{size};
ghost use Rattle.rules.specs.Checks.{first_failing};
ghost use Rattle.rules.specs.Answer.{done, outcome};
ghost use Rattle.rules.specs.Refusals.{number_in, replied};
ghost use Rattle.rules.specs.Machine.{state};
ghost use Rattle.points.specs.Listing.{listing, points_checks, points};
ghost use Rattle.points.specs.Positions.{point_on, Walkable, stored};

use rules::{Record, Refusal, Sides};
use surface::Point;

// How many points were written, and the position to go on from.
#[derive(Clone, Copy)]
pub struct Listing {
    pub count: usize,
    pub next: usize,
}

// ---- one position

// The point at a position. Most have distances of one sign, and need no coordinates.
fn point_on(sides: Sides, dist: &[i32], p: usize) -> Option<Point>
    requires { Walkable sides dist.now (suc p) }
    ensures { result ≡ point_on sides dist.now p }
{
    let i = p / 3;
    let axis = (p % 3) as u32;
    let here = dist[i];
    let there = *dist.get(i + surface::stride(sides, axis))?;
    if (here < 0) == (there < 0) || surface::beyond(sides, i, axis) {
        return None;
    }
    surface::crossing_at(sides, dist, i, axis)
}

// A point's three doubles, after those of `count` points.
fn store(out: &mut [f64], count: usize, q: Point)
    requires { 3 * count + 3 ≤ length out.old }
    ensures { out.new ≡ stored (Some q) count out.old }
{
    let at = 3 * count;
    out[at..at + 3].copy_from_slice(&[q.x, q.y, q.z]);
}

// ---- the call

// From a position on, until the buffer has no room for one more point or the positions end.
fn list(sides: Sides, dist: &[i32], position: usize, out: &mut [f64]) -> Listing
    requires { Walkable sides dist.now position }
    ensures { outcome (done result) out.new
        ≡ listing (point_on sides dist.now) (3 * size sides - position) position out.old }
{
    let end = 3 * dist.len();
    let room = out.len() / 3;
    let mut count = 0;
    for p in position..end {
        if count == room {
            return Listing { count, next: p };
        }
        if let Some(point) = point_on(sides, dist, p) {
            store(out, count, point);
            count += 1;
        }
    }
    Listing { count, next: end }
}

// The checks of points, the first that fails.
fn points_refusal(
    given: Record,
    dist: &[i32],
    status: &[u8],
    position: usize,
) -> Result<(), Refusal>
    ensures { number_in result ≡ first_failing (points_checks position (state given dist.now status.now)) }
{
    fitness::finished_refusal(given, dist, status)?;
    if 3 * dist.len() < position {
        return Err(Refusal::Index);
    }
    Ok(())
}

// The points of all crossings from a position on, 3 * index + axis, in rising order, three doubles a point.
pub fn points(
    given: Record,
    dist: &[i32],
    status: &[u8],
    position: usize,
    out: &mut [f64],
) -> Result<Listing, Refusal>
    ensures { outcome (replied result) out.new
        ≡ points position (state given dist.now status.now) out.old }
{
    points_refusal(given, dist, status, position)?;
    Ok(list(given.sides, dist, position, out))
}
