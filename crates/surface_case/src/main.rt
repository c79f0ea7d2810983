// Runs crossing: case A of document 01 after finish, and distances as far apart as 32 bits allow.
#![tactic(auto)]

ghost use Rattle.std.specs.Prelude.{◌≡◌};
ghost use Rattle.surface.specs.Surface.{crossed_answer};
ghost use Rattle.surface_case.specs.Points.{is_point};

use rules::{Record, Sides};
use surface::Crossed;

// The answer is the point with these coordinates.
fn is_point(answer: Crossed, x: f64, y: f64, z: f64) -> bool
    ensures { result ≡ is_point x y z (crossed_answer answer) }
{
    match answer {
        Crossed::At(p) => p.x == x && p.y == y && p.z == z,
        Crossed::Nowhere | Crossed::Refused(_) => false,
    }
}

fn main() {
    let given = Record {
        sides: Sides { a: 3, b: 3, c: 3 },
        allowed: 0,
        openings: 0,
        removals: 0,
        examinations: 0,
        euler: 1,
        finished: true,
    };
    let mut dist: [i32; 27] = [5; 27];
    dist[13] = -5;
    let mut status: [u8; 27] = [0; 27];
    status[13] = 1;
    check::expect(is_point(
        surface::crossing(given, &dist, &status, 13, 0),
        1.5,
        1.0,
        1.0,
    ));
    check::expect(is_point(
        surface::crossing(given, &dist, &status, 10, 1),
        1.0,
        0.5,
        1.0,
    ));
    dist[13] = -2147483648;
    dist[22] = 2147483647;
    check::expect(is_point(
        surface::crossing(given, &dist, &status, 13, 2),
        1.0,
        1.0,
        1.5000000001164153,
    ));
}
