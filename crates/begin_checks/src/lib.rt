// What begin and the coarse begin check of the values and the marks as they are given: numbers 2, 28, 29, 3 and 4, and the scan that serves
// number 3 and number 31.
#![tactic(auto)]

ghost use Rattle.std.specs.Prelude.{◌≡◌, true, ◌+◌, ◌*◌, ◌^◌, ◌<◌, ◌≤◌, length};
ghost use Rattle.cells.specs.Groups.{any};
ghost use Rattle.rules.specs.Grid.{fit_sides, size, range, measured_negative};
ghost use Rattle.rules.specs.Checks.{first_failing};
ghost use Rattle.rules.specs.Refusals.{number_in};
ghost use Rattle.rules.specs.Fit.{Sized};
ghost use Rattle.loops.specs.Rows.{Row};
ghost use Rattle.marks.specs.Lent.{All};
ghost use Rattle.begin_checks.specs.Given.{near_end, edge_negative, given_checks};

use rules::{Refusal, Sides};

// Whether some value is measured and negative: without a branch, so that a compiler looks at many values at a time.
fn any_negative(values: &[i32]) -> bool
    ensures { result ≡ any measured_negative values.now }
{
    values
        .iter()
        .fold(false, |found, v| found | values::negative(*v))
}

// Whether x lies closer than width to an end of a side.
fn near_end(width: usize, side: usize, x: usize) -> bool
    requires { x + width < 2 ^ 64 }
    ensures { result ≡ near_end width side x }
{
    x < width || side <= x + width
}

// Whether a voxel of a row is measured negative that lies closer than width to an end of the grid: its first and its last ones, or any if the
// row does.
fn edge_row(sides: Sides, values: &[i32], width: usize, row: usize) -> bool
    requires { Row sides (length values.now) row × (2 * width ≤ sides.a) }
    ensures { result ≡ any (edge_negative sides width values.now) (range (sides.a * row) sides.a) }
{
    let first = sides.a * row;
    let end = first + sides.a;
    let y = row % sides.b;
    let z = row / sides.b;
    if near_end(width, sides.b, y) || near_end(width, sides.c, z) {
        any_negative(&values[first..end])
    } else {
        any_negative(&values[first..first + width]) || any_negative(&values[end - width..end])
    }
}

// Whether any voxel closer than width to an end of the grid is measured negative: on the border for a width of 1.
pub fn edge_negative(sides: Sides, values: &[i32], width: usize) -> bool
    requires { Sized sides (length values.now) × (2 * width ≤ sides.a) }
    ensures { result ≡ any (edge_negative sides width values.now) (range 0 (size sides)) }
{
    let mut found = false;
    for row in 0..sides.b * sides.c {
        found |= edge_row(sides, values, width, row);
    }
    found
}

// The first of these checks that fails.
pub fn given_refusal(sides: Sides, values: &[i32], marks: &[u8], all: u8) -> Result<(), Refusal>
    requires { (fit_sides sides ≡ true) × All marks.now all }
    ensures { number_in result ≡ first_failing (given_checks sides values.now marks.now) }
{
    let n = sizes::voxel_count(sides);
    if values.len() != n || marks.len() != n {
        return Err(Refusal::Length);
    }
    if values::any_beyond(values, 1_000_000_000) {
        return Err(Refusal::Value);
    }
    if 3 < all {
        return Err(Refusal::MarkByte);
    }
    if edge_negative(sides, values, 1) {
        return Err(Refusal::BorderNegative);
    }
    if !any_negative(values) {
        return Err(Refusal::NoNegative);
    }
    Ok(())
}
