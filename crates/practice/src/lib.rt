// Practice grids, document 02's CR 12: the same values from a seed on every instrument. Every voxel gets a value of the generator, and then the border
// its own: so s advances at border voxels too, and no voxel asks where it lies.
#![tactic(auto)]

ghost use Rattle.std.specs.Prelude.{◌≡◌, ◌+◌, ◌*◌, ◌≤◌, map, length, pos};
ghost use Rattle.rules.specs.Grid.{range, size};
ghost use Rattle.rules.specs.Refusals.{replied};
ghost use Rattle.rules.specs.Answer.{outcome};
ghost use Rattle.rules.specs.Fit.{Sized};
ghost use Rattle.loops.specs.InPlace.{Each};
ghost use Rattle.loops.specs.Rows.{Row};
ghost use Rattle.practice.specs.Practice as spec;
ghost use Rattle.practice.specs.Practice.{advanced as advanced_of, value_of};
ghost use Rattle.practice.specs.Work.{drawn_at, framed_at};

use rules::{Refusal, Sides};

// ---- the generator

fn advanced(s: u32) -> u32
    ensures { result ≡ advanced_of s }
{
    s.wrapping_add(0x9E3779B9)
}

fn value_of(s: u32) -> i32
    ensures { result ≡ value_of s }
{
    let u = s ^ s >> 16;
    (u % 2001) as i32 - 1000
}

// A value for each voxel, in rising order of the index: without a branch, so that a compiler makes many at a time.
fn draw(values: &mut [i32], seed: u32)
    ensures { values.new ≡ map (drawn_at seed) (range 0 (length values.old)) }
{
    let mut s = seed;
    for v in values.iter_mut() {
        s = advanced(s);
        *v = value_of(s);
    }
}

// ---- the border

// The voxels from first up to end lie on the border.
fn border(values: &mut [i32], first: usize, end: usize)
    requires { (first ≤ end) × (end ≤ length values.old) }
    ensures { Each (pos 0) (λ k d. pos 1000) first end values.old values.new }
{
    values[first..end].fill(1000);
}

// A row: its first and its last voxel lie on the border, and all of it if the row does.
fn frame_row(values: &mut [i32], sides: Sides, row: usize)
    requires { Row sides (length values.old) row }
    ensures { Each (pos 0) (framed_at sides) (sides.a * row) (sides.a * row + sides.a) values.old values.new }
{
    let y = row % sides.b;
    let z = row / sides.b;
    let first = sides.a * row;
    let end = first + sides.a;
    if ((y == 0) | (y + 1 == sides.b)) | ((z == 0) | (z + 1 == sides.c)) {
        border(values, first, end);
    } else {
        border(values, first, first + 1);
        border(values, end - 1, end);
    }
}

fn frame(values: &mut [i32], sides: Sides)
    requires { Sized sides (length values.old) }
    ensures { Each (pos 0) (framed_at sides) 0 (size sides) values.old values.new }
{
    for row in 0..sides.b * sides.c {
        frame_row(values, sides, row);
    }
}

// ---- the call

// Fills the lent values with the practice grid of a seed. A refusal writes nothing.
pub fn practice(sides: Sides, seed: u32, values: &mut [i32]) -> Result<(), Refusal>
    ensures { outcome (replied result) values.new ≡ spec.practice sides seed values.old }
{
    if !sizes::fit_sides(sides) {
        return Err(Refusal::Side);
    }
    if values.len() != sizes::voxel_count(sides) {
        return Err(Refusal::Length);
    }
    draw(values, seed);
    frame(values, sides);
    Ok(())
}
