// The labels of voxels, by which gaps are found: each value's before the floods, and what is made of the labels after them.
#![tactic(auto)]

ghost use Rattle.std.specs.Prelude.{◌≡◌, ◌+◌, ◌*◌, ◌≤◌, length, map};
ghost use Rattle.loops.specs.InPlace.{Each};
ghost use Rattle.loops.specs.Rows.{Row};
ghost use Rattle.labels.specs.Labels.{kind_of, mark_of, Markable, Marked, settled_of};

use rules::Sides;

// ---- before the floods

// 0 for a value that is measured negative, 1 for a missing one, 3 for any other.
fn kind(v: i32) -> u8
    ensures { result ≡ kind_of v }
{
    if v == i32::MIN {
        1
    } else if v < 0 {
        0
    } else {
        3
    }
}

// The kinds of the values.
fn kinds(label: &mut [u8], values: &[i32])
    requires { length label.old ≡ length values.now }
    ensures { label.new ≡ map kind_of values.now }
{
    // two slices by one index: after a zip of `iter_mut` a proof knows only the slice's length
    for (k, d) in label.iter_mut().enumerate() {
        *d = kind(values[k]);
    }
}

// The labels of a row: its first and its last voxel lie on the border, and all of it if the row does. A border voxel has the label 3.
fn mark_row(label: &mut [u8], values: &[i32], sides: Sides, row: usize)
    requires { Row sides (length label.old) row × (length label.old ≡ length values.now) }
    ensures { Each 0 (λ k d. mark_of sides values.now k) (sides.a * row) (sides.a * row + sides.a) label.old label.new }
{
    let y = row % sides.b;
    let z = row / sides.b;
    let first = sides.a * row;
    let end = first + sides.a;
    if y == 0 || y + 1 == sides.b || z == 0 || z + 1 == sides.c {
        label[first..end].fill(3);
    } else {
        label[first] = 3;
        kinds(&mut label[first + 1..end - 1], &values[first + 1..end - 1]);
        label[end - 1] = 3;
    }
}

// The labels of all voxels before the floods.
pub fn mark(label: &mut [u8], values: &[i32], sides: Sides)
    requires { Markable sides values.now (length label.old) }
    ensures { Marked sides values.now label.new }
{
    for row in 0..sides.b * sides.c {
        mark_row(label, values, sides, row);
    }
}

// ---- after them

// The labels of all voxels after the floods: 1 for one that is measured negative or that no flood took, else 0. The labels 2 and 3 are of voxels
// outside.
pub fn settle(label: &mut [u8])
    ensures { Each 0 (λ k d. settled_of d) 0 (length label.old) label.old label.new }
{
    for d in label.iter_mut() {
        *d = u8::from(*d < 2);
    }
}
