// Document 01's begin: the numbers 1, 2, 28, 29, 3 and 4 of the values as given; then gaps, S, worked distances, box and status, all in the two lent
// buffers.
#![tactic(auto)]

ghost use Rattle.std.specs.Prelude.{◌≡◌, ◌≤◌, length};
ghost use Rattle.rules.specs.Grid.{size};
ghost use Rattle.rules.specs.Fill.{filled};
ghost use Rattle.rules.specs.Checks.{first_failing};
ghost use Rattle.rules.specs.Begin.{new_record, begin_checks, begin as begin_of};
ghost use Rattle.rules.specs.Answer.{outcome, buffers};
ghost use Rattle.rules.specs.Refusals.{number_in, replied};
ghost use Rattle.rules.specs.Marks.{unmarked, marked};
ghost use Rattle.marks.specs.Lent.{All};
ghost use Rattle.gaps.specs.Work.{Accepted};
ghost use Rattle.beginning.specs.Work.{Distanced, WorkedOut};

use rules::{Record, Refusal, Sides};

// The first check that fails.
fn refusal(
    sides: Sides,
    values: &[i32],
    marks: &[u8],
    dist: &[i32],
    status: &[u8],
    all: u8,
) -> Result<(), Refusal>
    requires { All marks.now all }
    ensures { number_in result ≡ first_failing (begin_checks sides values.now marks.now dist.now status.now) }
{
    if !sizes::fit_sides(sides) {
        return Err(Refusal::Side);
    }
    let n = sizes::voxel_count(sides);
    if dist.len() != n || status.len() != n {
        return Err(Refusal::Length);
    }
    begin_checks::given_refusal(sides, values, marks, all)
}

// The record of a grid that was just begun: the kept voxels are a box, whose Euler number is 1.
pub fn new_record(sides: Sides, allowed: u16) -> Record
    ensures { result ≡ new_record sides allowed }
{
    Record {
        sides,
        allowed,
        openings: 0,
        removals: 0,
        examinations: 0,
        euler: 1,
        finished: false,
    }
}

// Steps 1 to 3 on a grid that is not refused: the worked distances, and for each voxel the number of steps to S.
pub fn work_distances(dist: &mut [i32], status: &mut [u8], sides: Sides, values: &[i32])
    requires { Accepted sides values.now (length dist.old) (length status.old) }
    ensures { Distanced sides (filled sides values.now) dist.new status.new }
{
    let far = (sides.a + sides.b + sides.c) as u8;
    components::find(status, dist, sides, values, far);
    distances::measure(status, sides);
    let m = values::greatest(values, status);
    values::fill(values, status, m, dist);
}

// The work on a grid that is not refused, with no mark.
fn work_out(dist: &mut [i32], status: &mut [u8], sides: Sides, values: &[i32])
    requires { Accepted sides values.now (length dist.old) (length status.old) }
    ensures { WorkedOut sides unmarked (filled sides values.now) dist.new status.new }
{
    work_distances(dist, status, sides, values);
    let b = bounding_box::enclose(status, sides);
    bounding_box::settle(status, b, sides);
}

// The work with marks, of which no more are handed on than voxels.
fn work_with(dist: &mut [i32], status: &mut [u8], sides: Sides, values: &[i32], marks: &[u8])
    requires { Accepted sides values.now (length dist.old) (length status.old) × (length marks.now ≤ size sides) }
    ensures { WorkedOut sides (marked marks.now) (filled sides values.now) dist.new status.new }
{
    work_out(dist, status, sides, values);
    first_marks::mark_statuses(status, dist, marks);
}

// Fills in the worked distances and the status of a new grid, and returns its record. A refusal writes nothing.
pub fn begin(
    sides: Sides,
    allowed: u16,
    values: &[i32],
    marks: &[u8],
    dist: &mut [i32],
    status: &mut [u8],
) -> Result<Record, Refusal>
    ensures { outcome (replied result) (buffers dist.new status.new)
        ≡ begin_of sides allowed values.now marks.now dist.old status.old }
{
    let all = marks::all(marks);
    refusal(sides, values, marks, dist, status, all)?;
    let n = marks::used(all, marks.len());
    work_with(dist, status, sides, values, &marks[..n]);
    Ok(new_record(sides, allowed))
}
