// Carve, of document 01's carving machine.
#![tactic(auto)]

ghost use Rattle.std.specs.Prelude.{◌≡◌};
ghost use Rattle.rules.specs.Answer.{done, outcome, buffers};
ghost use Rattle.rules.specs.Refusals.{replied};
ghost use Rattle.rules.specs.Machine as machine;
ghost use Rattle.rules.specs.Machine.{state, may_go, sooner, carved};
ghost use Rattle.rules.specs.Marks.{marked};
ghost use Rattle.rules.specs.Fit.{FitVoxels, Working, Marking};
ghost use Rattle.marks.specs.Lent.{All};
ghost use Rattle.examining.specs.Examining.{Tallied};

use examining::Tally;
use rules::{Carving, Record, Refusal, Sides};

// Examines pending voxels up to limit times. Their queue has room for the largest grid: 13 KB, and nothing on the caller's side.
pub fn carve_all(s: Sides, dist: &[i32], marks: &[u8], status: &mut [u8], limit: u32) -> Tally
    requires { FitVoxels s dist.now status.old }
    ensures { Tallied s (marked marks.now) dist.now limit status.old status.new result }
{
    let mut offsets = [0u8; 4096];
    let mut tree = [0u64; 1024];
    let mut front = [0u64; 113];
    examining::carve(
        s,
        dist,
        marks,
        status,
        &mut offsets,
        &mut tree,
        &mut front,
        limit,
    )
}

fn carve_fit(given: Record, dist: &[i32], marks: &[u8], status: &mut [u8], limit: u32) -> Carving
    requires { Working (state given dist.now status.old) }
    ensures { outcome (done result) (buffers dist.now status.new)
        ≡ carved (may_go (marked marks.now) dist.now) (sooner (marked marks.now) dist.now) limit
        (state given dist.now status.old) }
{
    let t = carve_all(given.sides, dist, marks, status, limit);
    Carving {
        examined: t.examined,
        removed: t.removed,
        pending: t.pending,
        face: t.face,
        next: counting::counted(given, t.examined, t.removed, 0, 0),
    }
}

// Carve, of a grid that no check refuses: marks that are all 0 are not handed on.
pub fn carve_checked(
    given: Record,
    dist: &[i32],
    marks: &[u8],
    status: &mut [u8],
    all: u8,
    limit: u32,
) -> Carving
    requires { Marking marks.now (state given dist.now status.old) × All marks.now all }
    ensures { outcome (done result) (buffers dist.now status.new)
        ≡ machine.carve marks.now limit (state given dist.now status.old) }
{
    let n = marks::used(all, marks.len());
    carve_fit(given, dist, &marks[..n], status, limit)
}

// Examines pending voxels up to limit times, hurried ones first: one that passes and is not pinned is removed, and wakes those around it.
pub fn carve(
    given: Record,
    dist: &[i32],
    marks: &[u8],
    status: &mut [u8],
    limit: u32,
) -> Result<Carving, Refusal>
    ensures { outcome (replied result) (buffers dist.now status.new)
        ≡ machine.carve marks.now limit (state given dist.now status.old) }
{
    let all = marks::all(marks);
    fitness::marked_refusal(given, dist, marks, status, all)?;
    Ok(carve_checked(given, dist, marks, status, all, limit))
}
