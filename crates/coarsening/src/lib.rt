// The coarse begin, document 02's CR 10, "Coarse run first": steps 1 to 3 of begin, the coarse run on blocks of eight voxels, and its kept blocks split
// again as the body to start from, all in the four lent buffers.
#![tactic(auto)]

ghost use Rattle.std.specs.Prelude.{◌≡◌, length};
ghost use Rattle.rules.specs.Fill.{filled};
ghost use Rattle.rules.specs.Marks.{marked};
ghost use Rattle.rules.specs.Answer.{outcome, buffers};
ghost use Rattle.rules.specs.Refusals.{replied};
ghost use Rattle.coarse.specs.Coarse.{four_buffers, begin_coarse};
ghost use Rattle.coarsening.specs.Work.{Acceptable, WorkedOut};

use coarse::CoarseStart;
use rules::{Refusal, Sides};

// The work on a grid that is not refused: how many examinations the coarse run made. While it goes on, the blocks' marks stand in the first bytes
// of the voxels' status, which is made anew after it.
fn work_out(
    dist: &mut [i32],
    status: &mut [u8],
    block_dist: &mut [i32],
    block_status: &mut [u8],
    sides: Sides,
    values: &[i32],
    marks: &[u8],
) -> u32
    requires { Acceptable sides values.now (length marks.now) (length dist.old) (length status.old) (length block_dist.old)
        (length block_status.old) }
    ensures { WorkedOut sides (marked marks.now) (filled sides values.now) result
        (four_buffers (buffers dist.new status.new) (buffers block_dist.new block_status.new)) }
{
    beginning::work_distances(dist, status, sides, values);
    blocks::measure(block_dist, dist, sides);
    let n = coarse_run::pin(status, marks, sides);
    let h = blocks::halved(sides);
    let examined = coarse_run::run(block_dist, &status[..n], block_status, h);
    splitting::split(status, dist, block_status, sides);
    first_marks::mark_statuses(status, dist, marks);
    examined
}

// Fills in all four buffers, and returns the record of the new grid with how many examinations the coarse run made. A refusal writes nothing.
pub fn begin_coarse(
    sides: Sides,
    allowed: u16,
    values: &[i32],
    marks: &[u8],
    dist: &mut [i32],
    status: &mut [u8],
    block_dist: &mut [i32],
    block_status: &mut [u8],
) -> Result<CoarseStart, Refusal>
    ensures { outcome (replied result)
        (four_buffers (buffers dist.new status.new) (buffers block_dist.new block_status.new))
        ≡ begin_coarse sides allowed values.now marks.now
        (four_buffers (buffers dist.old status.old) (buffers block_dist.old block_status.old)) }
{
    let all = marks::all(marks);
    coarse_checks::refusal(
        sides,
        values,
        marks,
        all,
        dist.len(),
        status.len(),
        block_dist.len(),
        block_status.len(),
    )?;
    let n = marks::used(all, marks.len());
    let examined = work_out(
        dist,
        status,
        block_dist,
        block_status,
        sides,
        values,
        &marks[..n],
    );
    Ok(coarse_run::ready(sides, allowed, examined))
}
