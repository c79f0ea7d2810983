// Open, of document 01's carving machine.
#![tactic(auto)]

ghost use Rattle.std.specs.Prelude.{◌≡◌};
ghost use Rattle.rules.specs.Answer.{done, outcome, buffers};
ghost use Rattle.rules.specs.Refusals.{number_in, replied};
ghost use Rattle.rules.specs.Checks.{first_failing};
ghost use Rattle.rules.specs.Machine as machine;
ghost use Rattle.rules.specs.Marks.{marked};
ghost use Rattle.rules.specs.Machine.{state, may_go, opened};
ghost use Rattle.opening.specs.Opening.{spent_checks, OpensAt};

use rules::{Opening, Record, Refusal};

// The checks of open before a voxel is looked for.
fn open_refusal(given: Record, dist: &[i32], marks: &[u8], status: &[u8]) -> Result<(), Refusal>
    ensures { number_in result ≡ first_failing (spent_checks marks.now (state given dist.now status.now)) }
{
    let all = marks::all(marks);
    fitness::marked_refusal(given, dist, marks, status, all)?;
    if fitness::any_pending(status) {
        return Err(Refusal::StillPending);
    }
    if given.openings == u32::from(given.allowed) {
        return Err(Refusal::NoOpeningLeft);
    }
    Ok(())
}

fn open_at(given: Record, dist: &[i32], marks: &[u8], status: &mut [u8], i: usize) -> Opening
    requires { OpensAt marks.now i (state given dist.now status.old) }
    ensures { outcome (done result) (buffers dist.now status.new)
        ≡ opened (may_go (marked marks.now) dist.now) i (state given dist.now status.old) }
{
    let s = given.sides;
    let t = neighbourhood::groups_at(s, status, i);
    waking::remove(s, dist, marks, status, i);
    Opening {
        index: i,
        k: t.k,
        m: t.m,
        face: t.face,
        next: counting::counted(given, 0, 1, 1, counting::change(t.k, t.m)),
    }
}

// Removes the kept voxel outside S, not pinned, with a face neighbour that is gone, the farthest, the first among equals.
pub fn open_next(
    given: Record,
    dist: &[i32],
    marks: &[u8],
    status: &mut [u8],
) -> Result<Opening, Refusal>
    ensures { outcome (replied result) (buffers dist.now status.new)
        ≡ machine.open_next marks.now (state given dist.now status.old) }
{
    open_refusal(given, dist, marks, status)?;
    let Some(i) = searching::to_open(given.sides, dist, marks, status) else {
        return Err(Refusal::NothingToOpen);
    };
    Ok(open_at(given, dist, marks, status, i))
}
