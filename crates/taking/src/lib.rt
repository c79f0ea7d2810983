// Take, of document 01's carving machine.
#![tactic(auto)]

ghost use Rattle.std.specs.Prelude.{◌≡◌};
ghost use Rattle.rules.specs.Answer.{outcome, buffers, taken_answer};
ghost use Rattle.rules.specs.Refusals.{number_in};
ghost use Rattle.rules.specs.Checks.{first_failing};
ghost use Rattle.rules.specs.Machine as machine;
ghost use Rattle.rules.specs.Marks.{marked};
ghost use Rattle.rules.specs.Machine.{state, may_go, voxel_checks, take_checks, taken};
ghost use Rattle.rules.specs.Fit.{Working, Takeable};

use rules::{Record, Refusal, Taken};

// The checks of a voxel.
fn voxel_refusal(
    given: Record,
    dist: &[i32],
    marks: &[u8],
    status: &[u8],
    index: usize,
) -> Result<(), Refusal>
    requires { Working (state given dist.now status.now) }
    ensures { number_in result ≡ first_failing (voxel_checks (marked marks.now) index (state given dist.now status.now)) }
{
    if status.len() <= index {
        return Err(Refusal::Index);
    }
    if !status::is_kept(status[index]) {
        return Err(Refusal::GoneAlready);
    }
    if dist[index] < 0 {
        return Err(Refusal::Inside);
    }
    if marks::pinned(marks, index) {
        return Err(Refusal::PinnedVoxel);
    }
    if !neighbourhood::passes_at(given.sides, status, index) {
        return Err(Refusal::NotPassed);
    }
    Ok(())
}

fn take_refusal(
    given: Record,
    dist: &[i32],
    marks: &[u8],
    status: &[u8],
    index: usize,
) -> Result<(), Refusal>
    ensures { number_in result ≡ first_failing (take_checks marks.now index (state given dist.now status.now)) }
{
    let all = marks::all(marks);
    fitness::marked_refusal(given, dist, marks, status, all)?;
    voxel_refusal(given, dist, marks, status, index)
}

fn take_fit(given: Record, dist: &[i32], marks: &[u8], status: &mut [u8], index: usize) -> Taken
    requires { Takeable marks.now index (state given dist.now status.old) }
    ensures { outcome (taken_answer result) (buffers dist.now status.new)
        ≡ taken (may_go (marked marks.now) dist.now) index (state given dist.now status.old) }
{
    let s = given.sides;
    let t = neighbourhood::groups_at(s, status, index);
    waking::remove(s, dist, marks, status, index);
    Taken::Gone {
        k: t.k,
        m: t.m,
        face: t.face,
        next: counting::counted(given, 0, 1, 0, 0),
    }
}

// Removes a kept voxel outside S that is not pinned and passes, pending or not.
pub fn take(given: Record, dist: &[i32], marks: &[u8], status: &mut [u8], index: usize) -> Taken
    ensures { outcome (taken_answer result) (buffers dist.now status.new)
        ≡ machine.take marks.now index (state given dist.now status.old) }
{
    match take_refusal(given, dist, marks, status, index) {
        Ok(()) => take_fit(given, dist, marks, status, index),
        Err(refusal) => Taken::Refused(u8::from(refusal)),
    }
}
