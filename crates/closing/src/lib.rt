// Finish, of document 01's carving machine: the distances of a finished grid.
#![tactic(auto)]

ghost use Rattle.std.specs.Prelude.{◌≡◌, map, length};
ghost use Rattle.rules.specs.Grid.{range};
ghost use Rattle.rules.specs.Answer.{done, outcome, buffers};
ghost use Rattle.rules.specs.Refusals.{number_in, replied};
ghost use Rattle.rules.specs.Checks.{first_failing};
ghost use Rattle.rules.specs.Machine as machine;
ghost use Rattle.rules.specs.Machine.{state, closed_at, finish_checks, finished_of};
ghost use Rattle.rules.specs.Fit.{Lent};
ghost use Rattle.closing.specs.Closing.{closed_if};

use rules::{Record, Refusal};

// A kept voxel's distance is negative.
fn closed_value(d: i32, x: u8) -> i32
    ensures { result ≡ closed_if d x }
{
    if status::is_kept(x) && d >= 0 {
        -d.max(1)
    } else {
        d
    }
}

// Closes every voxel.
fn close(dist: &mut [i32], status: &[u8])
    requires { length dist.old ≡ length status.now }
    ensures { dist.new ≡ map (closed_at dist.old status.now) (range 0 (length status.now)) }
{
    for (i, d) in dist.iter_mut().enumerate() {
        *d = closed_value(*d, status[i]);
    }
}

// The checks of finish.
fn quiet_refusal(given: Record, dist: &[i32], status: &[u8]) -> Result<(), Refusal>
    ensures { number_in result ≡ first_failing (finish_checks (state given dist.now status.now)) }
{
    fitness::working_refusal(given, dist, status)?;
    if fitness::any_pending(status) {
        return Err(Refusal::StillPending);
    }
    Ok(())
}

fn finish_fit(given: Record, dist: &mut [i32], status: &[u8]) -> Record
    requires { Lent given.sides dist.old status.now }
    ensures { outcome (done result) (buffers dist.new status.now)
        ≡ finished_of (state given dist.old status.now) }
{
    close(dist, status);
    Record {
        finished: true,
        ..given
    }
}

// Each kept voxel's distance becomes negative, and the record finished.
pub fn finish(given: Record, dist: &mut [i32], status: &[u8]) -> Result<Record, Refusal>
    ensures { outcome (replied result) (buffers dist.new status.now)
        ≡ machine.finish (state given dist.old status.now) }
{
    quiet_refusal(given, dist, status)?;
    Ok(finish_fit(given, dist, status))
}
