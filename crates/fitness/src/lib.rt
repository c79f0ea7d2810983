// The checks that calls on a state share, each by itself and one after the other: 1 and 2, 7, 8 or 9, with marks 29 after 7; and 13.
#![tactic(auto)]

ghost use Rattle.std.specs.Prelude.{◌≡◌, cond, ◌≤◌, length};
ghost use Rattle.cells.specs.Groups.{any};
ghost use Rattle.rules.specs.Grid.{size, range};
ghost use Rattle.rules.specs.Status.{is_pending};
ghost use Rattle.rules.specs.Checks.{first_failing};
ghost use Rattle.rules.specs.Refusals.{number_in};
ghost use Rattle.rules.specs.Machine.{state, unfit_counts, unfit, state_checks, working_checks, finished_checks, marked_checks};
ghost use Rattle.rules.specs.Fit.{Lent};
ghost use Rattle.marks.specs.Lent.{All};
ghost use Rattle.fitness.specs.Numbers.{lent_checks};

use rules::{Record, Refusal};

fn unfit_counts(given: Record, n: usize) -> bool
    requires { (n ≡ size given.sides) × (n ≤ 262144) }
    ensures { result ≡ unfit_counts given }
{
    let limit = n as u64;
    let allowed = given.allowed as u32;
    let euler = u64::from(given.euler.unsigned_abs());
    (allowed < given.openings)
        | ((limit < given.removals) | ((27 * limit < given.examinations) | (8 * limit < euler)))
}

// Checks 1 and 2, the first that fails.
fn lent_refusal(given: Record, dist: &[i32], status: &[u8]) -> Result<(), Refusal>
    ensures { number_in result ≡ first_failing (lent_checks (state given dist.now status.now)) }
{
    let s = given.sides;
    if !sizes::fit_sides(s) {
        return Err(Refusal::Side);
    }
    let n = sizes::voxel_count(s);
    if dist.len() != n {
        return Err(Refusal::Length);
    }
    if status.len() != n {
        return Err(Refusal::Length);
    }
    Ok(())
}

// Check 7, on buffers of the grid's size.
pub fn unfit_state(given: Record, dist: &[i32], status: &[u8]) -> bool
    requires { Lent given.sides dist.now status.now }
    ensures { result ≡ unfit (state given dist.now status.now) }
{
    if unfit_counts(given, status.len()) {
        return true;
    }
    let s = given.sides;
    scans::unfit_grid(s, dist, status)
}

// Check 8, of a grid that is finished or not.
fn worked_refusal(finished: bool) -> Result<(), Refusal>
    ensures { number_in result ≡ cond finished 8 0 }
{
    if finished {
        return Err(Refusal::Finished);
    }
    Ok(())
}

// Check 13: some voxel is pending.
pub fn any_pending(status: &[u8]) -> bool
    ensures { result ≡ any (is_pending status.now) (range 0 (length status.now)) }
{
    status::is_pending(loops::joined(status, 0, status.len()))
}

// Checks 1, 2 and 7.
fn refusal(given: Record, dist: &[i32], status: &[u8]) -> Result<(), Refusal>
    ensures { number_in result ≡ first_failing (state_checks (state given dist.now status.now)) }
{
    lent_refusal(given, dist, status)?;
    if unfit_state(given, dist, status) {
        return Err(Refusal::Unfit);
    }
    Ok(())
}

// Checks 1, 2, 7 and 8: for a call that works on the grid.
pub fn working_refusal(given: Record, dist: &[i32], status: &[u8]) -> Result<(), Refusal>
    ensures { number_in result ≡ first_failing (working_checks (state given dist.now status.now)) }
{
    refusal(given, dist, status)?;
    worked_refusal(given.finished)
}

// Checks 1, 2, 7 and 9: for a call that looks at the surface of a finished grid.
pub fn finished_refusal(given: Record, dist: &[i32], status: &[u8]) -> Result<(), Refusal>
    ensures { number_in result ≡ first_failing (finished_checks (state given dist.now status.now)) }
{
    refusal(given, dist, status)?;
    if given.finished {
        return Ok(());
    }
    Err(Refusal::NotFinished)
}

// Checks 1, 2, 7, 29 and 8: for a call that works on the grid with marks, which all joins.
pub fn marked_refusal(
    given: Record,
    dist: &[i32],
    marks: &[u8],
    status: &[u8],
    all: u8,
) -> Result<(), Refusal>
    requires { All marks.now all }
    ensures { number_in result ≡ first_failing (marked_checks marks.now (state given dist.now status.now)) }
{
    lent_refusal(given, dist, status)?;
    if marks.len() != status.len() {
        return Err(Refusal::Length);
    }
    if unfit_state(given, dist, status) {
        return Err(Refusal::Unfit);
    }
    if 3 < all {
        return Err(Refusal::MarkByte);
    }
    worked_refusal(given.finished)
}
