// Judge: another supplier's removal list, entry by entry, over the kept voxels of the lent status bytes.
#![tactic(auto)]

ghost use Rattle.std.specs.Prelude.{◌≡◌};
ghost use Rattle.rules.specs.Status.{is_kept};
ghost use Rattle.rules.specs.Machine.{state, is_inside};
ghost use Rattle.rules.specs.Answer.{outcome, buffers};
ghost use Rattle.rules.specs.Checks.{first_failing};
ghost use Rattle.rules.specs.Refusals.{number_in, replied};
ghost use Rattle.judging.specs.Judge as rule;
ghost use Rattle.turns.specs.Turns.{Turn};
ghost use Rattle.verdicts.specs.Verdict.{end_checks, Walkable, Walked};

use judging::Judgement;
use rules::{Record, Refusal, Sides};
use tallies::Tally;

// Where the entries of a list end: what they come to before that, and whether the list is refused there.
#[derive(Clone, Copy)]
pub struct End {
    pub tally: Tally,
    pub verdict: Result<(), Refusal>,
}

// The check that refuses a list at its end.
fn end_refusal(s: Sides, dist: &[i32], status: &[u8], list: &[u8], t: Tally) -> Result<(), Refusal>
    requires { Turn s dist.now status.now list.now t }
    ensures { number_in result ≡ first_failing (end_checks s (is_inside dist.now) (is_kept status.now)) }
{
    if watching::some_pass(s, dist, status, list, 0 < t.opened, t.last, t.removed) {
        return Err(Refusal::StillPasses);
    }
    Ok(())
}

// The entries one after the other. Their voxels are not put back yet.
fn walk(s: Sides, allowed: u32, dist: &[i32], status: &mut [u8], list: &[u8]) -> End
    requires { Walkable s dist.now status.old allowed }
    ensures { Walked s dist.now allowed list.now status.old status.new result }
{
    let mut tally = Tally {
        removed: 0,
        opened: 0,
        euler: 1,
        last: 0,
    };
    // the tally itself counts the entries
    while 6 * tally.removed < list.len() {
        let verdict = turns::entry_refusal(s, allowed, dist, status, list, tally);
        if verdict.is_err() {
            return End { tally, verdict };
        }
        tally = tallies::step(s, status, list, tally);
    }
    End {
        tally,
        verdict: end_refusal(s, dist, status, list, tally),
    }
}

// Whether a removal list keeps the rules, from the kept voxels on: its removals, openings and Euler number. Both buffers end as they began.
pub fn judge(
    given: Record,
    dist: &[i32],
    status: &mut [u8],
    list: &[u8],
) -> Result<Judgement, Refusal>
    ensures { outcome (replied result) (buffers dist.now status.new)
        ≡ rule.judge list.now (state given dist.now status.old) }
{
    fitness::working_refusal(given, dist, status)?;
    let End { tally, verdict } = walk(given.sides, u32::from(given.allowed), dist, status, list);
    entries::put_back(status, list, tally.removed);
    verdict?;
    Ok(Judgement {
        removed: tally.removed as u64,
        opened: tally.opened,
        euler: tally.euler,
    })
}
