// Whether an entry of a removal list may go at its turn, and what refuses it if not.
#![tactic(auto)]

ghost use Rattle.std.specs.Prelude.{◌≡◌, ◌*◌, ◌<◌};
ghost use Rattle.rules.specs.Grid.{size};
ghost use Rattle.rules.specs.Status.{is_kept};
ghost use Rattle.rules.specs.Machine.{is_inside};
ghost use Rattle.rules.specs.Checks.{first_failing};
ghost use Rattle.rules.specs.Refusals.{number_in};
ghost use Rattle.judging.specs.Judge as rule;
ghost use Rattle.judging.specs.Judge.{entry_length, can_open, entry_checks};
ghost use Rattle.tallies.specs.Counts.{entry, body_of};
ghost use Rattle.turns.specs.Turns.{Turn};

use rules::{Refusal, Sides};
use tallies::Tally;

// Whether voxel i is kept, outside S, has a face neighbour not kept, and no voxel passes.
fn can_open(s: Sides, dist: &[i32], status: &[u8], list: &[u8], i: usize, t: Tally) -> bool
    requires { Turn s dist.now status.now list.now t × (i < size s) }
    ensures { result ≡ can_open s (is_inside dist.now) (is_kept status.now) i }
{
    watching::stands(dist, status, i)
        && searching::on_surface(status, s.a, s.a * s.b, i)
        && !watching::some_pass(s, dist, status, list, 0 < t.opened, t.last, t.removed)
}

// Whether voxel i may go: as one of the openings allowed, or by the local test alone.
fn allows(
    s: Sides,
    allowed: u32,
    dist: &[i32],
    status: &[u8],
    list: &[u8],
    i: usize,
    opens: bool,
    t: Tally,
) -> bool
    requires { Turn s dist.now status.now list.now t × (i < size s) }
    ensures { result ≡ rule.allows s (is_inside dist.now) allowed (body_of status.now t) (entry opens i) }
{
    if opens {
        t.opened < allowed && can_open(s, dist, status, list, i, t)
    } else {
        watching::can_pass(s, dist, status, i)
    }
}

// The first check that refuses the next entry.
pub fn entry_refusal(
    s: Sides,
    allowed: u32,
    dist: &[i32],
    status: &[u8],
    list: &[u8],
    t: Tally,
) -> Result<(), Refusal>
    requires { Turn s dist.now status.now list.now t }
    ensures { number_in result ≡ first_failing (entry_checks s (is_inside dist.now) allowed list.now (entry_length * t.removed)
        (body_of status.now t)) }
{
    let start = 6 * t.removed;
    if words::is_short(list.len(), start, 6) {
        return Err(Refusal::Short);
    }
    let opens = words::is_tagged(list, start, b'O');
    if !opens && !words::is_tagged(list, start, b'R') {
        return Err(Refusal::Mark);
    }
    let i = entries::index_of(list, t.removed);
    if status.len() <= i {
        return Err(Refusal::Index);
    }
    if !allows(s, allowed, dist, status, list, i, opens, t) {
        return Err(Refusal::BreaksRules);
    }
    Ok(())
}
