// Which grid serve serves, document 02's CR 14: "the lowest place never served, and if all of these were served, the one served longest ago", of
// those with something pending.
#![tactic(auto)]

ghost use Rattle.std.specs.Prelude.{◌≡◌, not, ◌&&◌, [], ◌<◌};
ghost use Rattle.rules.specs.Grid.{is_in};
ghost use Rattle.office.specs.Order.{first_waiting};
ghost use Rattle.office.specs.Serve.{waits, to_serve};
ghost use Rattle.office.specs.Structs.{places_of, office_given};
ghost use Rattle.serving_checks.specs.Given.{grids_of};
ghost use Rattle.choosing.specs.Choice.{LaidIn, Choosing, Looked};

use office::{Grids, Order};
use rules::Refusal;

// Whether something is pending in the grid at p.
fn waits_at(g: Grids, status: &[u8], p: usize) -> bool
    requires { LaidIn g status.now × (p < g.count) }
    ensures { result ≡ waits (grids_of g [] status.now) p }
{
    let from = serving_checks::start_of(g, p);
    let to = serving_checks::start_of(g, p + 1);
    fitness::any_pending(&status[from..to])
}

// Whether it is, and the grid was never served.
fn waits_unserved(g: Grids, o: Order, status: &[u8], p: usize) -> bool
    requires { Choosing g o status.now × (p < g.count) }
    ensures { result ≡ not (is_in (places_of o) p) && waits (grids_of g [] status.now) p }
{
    !order_record::stands_from(o, 0, p) && waits_at(g, status, p)
}

// The place served longest ago where something is pending.
fn longest_ago(g: Grids, o: Order, status: &[u8]) -> Option<usize>
    requires { Choosing g o status.now }
    ensures { result ≡ first_waiting (waits (grids_of g [] status.now)) (places_of o) }
{
    for &place in order_record::listed(&o) {
        let p = usize::from(place);
        if waits_at(g, status, p) {
            return Some(p);
        }
    }
    None
}

// The place to serve.
fn choose(g: Grids, o: Order, status: &[u8]) -> Option<usize>
    requires { Choosing g o status.now }
    ensures { result ≡ to_serve (office_given g o [] status.now) }
{
    for p in 0..g.count {
        if waits_unserved(g, o, status, p) {
            return Some(p);
        }
    }
    longest_ago(g, o, status)
}

// The place to serve, if no check refuses it: 35, the last, where nothing is pending anywhere.
pub fn look(
    g: Grids,
    o: Order,
    dist: &[i32],
    marks: &[u8],
    status: &[u8],
    limit: u32,
) -> Result<usize, Refusal>
    ensures { Looked result marks.now limit (office_given g o dist.now status.now) }
{
    serving_checks::refusal(g, o, dist, marks, status, limit)?;
    choose(g, o, status).ok_or(Refusal::NothingPending)
}
