// Serve, document 02's CR 14: the grid chosen is carved, in the parts of the lent buffers that are its own.
#![tactic(auto)]

ghost use Rattle.std.specs.Prelude.{◌≡◌};
ghost use Rattle.rules.specs.Checks.{AllHold};
ghost use Rattle.rules.specs.Answer.{outcome};
ghost use Rattle.rules.specs.Refusals.{replied};
ghost use Rattle.office.specs.Serve as rule;
ghost use Rattle.office.specs.Serve.{to_serve, serve_checks};
ghost use Rattle.office.specs.Structs.{office_given, kept, as_struct};

use office::{Grids, Order, Serving};
use rules::Refusal;

// What serve hands back: its answer, and the order record after it.
#[derive(Clone, Copy)]
pub struct Turn {
    pub answer: Result<Serving, Refusal>,
    pub order: Order,
}

// Serves the grid at p, that is chosen: it goes to the end of the order record.
fn serve_at(
    g: Grids,
    o: Order,
    dist: &[i32],
    marks: &[u8],
    status: &mut [u8],
    limit: u32,
    p: usize,
) -> Turn
    requires { AllHold (serve_checks marks.now limit (office_given g o dist.now status.old)) × (to_serve (office_given g o dist.now status.old) ≡ Some p) }
    ensures { outcome (replied result.answer) (kept result.order dist.now status.new)
        ≡ as_struct o (rule.serve marks.now limit (office_given g o dist.now status.old)) }
{
    let from = serving_checks::start_of(g, p);
    let to = serving_checks::start_of(g, p + 1);
    let given = serving_checks::record_at(g, p);
    let place = p as u8;
    let order = order_record::served_last(o, place);
    let carving = part_carving::carve(given, dist, marks, status, from, to, limit);
    Turn {
        answer: Ok(Serving { place, carving }),
        order,
    }
}

// Serves one grid with something pending: the lowest place never served, or else the one served longest ago. A refusal writes nothing.
pub fn serve(g: Grids, o: Order, dist: &[i32], marks: &[u8], status: &mut [u8], limit: u32) -> Turn
    ensures { outcome (replied result.answer) (kept result.order dist.now status.new)
        ≡ as_struct o (rule.serve marks.now limit (office_given g o dist.now status.old)) }
{
    match choosing::look(g, o, dist, marks, status, limit) {
        Ok(p) => serve_at(g, o, dist, marks, status, limit, p),
        Err(refusal) => Turn {
            answer: Err(refusal),
            order: o,
        },
    }
}
