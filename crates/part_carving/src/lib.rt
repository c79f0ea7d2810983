// Carve of one grid among those laid end to end in the lent buffers.
#![tactic(auto)]

ghost use Rattle.std.specs.Prelude.{◌≡◌};
ghost use Rattle.rules.specs.Answer.{done, outcome};
ghost use Rattle.rules.specs.Machine as machine;
ghost use Rattle.rules.specs.Machine.{state};
ghost use Rattle.rules.specs.Fit.{Marking};
ghost use Rattle.part_carving.specs.Part.{part, spliced, Within};

use rules::{Carving, Record};

// Carves a grid whose parts of the buffers are those from .. to. Every other status byte stays.
pub fn carve(
    given: Record,
    dist: &[i32],
    marks: &[u8],
    status: &mut [u8],
    from: usize,
    to: usize,
    limit: u32,
) -> Carving
    requires { Within from to dist.now status.old marks.now
        × Marking (part marks.now from to) (state given (part dist.now from to) (part status.old from to)) }
    ensures { outcome (done result) status.new
        ≡ spliced status.old from to (machine.carve (part marks.now from to) limit
        (state given (part dist.now from to) (part status.old from to))) }
{
    let all = marks::all(&marks[from..to]);
    carving::carve_checked(
        given,
        &dist[from..to],
        &marks[from..to],
        &mut status[from..to],
        all,
        limit,
    )
}
