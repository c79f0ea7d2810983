// serve for C, of many scans at once. After a refusal the order record is the one given.
ghost use Rattle.std.specs.Prelude.{◌≡◌};
ghost use Rattle.rules.specs.Answer.{buffers};
ghost use Rattle.office.specs.Serve.{serve};
ghost use Rattle.office.specs.Structs.{office_given};
ghost use Rattle.replies.specs.Reply.{returned};
ghost use Rattle.office_replies.specs.Serving.{grids_in, served_out};

use office::Order;
use office_replies::{CGrids, ServeAnswer};

#[unsafe(no_mangle)]
pub extern "C" fn wattlerugby_serve(
    grids: CGrids,
    order: Order,
    dist: &[i32],
    marks: &[u8],
    status: &mut [u8],
    limit: u32,
) -> ServeAnswer
    ensures { returned result (buffers dist.now status.new)
        ≡ served_out order (serve marks.now limit (office_given (grids_in grids) order dist.now status.old)) }
{
    let g = office_replies::grids_in(grids);
    office_replies::serve_answer(serving::serve(g, order, dist, marks, status, limit))
}
