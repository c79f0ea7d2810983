// begin, begin coarse, carve, take, open and finish for C. After a refusal `next` is the record given.
ghost use Rattle.std.specs.Prelude.{◌≡◌};
ghost use Rattle.rules.specs.Answer.{buffers};
ghost use Rattle.rules.specs.Begin.{begin};
ghost use Rattle.rules.specs.Machine as machine;
ghost use Rattle.rules.specs.Machine.{state};
ghost use Rattle.coarse.specs.Coarse.{four_buffers, begin_coarse};
ghost use Rattle.replies.specs.Reply.{returned, written_out};
ghost use Rattle.replies.specs.Structs.{record_in, begin_struct, begin_coarse_struct, carve_struct, take_struct, open_struct, finish_struct};

use replies::{
    BeginAnswer, BeginCoarseAnswer, CRecord, CarveAnswer, FinishAnswer, OpenAnswer, TakeAnswer,
};
use rules::{Record, Sides};

#[unsafe(no_mangle)]
pub extern "C" fn wattlerugby_begin_8(
    sides: Sides,
    allowed: u16,
    values: &[i32],
    marks: &[u8],
    dist: &mut [i32],
    status: &mut [u8],
) -> BeginAnswer
    ensures { returned result (buffers dist.new status.new)
        ≡ written_out begin_struct (begin sides allowed values.now marks.now dist.old status.old) }
{
    BeginAnswer::from(beginning::begin(sides, allowed, values, marks, dist, status))
}

#[unsafe(no_mangle)]
pub extern "C" fn wattlerugby_begin_coarse(
    sides: Sides,
    allowed: u16,
    values: &[i32],
    marks: &[u8],
    dist: &mut [i32],
    status: &mut [u8],
    block_dist: &mut [i32],
    block_status: &mut [u8],
) -> BeginCoarseAnswer
    ensures { returned result (four_buffers (buffers dist.new status.new) (buffers block_dist.new block_status.new))
        ≡ written_out begin_coarse_struct (begin_coarse sides allowed values.now marks.now
        (four_buffers (buffers dist.old status.old) (buffers block_dist.old block_status.old))) }
{
    BeginCoarseAnswer::from(coarsening::begin_coarse(
        sides,
        allowed,
        values,
        marks,
        dist,
        status,
        block_dist,
        block_status,
    ))
}

#[unsafe(no_mangle)]
pub extern "C" fn wattlerugby_carve_9(
    given: CRecord,
    dist: &[i32],
    marks: &[u8],
    status: &mut [u8],
    limit: u32,
) -> CarveAnswer
    ensures { returned result (buffers dist.now status.new)
        ≡ written_out (carve_struct given) (machine.carve marks.now limit (state (record_in given) dist.now status.old)) }
{
    let r = Record::from(given);
    replies::carve_answer(given, carving::carve(r, dist, marks, status, limit))
}

#[unsafe(no_mangle)]
pub extern "C" fn wattlerugby_take_9(
    given: CRecord,
    dist: &[i32],
    marks: &[u8],
    status: &mut [u8],
    index: usize,
) -> TakeAnswer
    ensures { returned result (buffers dist.now status.new)
        ≡ written_out (take_struct given) (machine.take marks.now index (state (record_in given) dist.now status.old)) }
{
    let r = Record::from(given);
    replies::take_answer(given, taking::take(r, dist, marks, status, index))
}

#[unsafe(no_mangle)]
pub extern "C" fn wattlerugby_open_9(
    given: CRecord,
    dist: &[i32],
    marks: &[u8],
    status: &mut [u8],
) -> OpenAnswer
    ensures { returned result (buffers dist.now status.new)
        ≡ written_out (open_struct given) (machine.open_next marks.now (state (record_in given) dist.now status.old)) }
{
    let r = Record::from(given);
    replies::open_answer(given, opening::open_next(r, dist, marks, status))
}

#[unsafe(no_mangle)]
pub extern "C" fn wattlerugby_finish(
    given: CRecord,
    dist: &mut [i32],
    status: &[u8],
) -> FinishAnswer
    ensures { returned result (buffers dist.new status.now)
        ≡ written_out (finish_struct given) (machine.finish (state (record_in given) dist.old status.now)) }
{
    let r = Record::from(given);
    replies::finish_answer(given, closing::finish(r, dist, status))
}
