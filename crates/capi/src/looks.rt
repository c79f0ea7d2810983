// crossing, all points, read, reading a layer, write, judge, practice and the local test for C: none of them changes a grid. Judge works in the lent
// status bytes and gives them back as they were.
ghost use Rattle.std.specs.Prelude.{◌≡◌};
ghost use Rattle.std.specs.Prelude.{Option};
ghost use Rattle.cells.specs.Cells.{test};
ghost use Rattle.bits.specs.Bits.{has};
ghost use Rattle.rules.specs.Answer.{done, buffers};
ghost use Rattle.rules.specs.Machine.{state};
ghost use Rattle.surface.specs.declared.Point.{Point};
ghost use Rattle.surface.specs.Surface.{crossing, BoundedAt};
ghost use Rattle.points.specs.Listing.{points};
ghost use Rattle.format.specs.File.{read};
ghost use Rattle.format.specs.Layer.{read_layer};
ghost use Rattle.format.specs.Written.{write};
ghost use Rattle.judging.specs.Judge.{judge};
ghost use Rattle.practice.specs.Practice.{practice};
ghost use Rattle.replies.specs.Reply.{returned, written_out};
ghost use Rattle.replies.specs.Structs.{record_in};
ghost use Rattle.local_test.specs.Answers.{as_test};
ghost use Rattle.look_replies.specs.Looks.{crossing_struct, points_struct, read_struct, layer_struct, write_struct, judge_struct, practice_struct};

use local_test::Local;
use look_replies::{
    CrossingAnswer, JudgeAnswer, LayerReply, PointsAnswer, PracticeAnswer, ReadReply, WriteReply,
};
use replies::CRecord;
use rules::{Record, Sides};

#[unsafe(no_mangle)]
pub extern "C" fn wattlerugby_crossing(
    given: CRecord,
    dist: &[i32],
    status: &[u8],
    index: usize,
    axis: u32,
) -> CrossingAnswer
    ensures answer { returned result (buffers dist.now status.now)
        ≡ written_out crossing_struct (crossing index axis (state (record_in given) dist.now status.now)) }
    ensures near { (o : Option Point) → (crossing index axis (state (record_in given) dist.now status.now)).answer ≡ done o
        → BoundedAt given.sides dist.now index axis o }
{
    let r = Record::from(given);
    CrossingAnswer::from(surface::crossing(r, dist, status, index, axis))
}

#[unsafe(no_mangle)]
pub extern "C" fn wattlerugby_points(
    given: CRecord,
    dist: &[i32],
    status: &[u8],
    position: usize,
    out: &mut [f64],
) -> PointsAnswer
    ensures { returned result out.new
        ≡ written_out points_struct (points position (state (record_in given) dist.now status.now) out.old) }
{
    let r = Record::from(given);
    PointsAnswer::from(points::points(r, dist, status, position, out))
}

#[unsafe(no_mangle)]
pub extern "C" fn wattlerugby_read_6(file: &[u8], values: &mut [i32]) -> ReadReply
    ensures { returned result values.new ≡ written_out read_struct (read file.now values.old) }
{
    ReadReply::from(gridfile::read(file, values))
}

#[unsafe(no_mangle)]
pub extern "C" fn wattlerugby_read_layer_6(sides: Sides, file: &[u8], start: usize) -> LayerReply
    ensures { result ≡ layer_struct (read_layer sides file.now start) }
{
    LayerReply::from(layers::layer(sides, file, start))
}

#[unsafe(no_mangle)]
pub extern "C" fn wattlerugby_write_6(
    sides: Sides,
    allowed: u16,
    values: &[i32],
    file: &mut [u8],
) -> WriteReply
    ensures { returned result file.new ≡ written_out write_struct (write sides allowed values.now file.old) }
{
    WriteReply::from(writing::write(sides, allowed, values, file))
}

#[unsafe(no_mangle)]
pub extern "C" fn wattlerugby_judge(
    given: CRecord,
    dist: &[i32],
    status: &mut [u8],
    list: &[u8],
) -> JudgeAnswer
    ensures { returned result (buffers dist.now status.new)
        ≡ written_out judge_struct (judge list.now (state (record_in given) dist.now status.old)) }
{
    let r = Record::from(given);
    JudgeAnswer::from(verdicts::judge(r, dist, status, list))
}

#[unsafe(no_mangle)]
pub extern "C" fn wattlerugby_practice(
    sides: Sides,
    seed: u32,
    values: &mut [i32],
) -> PracticeAnswer
    ensures { returned result values.new ≡ written_out practice_struct (practice sides seed values.old) }
{
    PracticeAnswer::from(practice::practice(sides, seed, values))
}

// The kept voxels are the bits of one number, from which the block is made.
#[unsafe(no_mangle)]
pub extern "C" fn wattlerugby_local_test_9(kept: u32) -> Local
    ensures { as_test result ≡ test (has kept) }
{
    local_test::local_test(touched_cells::block_of(kept))
}
