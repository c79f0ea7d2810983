// What the program does with a grid that was begun: carve and open in turn, finish, and the line.
#![tactic(auto)]

ghost use Rattle.std.specs.Prelude.{◌≡◌, length};
ghost use Rattle.prelude.specs.Lists.{filter, range};
ghost use Rattle.rules.specs.Grid.{size};
ghost use Rattle.rules.specs.Status.{is_kept};
ghost use Rattle.rules.specs.Machine.{state};
ghost use Rattle.text.specs.Written.{printed};
ghost use Rattle.program.specs.Program.{after_carve, after_finish, all_rounds, carved_to_end};

use rules::Record;
use text::{Summary, Text};

fn kept_voxels(status: &[u8]) -> u64
    ensures { result ≡ length (filter (is_kept status.now) (range 0 (length status.now))) }
{
    let mut kept = 0;
    for s in status {
        kept += status::kept_bit(*s);
    }
    kept
}

// Carves until nothing is pending: no grid has as many examinations as the limit.
fn carve_on(given: Record, dist: &[i32], marks: &[u8], status: &mut [u8]) -> Record
    ensures { state result dist.now status.new
        ≡ after_carve marks.now (state given dist.now status.old) }
{
    match carving::carve(given, dist, marks, status, 4294967295) {
        Ok(carving) => carving.next,
        Err(_) => given,
    }
}

// Carves, and opens and carves in turn until open refuses.
fn carve_and_open(given: Record, dist: &[i32], marks: &[u8], status: &mut [u8]) -> Record
    ensures { state result dist.now status.new
        ≡ all_rounds marks.now (state given dist.now status.old) }
{
    let mut carved = carve_on(given, dist, marks, status);
    while let Ok(opening) = opening::open_next(carved, dist, marks, status) {
        carved = carve_on(opening.next, dist, marks, status);
    }
    carved
}

fn finish_on(given: Record, dist: &mut [i32], status: &[u8]) -> Record
    ensures { state result dist.new status.now ≡ after_finish (state given dist.old status.now) }
{
    match closing::finish(given, dist, status) {
        Ok(next) => next,
        Err(_) => given,
    }
}

// The line of a grid that was begun.
pub fn carved_to_end(given: Record, dist: &mut [i32], marks: &[u8], status: &mut [u8]) -> Text
    requires { length status.old ≡ size given.sides }
    ensures { result ≡ printed (carved_to_end marks.now (state given dist.old status.old)) }
{
    let carved = carve_and_open(given, dist, marks, status);
    let ended = finish_on(carved, dist, status);
    let kept = kept_voxels(status);
    text::carved_line(Summary {
        kept,
        removed: ended.removals,
        opened: ended.openings as u64,
        examined: ended.examinations,
        euler: ended.euler,
    })
}
