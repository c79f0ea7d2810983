// The coarse run, document 02's CR 10: blocks are begun at step 4, with their pins, and carved to their end with no opening; and the answer that tells
// of it.
#![tactic(auto)]

ghost use Rattle.std.specs.Prelude.{◌≡◌, ◌≤◌, length, take};
ghost use Rattle.rules.specs.Grid.{size};
ghost use Rattle.rules.specs.Marks.{marked};
ghost use Rattle.rules.specs.Begin.{new_record};
ghost use Rattle.coarse.specs.Blocks.{halved, block_marks};
ghost use Rattle.coarse_run.specs.Run.{Pinnable, Runnable, Ran};

use coarse::CoarseStart;
use rules::Sides;

// Writes the marks of the blocks into the first bytes of a lent buffer, and returns how many there are: none where no voxel has a mark.
pub fn pin(bytes: &mut [u8], marks: &[u8], s: Sides) -> usize
    requires { Pinnable s (length marks.now) (length bytes.old) }
    ensures { (result ≤ size (halved s)) × (marked (take result bytes.new) ≡ block_marks s (marked marks.now)) }
{
    if marks.is_empty() {
        return 0;
    }
    let n = bytes.len() / 8;
    block_pins::pin(&mut bytes[..n], marks, s);
    n
}

// Carves the blocks of these distances to their end, and returns how many examinations that took.
pub fn run(dist: &[i32], pins: &[u8], status: &mut [u8], h: Sides) -> u32
    requires { Runnable h dist.now (length status.old) × (length pins.now ≤ size h) }
    ensures { Ran h (marked pins.now) dist.now status.new result }
{
    block_start::start(status, dist, h);
    first_marks::mark_statuses(status, dist, pins);
    let n = sizes::voxel_count(h);
    carving::carve_all(h, dist, pins, status, (27 * n) as u32).examined
}

// Counts are 0 in the record; the examinations of the coarse run stand beside it.
pub fn ready(sides: Sides, allowed: u16, examined: u32) -> CoarseStart
    ensures { result ≡ record { next = new_record sides allowed; examined = examined } }
{
    CoarseStart {
        next: beginning::new_record(sides, allowed),
        examined,
    }
}
