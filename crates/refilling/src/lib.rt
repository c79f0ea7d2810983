// The front is filled where it is empty: the keys of the root's rank and stretch are the next ones, since no key of another stretch lies between them.
#![tactic(auto)]

ghost use Rattle.std.specs.Prelude.{◌<◌, get_or};
ghost use Rattle.rules.specs.Marks.{marked};
ghost use Rattle.queue.specs.Queue.{Queue, Emptied, Filled};

use front::LEAD;
use keys::WIDTH;

// The keys of the root's rank and stretch leave the index for the front, which is empty.
fn refill(
    dist: &[i32],
    marks: &[u8],
    status: &[u8],
    offsets: &mut [u8],
    tree: &mut [u64],
    front: &mut [u64],
    head: usize,
) -> usize
    requires { Emptied (marked marks.now) dist.now status.now offsets.old tree.old front.old head × (0 < get_or tree.old 1 0) }
    ensures { Filled (marked marks.now) dist.now status.now offsets.new tree.new
        front.new result }
{
    let root = tree[1];
    let k = queue::voxel(dist, root) / WIDTH;
    let width = WIDTH as u64;
    let floor = (root - 1) / width * width;
    let w = front::part(dist, marks, status, front, k, floor);
    pending::refresh(dist, marks, offsets, tree, k, w);
    LEAD
}

// Fills the front where it is empty.
pub fn filled(
    dist: &[i32],
    marks: &[u8],
    status: &[u8],
    offsets: &mut [u8],
    tree: &mut [u64],
    front: &mut [u64],
    head: usize,
) -> usize
    requires { Queue (marked marks.now) dist.now status.now offsets.old tree.old front.old head }
    ensures { Filled (marked marks.now) dist.now status.now offsets.new tree.new
        front.new result }
{
    if front[head] != 0 || tree[1] == 0 {
        head
    } else {
        refill(dist, marks, status, offsets, tree, front, head)
    }
}
