// A woken voxel enters the queue: into the front where its key is above the root's, and into the index where not. Where no place is free before
// the first key of the front, all its keys go into the index first.
#![tactic(auto)]

ghost use Rattle.std.specs.Prelude.{◌≤◌, ◌<◌, length};
ghost use Rattle.rules.specs.Marks.{marked};
ghost use Rattle.queue.specs.Queue.{Queue, Emptied, Entered};

use front::LEAD;

// All keys of the front go into the index, the least first.
fn spill(
    dist: &[i32],
    marks: &[u8],
    status: &[u8],
    offsets: &mut [u8],
    tree: &mut [u64],
    front: &mut [u64],
    head: usize,
)
    requires { Queue (marked marks.now) dist.now status.now offsets.old tree.old front.old head }
    ensures { Emptied (marked marks.now) dist.now status.now offsets.new tree.new
        front.new head }
{
    for e in (head..front::end_of(front, head)).rev() {
        let w = front[e];
        pending::raise(dist, marks, offsets, tree, queue::voxel(dist, w), w);
        front[e] = 0;
    }
}

// Makes sure that a place is free before the first key. Seldom there is none.
fn made_room(
    dist: &[i32],
    marks: &[u8],
    status: &[u8],
    offsets: &mut [u8],
    tree: &mut [u64],
    front: &mut [u64],
    head: usize,
) -> usize
    requires { Queue (marked marks.now) dist.now status.now offsets.old tree.old front.old head }
    ensures { Queue (marked marks.now) dist.now status.now offsets.new tree.new
        front.new result × (1 ≤ result) }
{
    if 0 < head {
        head
    } else {
        spill(dist, marks, status, offsets, tree, front, head);
        front[LEAD] = 0;
        LEAD
    }
}

// Voxel j, pending or not, is pending from now on.
pub fn enter(
    dist: &[i32],
    marks: &[u8],
    status: &mut [u8],
    offsets: &mut [u8],
    tree: &mut [u64],
    front: &mut [u64],
    head: usize,
    j: usize,
) -> usize
    requires { Queue (marked marks.now) dist.now status.old offsets.old tree.old front.old head × (j < length status.old) }
    ensures { Entered (marked marks.now) dist.now status.old status.new offsets.new
        tree.new front.new result j }
{
    let x = status[j];
    if status::is_pending(x) {
        return head;
    }
    let at = made_room(dist, marks, status, offsets, tree, front, head);
    status[j] = status::woken(x);
    let w = keys::voxel_key(dist, marks, j);
    if w <= tree[1] {
        pending::raise(dist, marks, offsets, tree, j, w);
        at
    } else {
        front::insert(front, at, w)
    }
}
