// The queue of pending voxels. Its front has the greatest keys in falling order, and the index all others, so that most examinations touch neither
// a stretch nor the tree.
#![tactic(auto)]

ghost use Rattle.std.specs.Prelude.{◌≡◌, ◌<◌, length};
ghost use Rattle.std.specs.Int.{w32};
ghost use Rattle.std.proofs.Common.{SFits};
ghost use Rattle.cells.specs.Groups.{any};
ghost use Rattle.rules.specs.Grid.{range, distance_at};
ghost use Rattle.rules.specs.Status.{is_pending};
ghost use Rattle.rules.specs.Marks.{marked};
ghost use Rattle.keys.specs.Key.{voxel_of};
ghost use Rattle.queue.specs.Queue.{Queue, Lending, Filled, Written, Leaving, Best};

use front::LEAD;

// The queue of the lent buffers: all in the index, and the front empty.
pub fn build(
    dist: &[i32],
    marks: &[u8],
    status: &[u8],
    offsets: &mut [u8],
    tree: &mut [u64],
    front: &mut [u64],
) -> usize
    requires { Lending dist.now status.now offsets.old tree.old front.old }
    ensures { Queue (marked marks.now) dist.now status.now offsets.new tree.new
        front.new result }
{
    pending::build(dist, marks, status, offsets, tree);
    front[LEAD] = 0;
    LEAD
}

// The voxel of a key that is not 0. That its distance fits 32 bits, on which the order of ranks rests, is known once it is read.
pub fn voxel(dist: &[i32], w: u64) -> usize
    requires { (0 < w) × (voxel_of w < length dist.now) }
    ensures { (result ≡ voxel_of w) × SFits w32 (distance_at dist.now result) }
{
    let j = keys::voxel_of(w);
    let _d = dist[j];
    j
}

// The pending voxel that comes first, if any is pending.
pub fn first(
    dist: &[i32],
    marks: &[u8],
    status: &[u8],
    offsets: &[u8],
    tree: &[u64],
    front: &[u64],
    head: usize,
) -> Option<usize>
    requires { Filled (marked marks.now) dist.now status.now offsets.now tree.now front.now head }
    ensures { Best (marked marks.now) dist.now status.now front.now head result }
{
    let w = front[head];
    if w == 0 { None } else { Some(voxel(dist, w)) }
}

// Voxel i, the first of the front, has the status byte s from now on, which is not pending.
pub fn leave(
    dist: &[i32],
    marks: &[u8],
    status: &mut [u8],
    offsets: &[u8],
    tree: &[u64],
    front: &[u64],
    head: usize,
    i: usize,
    s: u8,
) -> usize
    requires { Leaving (marked marks.now) dist.now status.old offsets.now tree.now front.now head i s }
    ensures { Written (marked marks.now) dist.now status.old status.new offsets.now
        tree.now front.now result i s }
{
    status[i] = s;
    head + 1
}

// Whether any voxel is pending.
pub fn any_pending(
    dist: &[i32],
    marks: &[u8],
    status: &[u8],
    offsets: &[u8],
    tree: &[u64],
    front: &[u64],
    head: usize,
) -> bool
    requires { Queue (marked marks.now) dist.now status.now offsets.now tree.now front.now head }
    ensures { result ≡ any (is_pending status.now) (range 0 (length status.now)) }
{
    front[head] != 0 || tree[1] != 0
}
