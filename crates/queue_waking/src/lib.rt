// Waking voxels with the queue of pending voxels kept: each that wakes enters it.
#![tactic(auto)]

ghost use Rattle.std.specs.Prelude.{◌*◌, ◌≤◌, ◌<◌, length};
ghost use Rattle.rules.specs.Marks.{marked};
ghost use Rattle.rules.specs.Machine.{may_go};
ghost use Rattle.bits.specs.Bits.{bits};
ghost use Rattle.touched_cells.specs.Block.{Rows, code_in};
ghost use Rattle.neighbourhood.specs.Neighbourhood.{first_around};
ghost use Rattle.waking.specs.Waking.{idle_bit, Only, AtBits, from_voxel};
ghost use Rattle.queue.specs.Queue.{Queue};
ghost use Rattle.queue_waking.specs.QueueWaking.{Near, CallableQueued, WokenQueued, Leaving};

use rules::Sides;
use std::array;

// How far each of the 27 positions lies from the first one: reckoned once for all examinations.
pub fn offsets_near(a: usize, l: usize) -> [usize; 27]
    requires { (a ≤ 64) × (l ≤ 4096) }
    ensures { Near a l result }
{
    array::from_fn(|p| waking::offset(a, l, p))
}

fn wake_one(
    dist: &[i32],
    marks: &[u8],
    status: &mut [u8],
    offsets: &mut [u8],
    tree: &mut [u64],
    front: &mut [u64],
    head: usize,
    j: usize,
) -> usize
    requires { Queue (marked marks.now) dist.now status.old offsets.old tree.old front.old head × (j < length status.old) }
    ensures { WokenQueued (Only (may_go (marked marks.now) dist.now) j) (marked marks.now) dist.now status.old
        status.new offsets.new tree.new front.new result }
{
    if waking::may_go(dist, marks, j) {
        entering::enter(dist, marks, status, offsets, tree, front, head, j)
    } else {
        head
    }
}

// Wakes the voxels at the positions of the set bits, from voxel at on. Rows are a long, layers l, which the contract alone asks.
fn wake(
    dist: &[i32],
    marks: &[u8],
    status: &mut [u8],
    offsets: &mut [u8],
    tree: &mut [u64],
    front: &mut [u64],
    head: usize,
    near: &[usize; 27],
    a: usize,
    l: usize,
    at: usize,
    idle: u64,
) -> usize
    requires { CallableQueued (marked marks.now) dist.now status.old offsets.old tree.old front.old near.now head a l at idle }
    ensures { WokenQueued (AtBits (may_go (marked marks.now) dist.now) idle (from_voxel a l at)) (marked marks.now)
        dist.now status.old status.new offsets.new tree.new front.new result }
{
    let mut first = head;
    let mut m = idle;
    // each turn takes the lowest bit
    while 0 < m {
        let p = bits::lowest(m) / 2;
        first = wake_one(
            dist,
            marks,
            status,
            offsets,
            tree,
            front,
            first,
            at + near[p],
        );
        m &= m - 1;
    }
    first
}

// Wakes the voxels around voxel i, whose neighbourhood was the block.
pub fn wake_around(
    s: Sides,
    dist: &[i32],
    marks: &[u8],
    status: &mut [u8],
    offsets: &mut [u8],
    tree: &mut [u64],
    front: &mut [u64],
    head: usize,
    near: &[usize; 27],
    i: usize,
    block: [[u8; 3]; 3],
) -> usize
    requires { Leaving s (marked marks.now) dist.now status.old offsets.old tree.old front.old head i × Rows block
        × Near s.a (s.a * s.b) near.now }
    ensures { WokenQueued
        (AtBits (may_go (marked marks.now) dist.now) (bits 54 (idle_bit (code_in block)))
        (from_voxel s.a (s.a * s.b) (first_around s i)))
        (marked marks.now) dist.now status.old status.new offsets.new tree.new
        front.new result }
{
    let at = neighbourhood::first_around(s, i);
    let idle = waking::idle_bits(block);
    wake(
        dist,
        marks,
        status,
        offsets,
        tree,
        front,
        head,
        near,
        s.a,
        s.a * s.b,
        at,
        idle,
    )
}
