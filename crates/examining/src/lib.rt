// Examinations over the queue of pending voxels: one that passes is removed, and wakes those around it; one that fails rests.
#![tactic(auto)]

ghost use Rattle.rules.specs.Marks.{marked};
ghost use Rattle.std.specs.Prelude.{◌*◌};
ghost use Rattle.queue.specs.Queue.{Queue};
ghost use Rattle.queue_waking.specs.QueueWaking.{Near};
ghost use Rattle.examining.specs.Examining.{Workable, Examinable, Examined, Run, Lending, Tallied};

use rules::Sides;

// Whether the voxel was removed, and where the front begins now.
#[derive(Clone, Copy)]
pub struct Step {
    pub removed: bool,
    pub head: usize,
}

// Examines voxel i, the first of the front. One gathering serves the test and the waking.
fn examine(
    s: Sides,
    dist: &[i32],
    marks: &[u8],
    status: &mut [u8],
    offsets: &mut [u8],
    tree: &mut [u64],
    front: &mut [u64],
    head: usize,
    near: &[usize; 27],
    i: usize,
) -> Step
    requires { Examinable s (marked marks.now) dist.now status.old offsets.old tree.old front.old head i
        × Near s.a (s.a * s.b) near.now }
    ensures { Examined s (marked marks.now) dist.now status.old status.new offsets.new
        tree.new front.new i result }
{
    let block = neighbourhood::gather(s, status, i);
    let passes = local_test::passes(block);
    let gone = passes & waking::may_go(dist, marks, i);
    let x = status[i];
    let rest = queue::leave(
        dist,
        marks,
        status,
        offsets,
        tree,
        front,
        head,
        i,
        status::left(gone, x),
    );
    if gone {
        let head = queue_waking::wake_around(
            s, dist, marks, status, offsets, tree, front, rest, near, i, block,
        );
        Step {
            removed: true,
            head,
        }
    } else {
        Step {
            removed: false,
            head: rest,
        }
    }
}

// How many voxels were examined, how many of them removed, the last of these, if any, and where the front begins.
#[derive(Clone, Copy)]
pub struct Count {
    pub examined: u32,
    pub removed: u32,
    pub last: Option<usize>,
    pub head: usize,
}

// Examines pending voxels, the farthest first, up to limit times.
fn run(
    s: Sides,
    dist: &[i32],
    marks: &[u8],
    status: &mut [u8],
    offsets: &mut [u8],
    tree: &mut [u64],
    front: &mut [u64],
    first: usize,
    near: &[usize; 27],
    limit: u32,
) -> Count
    requires { Queue (marked marks.now) dist.now status.old offsets.old tree.old front.old first × Workable s status.old
        × Near s.a (s.a * s.b) near.now }
    ensures { Run s (marked marks.now) dist.now limit status.old status.new offsets.new
        tree.new front.new result }
{
    let mut examined = 0;
    let mut removed = 0;
    let mut last = None;
    let mut head = first;
    for _ in 0..limit {
        head = refilling::filled(dist, marks, status, offsets, tree, front, head);
        let Some(i) = queue::first(dist, marks, status, offsets, tree, front, head) else {
            break;
        };
        let step = examine(s, dist, marks, status, offsets, tree, front, head, near, i);
        last = last_removal::later(last, step.removed, i);
        removed += u32::from(step.removed);
        head = step.head;
        examined += 1;
    }
    Count {
        examined,
        removed,
        last,
        head,
    }
}

// How many voxels were examined and removed, whether any is still pending, and the face of the last removal.
#[derive(Clone, Copy)]
pub struct Tally {
    pub examined: u32,
    pub removed: u32,
    pub pending: bool,
    pub face: u32,
}

// Examines up to limit times, over a queue that is made for it in the lent offsets, tree and front.
pub fn carve(
    s: Sides,
    dist: &[i32],
    marks: &[u8],
    status: &mut [u8],
    offsets: &mut [u8],
    tree: &mut [u64],
    front: &mut [u64],
    limit: u32,
) -> Tally
    requires { Lending s dist.now status.old offsets.old tree.old front.old }
    ensures { Tallied s (marked marks.now) dist.now limit status.old status.new result }
{
    let first = queue::build(dist, marks, status, offsets, tree, front);
    let near = queue_waking::offsets_near(s.a, s.a * s.b);
    let c = run(
        s, dist, marks, status, offsets, tree, front, first, &near, limit,
    );
    Tally {
        examined: c.examined,
        removed: c.removed,
        pending: queue::any_pending(dist, marks, status, offsets, tree, front, c.head),
        face: last_removal::last_face(s, status, c.last),
    }
}
