// Begin's marks: the status of each marked voxel at first, by the one that it has without marks.
#![tactic(auto)]

ghost use Rattle.std.specs.Prelude.{◌≡◌, ◌≤◌, length};
ghost use Rattle.rules.specs.Marks.{marked};
ghost use Rattle.loops.specs.InPlace.{Each};
ghost use Rattle.first_marks.specs.FirstMarks.{marked_status, marked_status_at};

// The status of a kept voxel that is pending.
const PENDING: u8 = 3;

// The status of a voxel at first, by the one without marks: of the kept voxels outside S those hurried are pending, and those only pinned are not.
fn marked_status(d: i32, hurried: bool, pinned: bool, x: u8) -> u8
    ensures { result ≡ marked_status d hurried pinned x }
{
    if d < 0 || x == 0 {
        x
    } else if hurried {
        PENDING
    } else if pinned {
        1
    } else {
        x
    }
}

// The status at first of each voxel that has a mark, in place of the one without marks.
pub fn mark_statuses(status: &mut [u8], dist: &[i32], marks: &[u8])
    requires { (length marks.now ≤ length status.old) × (length dist.now ≡ length status.old) }
    ensures { Each 0 (marked_status_at dist.now (marked marks.now)) 0 (length marks.now) status.old
        status.new }
{
    // three slices by one index
    for (i, &mark) in marks.iter().enumerate() {
        status[i] = marked_status(dist[i], marks::hurries(mark), marks::pins(mark), status[i]);
    }
}
