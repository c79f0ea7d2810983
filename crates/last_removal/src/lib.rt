// The last voxel that a call removed, and the face that its local test gives.
#![tactic(auto)]

ghost use Rattle.std.specs.Prelude.{◌≡◌, cond};
ghost use Rattle.last_removal.specs.LastRemoval.{face_after, LastAt};

use rules::Sides;

// The last voxel removed: i where it is gone, else the one before.
pub fn later(last: Option<usize>, gone: bool, i: usize) -> Option<usize>
    ensures { result ≡ cond gone (Some i) last }
{
    if gone { Some(i) } else { last }
}

// The face of the last voxel removed, 6 where none was. It is made once, after all: what is kept around that voxel has not changed since.
pub fn last_face(s: Sides, status: &[u8], last: Option<usize>) -> u32
    requires { LastAt s status.now last }
    ensures { result ≡ face_after s status.now last }
{
    match last {
        Some(i) => neighbourhood::groups_at(s, status, i).face,
        None => 6,
    }
}
