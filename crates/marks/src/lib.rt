// What the lent mark bytes ask for, of one voxel and looked at all together. Beyond the last of them a mark is 0, so that a call whose marks are
// all 0 hands on none of them, and then nothing is read.
#![tactic(auto)]

ghost use Rattle.std.specs.Prelude.{◌≡◌, ◌≤◌};
ghost use Rattle.rules.specs.Marks.{pinned_mark, hurried_mark, mark_of, marked, stray_mark};
ghost use Rattle.marks.specs.Lent.{All, used_of};

// The greatest number of voxels, 2^18.
const MOST: usize = 262144;

// Whether a mark pins its voxel.
pub fn pins(mark: u8) -> bool
    ensures { result ≡ pinned_mark mark }
{
    (mark == 1) | (mark == 3)
}

// Whether a mark hurries its voxel.
pub fn hurries(mark: u8) -> bool
    ensures { result ≡ hurried_mark mark }
{
    mark == 2
}

// The mark of voxel j.
fn mark(marks: &[u8], j: usize) -> u8
    ensures { result ≡ mark_of marks.now j }
{
    marks.get(j).copied().unwrap_or(0)
}

pub fn pinned(marks: &[u8], j: usize) -> bool
    ensures { result ≡ (marked marks.now).pinned j }
{
    pins(mark(marks, j))
}

pub fn hurried(marks: &[u8], j: usize) -> bool
    ensures { result ≡ (marked marks.now).hurried j }
{
    hurries(mark(marks, j))
}

// The bits that some mark has. More marks than a grid can have voxels are refused for their number, and not looked at.
pub fn all(marks: &[u8]) -> u8
    ensures { All marks.now result }
{
    if MOST < marks.len() {
        0
    } else {
        loops::joined(marks, 0, marks.len())
    }
}

// Number 29: whether a mark is over 3, of as many as there are.
pub fn stray(marks: &[u8]) -> bool
    ensures { result ≡ stray_mark marks.now }
{
    3 < loops::joined(marks, 0, marks.len())
}

// How many of n marks a call hands on: none where all are 0.
pub fn used(all: u8, n: usize) -> usize
    ensures { (result ≡ used_of all n) × (result ≤ n) }
{
    if all == 0 { 0 } else { n }
}
