// Each stretch of voxels keeps the offset of its pending voxel of greatest key, from which the greatest key of a group of stretches is read.
#![tactic(auto)]

ghost use Rattle.std.specs.Prelude.{◌≡◌, ◌≤◌, ◌<◌, length};
ghost use Rattle.rules.specs.Marks.{marked};
ghost use Rattle.keys.specs.Key.{most, Lent, key_at, stretches};
ghost use Rattle.offsets.specs.Offsets.{offset_of, Held, held_key, held_group, groups, Offsets};

use keys::WIDTH;

// How many stretches make a group.
pub const GROUP: usize = 8;

// The offset of a stretch with nothing pending.
const NONE: u8 = WIDTH as u8;

// The number of stretches of n voxels; the last may end early.
fn count_stretches(n: usize) -> usize
    requires { n ≤ most }
    ensures { result ≡ stretches n }
{
    n.div_ceil(WIDTH)
}

// The number of their groups; the last may end early.
pub fn count_groups(n: usize) -> usize
    requires { n ≤ most }
    ensures { result ≡ groups (stretches n) }
{
    count_stretches(n).div_ceil(GROUP)
}

// The offset of a key's voxel in its stretch.
pub fn offset_of(w: u64) -> u8
    ensures { result ≡ offset_of w }
{
    if w == 0 {
        NONE
    } else {
        (keys::voxel_of(w) % WIDTH) as u8
    }
}

// The greatest key of stretch k, from its offset. Where there is none the stretch's first voxel is read, and dropped.
pub fn held_key(dist: &[i32], marks: &[u8], offsets: &[u8], k: usize) -> u64
    requires { Held dist.now offsets.now × (k < stretches (length dist.now)) }
    ensures { result ≡ held_key (marked marks.now).hurried dist.now offsets.now k }
{
    let o = usize::from(offsets[k]);
    let w = keys::voxel_key(dist, marks, WIDTH * k + o % WIDTH);
    if o < WIDTH { w } else { 0 }
}

// The greatest key of group q.
pub fn group_key(dist: &[i32], marks: &[u8], offsets: &[u8], q: usize) -> u64
    requires { Held dist.now offsets.now × (q < groups (stretches (length dist.now))) }
    ensures { result ≡ held_group (marked marks.now).hurried dist.now offsets.now q }
{
    let first = GROUP * q;
    let end = count_stretches(dist.len()).min(first + GROUP);
    let mut g: u64 = 0;
    for k in first..end {
        g = g.max(held_key(dist, marks, offsets, k));
    }
    g
}

// Makes the offsets of all stretches.
pub fn fill_offsets(dist: &[i32], marks: &[u8], status: &[u8], offsets: &mut [u8])
    requires { Lent dist.now status.now × (stretches (length dist.now) ≤ length offsets.old) }
    ensures { Offsets (key_at (marked marks.now).hurried dist.now status.now)
        (stretches (length dist.now)) offsets.new }
{
    let p = count_stretches(dist.len());
    for (k, offset) in offsets[..p].iter_mut().enumerate() {
        *offset = offset_of(keys::stretch(dist, marks, status, k));
    }
}
