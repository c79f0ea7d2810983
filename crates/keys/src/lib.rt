// The key of a pending voxel, and the greatest key of a stretch of voxels: its pending voxels are met in the order of their index, so that
// among equal ranks the first met is the one to keep.
#![tactic(auto)]

ghost use Rattle.std.specs.Prelude.{◌≡◌, ◌≤◌, ◌<◌, length};
ghost use Rattle.rules.specs.Marks.{marked, unmarked};
ghost use Rattle.keys.specs.Key.{most, Lent, rank_of, hurry_of, rank_by, key_of, key_at, voxel_key, voxel_of, width, stretches, greatest, stretch_key, bit_key};
ghost use Rattle.keys.specs.Key.{Readable};

pub use masks::WIDTH;

// The greatest number of voxels.
const MOST: u64 = 1 << 18;

// The rank of a distance, never 0: raised by 2^31 + 1.
fn raised(d: i32) -> u64
    ensures { (result ≡ rank_of d) × (result ≤ 4294967296) }
{
    (i64::from(d) + 2147483649) as u64
}

// By which the rank of a hurried voxel is above that of every distance.
fn hurry(marks: &[u8], j: usize) -> u64
    ensures { (result ≡ hurry_of (marked marks.now).hurried j) × (result ≤ 4294967296) }
{
    if marks::hurried(marks, j) { 1 << 32 } else { 0 }
}

// The rank of voxel j, whose distance is d.
fn rank(d: i32, marks: &[u8], j: usize) -> u64
    ensures { (result ≡ rank_by (marked marks.now).hurried d j) × (result ≤ 8589934592) }
{
    raised(d) + hurry(marks, j)
}

// The key of a rank and an index; 0 of rank 0.
fn key(r: u64, j: usize) -> u64
    requires { (r ≤ 8589934592) × (j < most) }
    ensures { result ≡ key_of r j }
{
    (r * MOST).saturating_sub(j as u64)
}

// The voxel of a key that is not 0.
pub fn voxel_of(w: u64) -> usize
    requires { 0 < w }
    ensures { result ≡ voxel_of w }
{
    (MOST - 1 - (w - 1) % MOST) as usize
}

// The key of voxel j if it is pending.
pub fn voxel_key(dist: &[i32], marks: &[u8], j: usize) -> u64
    requires { (j < length dist.now) × (j < most) }
    ensures { result ≡ voxel_key (marked marks.now).hurried dist.now j }
{
    key(rank(dist[j], marks, j), j)
}

// The greatest key of the voxels of the bits, whose distances are those from voxel at on. Ranks are compared, from 0 on, which no voxel has,
// and one key is made.
fn hurried_scan(dist: &[i32], marks: &[u8], at: usize, set: u64) -> u64
    requires { Readable dist.now at set }
    ensures { result ≡ greatest (bit_key (marked marks.now).hurried dist.now at set) 0 width }
{
    let mut b = 0;
    let mut g = 0;
    let mut m = set;
    // each turn takes the lowest bit
    while 0 < m {
        let t = bits::lowest(m);
        let r = rank(dist[t], marks, at + t);
        if g < r {
            b = t;
            g = r;
        }
        m &= m - 1;
    }
    key(g, at + b)
}

// The greatest key of the voxels of the bits where none is hurried: distances are compared, which is quicker than ranks.
fn plain_scan(dist: &[i32], at: usize, set: u64) -> u64
    requires { Readable dist.now at set }
    ensures { result ≡ greatest (bit_key unmarked.hurried dist.now at set) 0 width }
{
    if set == 0 {
        return 0;
    }
    let mut b = bits::lowest(set);
    let mut g = dist[b];
    let mut m = set & (set - 1);
    // each turn takes the lowest bit
    while 0 < m {
        let t = bits::lowest(m);
        let d = dist[t];
        if g < d {
            b = t;
            g = d;
        }
        m &= m - 1;
    }
    key(raised(g), at + b)
}

// The greatest key of the voxels of the bits, by the quicker loop where there are no marks.
fn scan(dist: &[i32], marks: &[u8], at: usize, set: u64) -> u64
    requires { Readable dist.now at set }
    ensures { result ≡ greatest (bit_key (marked marks.now).hurried dist.now at set) 0 width }
{
    if marks.is_empty() {
        plain_scan(dist, at, set)
    } else {
        hurried_scan(dist, marks, at, set)
    }
}

// The greatest key of stretch k.
pub fn stretch(dist: &[i32], marks: &[u8], status: &[u8], k: usize) -> u64
    requires { Lent dist.now status.now × (k < stretches (length status.now)) }
    ensures { result ≡ stretch_key (key_at (marked marks.now).hurried dist.now status.now) k }
{
    let at = WIDTH * k;
    scan(&dist[at..], marks, at, masks::pending_bits(status, at))
}
