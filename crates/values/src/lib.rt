// What a measured value means, and the scans of the values: number 28, M, the worked distances. Signed numbers stop here.
#![tactic(auto)]

ghost use Rattle.std.specs.Prelude.{◌≡◌, false, cond, ◌≤◌, ◌<◌, eqb, pos, length};
ghost use Rattle.prelude.specs.Lists.{any};
ghost use Rattle.rules.specs.Value.{beyond as beyond_of, stray, measured_negative};
ghost use Rattle.values.specs.Values.{counted_as, greatest_by, worked_to, worked_by, Fillable};

// Whether a value is measured and not from -bound to bound.
pub fn beyond(v: i32, bound: u32) -> bool
    requires { bound < 2147483648 }
    ensures { result ≡ beyond_of bound v }
{
    let high = bound as i32;
    ((high < v) | (high <= !v)) & (v != -2147483648)
}

// Whether some value is measured and not from -bound to bound.
pub fn any_beyond(values: &[i32], bound: u32) -> bool
    requires { bound < 2147483648 }
    ensures { result ≡ any (beyond_of bound) values.now }
{
    let mut found = false;
    for &v in values {
        found |= beyond(v, bound);
    }
    found
}

// Whether some value is measured and not from -32,767 to 32,767: it then has one of the bits from 15 to 30 in its size, as no other has. The missing
// mark's size has bit 31 alone. Sizes are joined, and looked at in the end, which takes a compiler the fewest steps a value.
pub fn any_long(values: &[i32]) -> bool
    ensures { result ≡ any (beyond_of 32767) values.now }
{
    let all = values.iter().fold(0, |all, v| all | v.unsigned_abs());
    all % 2147483648 >= 32768
}

// Whether a value is measured and negative: -2,147,483,648 stands for a missing point.
pub fn negative(v: i32) -> bool
    ensures { result ≡ measured_negative v }
{
    (v < 0) & (v != -2147483648)
}

// The value of a voxel 1 step from S, and 0 of any other.
fn beside(v: i32, d: u8) -> i32
    ensures { result ≡ cond (eqb d 1) v (pos 0) }
{
    if d == 1 { v } else { 0 }
}

// M: the greatest value of a voxel 1 step from S, and at least 1.
pub fn greatest(values: &[i32], d: &[u8]) -> u32
    requires { (length d.now ≡ length values.now) × (any stray values.now ≡ false) }
    ensures { (result ≡ greatest_by values.now d.now) × (result ≤ 1000000000) }
{
    let mut m: i32 = 1;
    for (&v, &steps) in values.iter().zip(d) {
        m = m.max(beside(v, steps));
    }
    m as u32
}

// The value that a voxel of S counts with: a missing one lies in a gap that is filled.
fn counted(v: i32) -> i32
    ensures { result ≡ counted_as v }
{
    if v == -2147483648 { -1 } else { v }
}

// The worked distance of a voxel of value v that is d steps from S.
fn worked_at(v: i32, d: u8, m: u32) -> i32
    requires { m ≤ 1000000000 }
    ensures { result ≡ worked_to m v d }
{
    if d == 0 {
        counted(v)
    } else if d != 1 {
        (m + u32::from(d)) as i32
    } else if v < 0 {
        m as i32
    } else {
        v
    }
}

// The worked distances of all voxels.
pub fn fill(values: &[i32], d: &[u8], m: u32, dist: &mut [i32])
    requires { Fillable (length values.now) (length d.now) (length dist.old) m }
    ensures { dist.new ≡ worked_by m values.now d.now }
{
    // three slices by one index
    for (i, w) in dist.iter_mut().enumerate() {
        *w = worked_at(values[i], d[i], m);
    }
}
