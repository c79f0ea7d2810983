// The gaps behind the face, document 02's CR 6: the voxels that count as measured negative, with every enclosed gap filled. Labels stand in the status
// bytes, the floods' work list in the distances. A gap is open where a face neighbour of it is on the border, or measured and not negative. So a flood
// starts at each missing voxel beside which its gap is open; what no flood takes is enclosed, and each voxel is taken once.
#![tactic(auto)]

ghost use Rattle.std.specs.Prelude.{◌≡◌, ℕ, ◌+◌, ◌≤◌, ◌<◌, length, get_or};
ghost use Rattle.rules.specs.Fill.{filled};
ghost use Rattle.values.specs.Values.{labels_of};
ghost use Rattle.gaps.specs.Work.{Accepted};
ghost use Rattle.gaps.specs.Gaps.{faces as faces_of, opens as opens_of, GapsToFlood, Visited, OpenGapsFlooded};

use pushing::Patch;
use rules::Sides;

// The offsets at which voxels share a face, in rows of a voxels and layers of ab.
fn faces(a: usize, ab: usize) -> [usize; 6]
    requires { (a ≤ 64) × (ab ≤ 4096) }
    ensures { result ≡ faces_of a ab }
{
    [
        1 + a,
        1 + ab,
        a + ab,
        2 + a + ab,
        1 + 2 * a + ab,
        1 + a + 2 * ab,
    ]
}

// Whether a voxel at one of the offsets from base has the label 3.
fn opens(label: &[u8], base: usize, offsets: &[usize]) -> bool
    requires { (k : ℕ) → k < length offsets.now → base + get_or offsets.now k 0 < length label.now }
    ensures { result ≡ opens_of offsets.now base label.now }
{
    let mut found = false;
    for o in offsets {
        found |= label[base + *o] == 3;
    }
    found
}

// Floods from voxel i, if its gap is open beside it.
fn visit(label: &mut [u8], work: &mut [i32], i: usize, offsets: &[usize], back: usize)
    requires { GapsToFlood offsets.now back label.old (length work.old) × (get_or label.old i 0 ≡ 1) }
    ensures { Visited offsets.now back i label.old label.new work.old work.new }
{
    if opens(label, i - back, offsets) {
        let single = Patch {
            wide: 1,
            rows: 1,
            step: 0,
        };
        floods::flood(label, work, 0, i, offsets, single, back);
    }
}

// Takes every voxel of an open gap.
fn flood_open_gaps(label: &mut [u8], work: &mut [i32], offsets: &[usize], back: usize)
    requires { GapsToFlood offsets.now back label.old (length work.old) }
    ensures { OpenGapsFlooded offsets.now back label.old label.new }
{
    let n = label.len();
    let mut next = 0;
    // a flood takes some of the voxels that come next, so that the next one is looked for after it
    while let Some(i) = loops::first_of(label, 1, next, n) {
        visit(label, work, i, offsets, back);
        next = i + 1;
    }
}

// Labels the voxels that count as measured negative with 1, all others with 0.
pub fn label(status: &mut [u8], dist: &mut [i32], sides: Sides, values: &[i32])
    requires { Accepted sides values.now (length dist.old) (length status.old) }
    ensures { status.new ≡ labels_of (filled sides values.now) }
{
    labels::mark(status, values, sides);
    let ab = sides.a * sides.b;
    let offsets = faces(sides.a, ab);
    flood_open_gaps(status, dist, &offsets, 1 + sides.a + ab);
    labels::settle(status);
}
