// S, the largest connected component of measured negative voxels, gaps filled, by floods with one work list. Labels stand in the status bytes,
// the work list in the distances. Every flood appends to the list, so that the longest stretch of it is S.
#![tactic(auto)]

ghost use Rattle.std.specs.Prelude.{◌<◌, length};
ghost use Rattle.rules.specs.Fill.{filled};
ghost use Rattle.rules.specs.Begin.{inside};
ghost use Rattle.floods.specs.Flood.{spanned, near_by};
ghost use Rattle.gaps.specs.Work.{Accepted};
ghost use Rattle.components.specs.Search.{Searchable, Longest};
ghost use Rattle.components.specs.Work.{Relabelled, Relabels, Found};

use pushing::Patch;
use rules::Sides;
use std::ops::Range;

// Floods every component, and returns the stretch of the largest, of equal ones of the first. A voxel's neighbours are patches at the offsets.
fn largest(
    label: &mut [u8],
    work: &mut [i32],
    offsets: &[usize],
    patch: Patch,
    back: usize,
) -> Range<usize>
    requires { (0 < patch.wide) × (0 < patch.rows) × Searchable (spanned patch offsets.now) back label.old (length work.old) }
    ensures { Longest (near_by (spanned patch offsets.now) back) label.old work.new result.start result.end }
{
    let n = label.len();
    let mut longest = 0..0;
    let mut end = 0;
    let mut next = 0;
    // a flood takes some of the voxels that come next, so that the next one is looked for after it
    while let Some(i) = loops::first_of(label, 1, next, n) {
        let found = end..floods::flood(label, work, end, i, offsets, patch, back);
        end = found.end;
        if longest.len() < found.len() {
            longest = found;
        }
        next = i + 1;
    }
    longest
}

// Gives the voxels the label 0.
fn relabel(label: &mut [u8], voxels: &[i32])
    requires { Relabelled voxels.now 0 (length voxels.now) (length label.old) }
    ensures { Relabels voxels.now 0 (length voxels.now) label.old label.new }
{
    for v in voxels {
        label[*v as usize] = 0;
    }
}

// Labels S with 0 and all other voxels with far.
pub fn find(status: &mut [u8], dist: &mut [i32], sides: Sides, values: &[i32], far: u8)
    requires { Accepted sides values.now (length dist.old) (length status.old) }
    ensures { Found sides (inside sides (filled sides values.now)) far status.new }
{
    gaps::label(status, dist, sides, values);
    let a = sides.a;
    let ab = a * sides.b;
    // the voxels that touch one are three rows of three in each of three layers
    let layers = [0, ab, 2 * ab];
    let nine = Patch {
        wide: 3,
        rows: 3,
        step: a,
    };
    let found = largest(status, dist, &layers, nine, 1 + a + ab);
    status.fill(far);
    relabel(status, &dist[found]);
}
