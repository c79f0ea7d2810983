// Floods with one work list: labels stand in bytes, the work list in numbers of 32 bits, both lent. A voxel's neighbours are patches of voxels at some
// offsets from it, so that one flood serves for voxels that touch, which are patches of nine, and for voxels that share faces, which are single.
#![tactic(auto)]

ghost use Rattle.std.specs.Prelude.{◌≡◌, false, ◌<◌, pos, length, get_or};
ghost use Rattle.rules.specs.Grid.{is_negative};
ghost use Rattle.pushing.specs.Push.{fill_of, push_all};
ghost use Rattle.floods.specs.Flood.{shifted, spanned, near_by, Pushable, Floodable, Flooded};

use pushing::Patch;

// An entry of the work list.
pub fn entry(work: &[i32], at: usize) -> usize
    requires { (at < length work.now) × (is_negative (get_or work.now at (pos 0)) ≡ false) }
    ensures { get_or work.now at (pos 0) ≡ pos result }
{
    work[at] as usize
}

// The patches at the offsets from base.
fn push_each(
    label: &mut [u8],
    work: &mut [i32],
    mut end: usize,
    base: usize,
    offsets: &[usize],
    patch: Patch,
) -> usize
    requires { Pushable patch offsets.now base (fill_of label.old work.old end) }
    ensures { fill_of label.new work.new result
        ≡ push_all (shifted base (spanned patch offsets.now)) (fill_of label.old work.old end) }
{
    for offset in offsets {
        end = pushing::push_patch(label, work, end, base + *offset, patch);
    }
    end
}

// Takes the voxels that are linked to seed, lists them from start on, and returns where the list ends.
pub fn flood(
    label: &mut [u8],
    work: &mut [i32],
    start: usize,
    seed: usize,
    offsets: &[usize],
    patch: Patch,
    back: usize,
) -> usize
    requires { (0 < patch.wide) × (0 < patch.rows) × Floodable (spanned patch offsets.now) back (fill_of label.old work.old start) seed }
    ensures { Flooded (near_by (spanned patch offsets.now) back)
        (fill_of label.old work.old start) (fill_of label.new work.new result) seed }
{
    let mut end = pushing::push(label, work, start, seed);
    let mut at = start;
    // each turn may make the list longer, so that no range gives the turns
    while at < end {
        let v = entry(work, at);
        end = push_each(label, work, end, v - back, offsets, patch);
        at += 1;
    }
    end
}
