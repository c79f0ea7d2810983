// Voxels put on a work list, of which no flood has taken any before: one, a run of them, or a patch of runs. Labels stand in bytes, the work list in
// numbers of 32 bits, both lent.
#![tactic(auto)]

ghost use Rattle.std.specs.Prelude.{◌≡◌, ℕ, ◌+◌, ◌*◌, ◌≤◌, ◌<◌, length};
ghost use Rattle.rules.specs.Grid.{range};
ghost use Rattle.pushing.specs.Push.{fill_of, push as push_of, push_all, patch_at, Ready};

// Rows of voxels, so many, `step` apart, of `wide` voxels each.
#[derive(Clone, Copy)]
pub struct Patch {
    pub wide: usize,
    pub rows: usize,
    pub step: usize,
}

// Puts voxel j on the work list, if no flood has taken it.
pub fn push(label: &mut [u8], work: &mut [i32], end: usize, j: usize) -> usize
    requires { (j < length label.old) × Ready (fill_of label.old work.old end) }
    ensures { fill_of label.new work.new result ≡ push_of j (fill_of label.old work.old end) }
{
    if label[j] == 1 {
        label[j] = 2;
        work[end] = j as i32;
        end + 1
    } else {
        end
    }
}

// The voxels of a run, `wide` of them from first on.
fn push_all(label: &mut [u8], work: &mut [i32], mut end: usize, first: usize, wide: usize) -> usize
    requires { (first + wide ≤ length label.old) × Ready (fill_of label.old work.old end) }
    ensures { fill_of label.new work.new result
        ≡ push_all (range first wide) (fill_of label.old work.old end) }
{
    for j in first..first + wide {
        end = push(label, work, end, j);
    }
    end
}

// The same, by one look at all of them. Most runs have none left to take; the label 1 is odd, and so are labels joined with it.
fn push_run(label: &mut [u8], work: &mut [i32], end: usize, first: usize, wide: usize) -> usize
    requires { (first + wide ≤ length label.old) × Ready (fill_of label.old work.old end) }
    ensures { fill_of label.new work.new result
        ≡ push_all (range first wide) (fill_of label.old work.old end) }
{
    if loops::joined(label, first, first + wide) % 2 == 0 {
        end
    } else {
        push_all(label, work, end, first, wide)
    }
}

// The voxels of a patch, row by row.
pub fn push_patch(
    label: &mut [u8],
    work: &mut [i32],
    mut end: usize,
    first: usize,
    patch: Patch,
) -> usize
    requires { ((r : ℕ) → r < patch.rows → first + r * patch.step + patch.wide ≤ length label.old) × Ready (fill_of label.old work.old end) }
    ensures { fill_of label.new work.new result
        ≡ push_all (patch_at patch first) (fill_of label.old work.old end) }
{
    for row in 0..patch.rows {
        end = push_run(label, work, end, first + row * patch.step, patch.wide);
    }
    end
}
