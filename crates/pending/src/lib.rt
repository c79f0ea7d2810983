// The index of pending voxels: the offsets of stretches, and a winner tree of keys over groups of stretches, so that its root is the greatest
// key that it holds. An operation reads at most one group.
#![tactic(auto)]

ghost use Rattle.std.specs.Prelude.{◌≡◌, ℕ, ◌+◌, ◌<◌, get_or};
ghost use Rattle.rules.specs.Marks.{marked};
ghost use Rattle.offsets.specs.Offsets.{held_group};
ghost use Rattle.pending.specs.Index.{Leafing, Room, Index, Raising, Raised, Refreshing, Refreshed};

use keys::WIDTH;
use offsets::GROUP;

// Makes the leaves of a tree with h of them.
fn fill_leaves(dist: &[i32], marks: &[u8], offsets: &[u8], tree: &mut [u64], h: usize)
    requires { Leafing dist.now offsets.now tree.old h }
    ensures { (q : ℕ) → q < h → get_or tree.new (h + q) 0
        ≡ held_group (marked marks.now).hurried dist.now offsets.now q }
{
    for (q, leaf) in tree[h..2 * h].iter_mut().enumerate() {
        *leaf = offsets::group_key(dist, marks, offsets, q);
    }
}

// The index of the lent buffers.
pub fn build(dist: &[i32], marks: &[u8], status: &[u8], offsets: &mut [u8], tree: &mut [u64])
    requires { Room dist.now status.now offsets.old tree.old }
    ensures { Index (marked marks.now) dist.now status.now offsets.new tree.new }
{
    let h = offsets::count_groups(dist.len());
    offsets::fill_offsets(dist, marks, status, offsets);
    fill_leaves(dist, marks, offsets, tree, h);
    winners::join_nodes(tree, h);
}

// Voxel j, which had no key, has the key w from now on.
pub fn raise(dist: &[i32], marks: &[u8], offsets: &mut [u8], tree: &mut [u64], j: usize, w: u64)
    requires { Raising dist.now offsets.old tree.old j }
    ensures { Raised (marked marks.now).hurried dist.now offsets.old offsets.new tree.old
        tree.new j w }
{
    if offsets::held_key(dist, marks, offsets, j / WIDTH) < w {
        let h = offsets::count_groups(dist.len());
        offsets[j / WIDTH] = (j % WIDTH) as u8;
        winners::lift(tree, h, j / WIDTH / GROUP, w);
    }
}

// The greatest key of stretch k is w from now on.
pub fn refresh(dist: &[i32], marks: &[u8], offsets: &mut [u8], tree: &mut [u64], k: usize, w: u64)
    requires { Refreshing dist.now offsets.old tree.old k w }
    ensures { Refreshed (marked marks.now).hurried dist.now offsets.old offsets.new tree.old
        tree.new k w }
{
    let h = offsets::count_groups(dist.len());
    offsets[k] = offsets::offset_of(w);
    let v = offsets::group_key(dist, marks, offsets, k / GROUP);
    winners::replace(tree, h, k / GROUP, v);
}
