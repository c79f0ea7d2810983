// The marks of blocks, document 02's CR 10: "A block is pinned if any of its voxels is". Row of blocks by row.
#![tactic(auto)]

ghost use Rattle.std.specs.Prelude.{◌≡◌, ◌||◌, ◌+◌, ◌<◌, length};
ghost use Rattle.cells.specs.Groups.{any};
ghost use Rattle.rules.specs.Marks.{marked};
ghost use Rattle.coarse.specs.Blocks.{block_marks};
ghost use Rattle.blocks.specs.Work.{corners, Blocked};

use rules::Sides;

// Whether one of two voxels side by side is pinned.
fn pins_pair(marks: &[u8], at: usize) -> bool
    requires { at + 1 < length marks.now }
    ensures { result ≡ (marked marks.now).pinned at || (marked marks.now).pinned (at + 1) }
{
    marks::pins(marks[at]) | marks::pins(marks[at + 1])
}

// Whether one of a block's eight voxels is pinned: without a branch, since most marks are 0 and all eight are looked at.
fn pins_block(marks: &[u8], a: usize, l: usize, at: usize) -> bool
    requires { at + 1 + a + l < length marks.now }
    ensures { result ≡ any (marked marks.now).pinned (corners a l at) }
{
    let low = pins_pair(marks, at) | pins_pair(marks, at + a);
    low | (pins_pair(marks, at + l) | pins_pair(marks, at + a + l))
}

// The marks of all blocks: 1 for one that has a pinned voxel, else 0.
pub fn pin(pins: &mut [u8], marks: &[u8], s: Sides)
    requires { Blocked s (length marks.now) (length pins.old) }
    ensures { marked pins.new ≡ block_marks s (marked marks.now) }
{
    let l = s.a * s.b;
    blocks::fill_with(pins, s, |at: usize| {
        u8::from(pins_block(marks, s.a, l, at))
    });
}
