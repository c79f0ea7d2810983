// Kept blocks split again, document 02's CR 10: the status of all voxels, row by row from the blocks' bits. Of the six face neighbours of a voxel three
// lie in its own block and three across its outer faces, each in a block of its own: so a voxel of a kept block is exposed where one of these three
// blocks is not kept.
#![tactic(auto)]

ghost use Rattle.std.specs.Prelude.{◌≡◌, not, ◌&&◌, map, ◌+◌, ◌*◌, ◌/◌, ◌≤◌, length};
ghost use Rattle.rules.specs.Grid.{voxels, is_negative};
ghost use Rattle.rules.specs.Status.{kept_byte, is_kept};
ghost use Rattle.rules.specs.Machine.{is_inside};
ghost use Rattle.coarse.specs.Blocks.{split_body};
ghost use Rattle.coarse.specs.Coarse.{near_end};
ghost use Rattle.loops.specs.InPlace.{Each};
ghost use Rattle.loops.specs.Rows.{Row};
ghost use Rattle.splitting.specs.Split.{across as across_of, block_row, Small, byte_by, byte_of, Near, Paired, pair_byte, Splittable};

use rules::Sides;

// Along an axis, the block across the outer face of a voxel: before its own where the coordinate is even, after it where it is odd.
fn across(x: usize) -> usize
    requires { (2 ≤ x) × (x ≤ 64) }
    ensures { result ≡ across_of x }
{
    x / 2 + x % 2 * 2 - 1
}

// Where a row of blocks begins.
fn block_row(s: Sides, y: usize, z: usize) -> usize
    requires { Small s y z }
    ensures { result ≡ block_row s y z }
{
    s.a / 2 * (y + s.b / 2 * z)
}

// Whether a coordinate is one of the first two or of the last two along its axis, so that its block lies on the border.
fn near_end(n: usize, x: usize) -> bool
    requires { x ≤ 64 }
    ensures { result ≡ near_end n x }
{
    x < 2 || n < x + 3
}

// The status of a voxel, by its block's byte, those of the blocks across its outer faces joined, and its distance: without a branch, so that a compiler
// does many voxels at a time.
fn byte(own: u8, near: u8, d: i32) -> u8
    ensures { result ≡ byte_by (kept_byte own) (not (kept_byte near)) (is_negative d) }
{
    let kept = status::is_kept(own);
    let waits = kept & !status::is_kept(near) & (d >= 0);
    u8::from(kept) + 2 * u8::from(waits)
}

// The status of voxel i, by the place of its block and those of the blocks across its outer faces.
fn byte_at(dist: &[i32], blocks: &[u8], i: usize, own: usize, x: usize, y: usize, z: usize) -> u8
    requires { Near (length dist.now) (length blocks.now) i own x y z }
    ensures { result ≡ byte_by (is_kept blocks.now own)
        (not (is_kept blocks.now z && (is_kept blocks.now y && is_kept blocks.now x))) (is_inside dist.now i) }
{
    byte(blocks[own], blocks[z] & (blocks[y] & blocks[x]), dist[i])
}

// A row of voxels, two of each block: its blocks begin at own, those across along y at beside, those across along z at above.
fn pairs(row: &mut [u8], dist: &[i32], blocks: &[u8], own: usize, beside: usize, above: usize)
    requires { Paired (length row.old) (length dist.now) (length blocks.now) own beside above (length row.old / 2) }
    ensures { Each 0 (λ k d. pair_byte dist.now blocks.now own beside above k) 0 (2 * (length row.old / 2)) row.old
        row.new }
{
    // each block has two voxels, and neighbours in three rows of blocks
    for b in 0..row.len() / 2 {
        let o = own + b;
        let y = beside + b;
        let z = above + b;
        row[2 * b] = byte_at(dist, blocks, 2 * b, o, o - 1, y, z);
        row[2 * b + 1] = byte_at(dist, blocks, 2 * b + 1, o, o + 1, y, z);
    }
}

// A row of voxels: blocks on the border are not kept.
fn split_row(status: &mut [u8], dist: &[i32], blocks: &[u8], s: Sides, row: usize)
    requires { Splittable s dist.now blocks.now (length status.old) × Row s (length status.old) row }
    ensures { Each 0 (λ k d. byte_of s dist.now (split_body s blocks.now) k) (s.a * row) (s.a * row + s.a)
        status.old status.new }
{
    let first = s.a * row;
    let y = row % s.b;
    let z = row / s.b;
    let end = first + s.a;
    if near_end(s.b, y) || near_end(s.c, z) {
        status[first..end].fill(0);
    } else {
        let own = block_row(s, y / 2, z / 2);
        let beside = block_row(s, across(y), z / 2);
        let above = block_row(s, y / 2, across(z));
        pairs(
            &mut status[first..end],
            &dist[first..end],
            blocks,
            own,
            beside,
            above,
        );
    }
}

// The status of all voxels, of the blocks' status and the voxels' distances: S is the voxels of negative distance, and none is marked.
pub fn split(status: &mut [u8], dist: &[i32], blocks: &[u8], s: Sides)
    requires { Splittable s dist.now blocks.now (length status.old) }
    ensures { status.new ≡ map (byte_of s dist.now (split_body s blocks.now)) (voxels s) }
{
    for row in 0..s.b * s.c {
        split_row(status, dist, blocks, s, row);
    }
}
