// The 26-neighbour test of document 01, of a block given by value. Its touched cells are the bits of one number, two apart, at twice
// x + 3 y + 9 z; masked counts of ones give their kinds, the rank of the touched edges gives their groups, and six of the bits the lowest
// numbered bare face.
#![tactic(auto)]

ghost use Rattle.std.specs.Prelude.{◌≡◌, not, ◌+◌, ◌≤◌};
ghost use Rattle.cells.specs.Cells.{bit, numbered_faces, before, test, passes};
ghost use Rattle.cells.specs.Faces.{face_at};
ghost use Rattle.closed_sets.specs.Rank.{rank_of3, rank_of4};
ghost use Rattle.bits.specs.Bits.{has, bits};
ghost use Rattle.touched_cells.specs.Block.{Rows, kept_in, kept_of};
ghost use Rattle.local_test.specs.Answers.{as_test, GroupsOf};
ghost use Rattle.local_test.specs.Touched.{Touched, TouchedGroups, odd_rank, cells_of};

// The groups of touched cells and of bare ones, and the lowest numbered bare face, or 6.
#[derive(Clone, Copy)]
pub struct Groups {
    pub k: u32,
    pub m: u32,
    pub face: u32,
}

// The same, and the kinds of the touched cells. It is laid out as C has it, so that a call from C hands it back as it is.
#[repr(C)]
#[derive(Clone, Copy)]
pub struct Local {
    pub k: u32,
    pub m: u32,
    pub corners: u32,
    pub edges: u32,
    pub faces: u32,
    pub face: u32,
}

// The low bit.
fn low(x: u64) -> u32
    ensures { (result ≡ bit (has x 0)) × (result ≤ 1) }
{
    (x & 1) as u32
}

// The rank of three corners, joined two by two where a low bit is set.
fn rank_of_3(ab: u64, ac: u64, bc: u64) -> u32
    ensures { (result ≡ rank_of3 (has ab 0) (has ac 0) (has bc 0)) × (result ≤ 2) }
{
    low(ab | ac) + low(bc | ab & ac)
}

// The rank of four corners: those that the last is joined to are joined through it.
fn rank_of_4(ab: u64, ac: u64, bc: u64, ad: u64, bd: u64, cd: u64) -> u32
    ensures { (result ≡ rank_of4 (has ab 0) (has ac 0) (has bc 0) (has ad 0) (has bd 0) (has cd 0)) × (result ≤ 3) }
{
    low(ad | bd | cd) + rank_of_3(ab | ad & bd, ac | ad & cd, bc | bd & cd)
}

// The rank of the odd corners 2, 6, 18 and 26, which two edges at an even corner, 0, 8, 20 or 24, join.
fn odd_rank(x: u64, y: u64, z: u64) -> u32
    ensures { (result ≡ odd_rank (cells_of x) (cells_of y) (cells_of z)) × (result ≤ 3) }
{
    let xy = x & y;
    let xz = x & z;
    let yz = y & z;
    rank_of_4(
        xy | xy >> 16,
        xz | xz >> 40,
        yz | yz >> 48,
        yz >> 16 | yz >> 40,
        xz >> 16 | xz >> 48,
        xy >> 40 | xy >> 48,
    )
}

// k: the touched corners, less those that the touched edges save. An edge is looked at from both of its corners; an even corner with an edge is
// touched and saved, so it is left out of the count.
fn touched_groups(t: u64) -> u32
    requires { Touched t }
    ensures { TouchedGroups t result }
{
    let along_x = t & 0x04004000004004;
    let along_y = t & 0x00440000000440;
    let along_z = t & 0x00000440440000;
    let x = along_x << 2 | along_x >> 2;
    let y = along_y << 6 | along_y >> 6;
    let z = along_z << 18 | along_z >> 18;
    let edged = (x | y | z) & 0x01010000010001;
    u64::count_ones(t & 0x11011000011011 ^ edged) - odd_rank(x, y, z)
}

// m from k and the counts, by document 02's formula: no bare cell is looked at.
fn bare_groups(k: u32, corners: u32, edges: u32, faces: u32) -> u32
    requires { (corners + faces ≤ k + 1 + edges) × (k + edges ≤ 62) }
    ensures { result + corners + faces ≡ k + 1 + edges }
{
    k + 1 + edges - corners - faces
}

// The touched faces, each at its number: low x, high x, low y, high y, low z, high z.
fn face_bits(t: u64) -> u64
    ensures { result ≡ bits 6 (λ n. cells_of t (face_at n)) }
{
    (t >> 24 & 1) + (t >> 27 & 2) + (t >> 18 & 4) + (t >> 29 & 8) + (t >> 4 & 16) + (t >> 39 & 32)
}

// The lowest numbered bare face, or 6. One more than the touched ones has its lowest 1 where their lowest 0 was.
fn bare_face(t: u64) -> u32
    ensures { result ≡ before (λ c. not (cells_of t c)) numbered_faces }
{
    u64::trailing_zeros(face_bits(t) + 1)
}

// The whole test. Two functions go by it, and each is to have it in place: by a call of its own C's local test took a third more time.
#[inline(always)]
pub fn local_test(block: [[u8; 3]; 3]) -> Local
    requires { Rows block }
    ensures { as_test result ≡ test (kept_in block) }
{
    let t = touched_cells::touched(block);
    let k = touched_groups(t);
    let corners = u64::count_ones(t & 0x11011000011011);
    let edges = u64::count_ones(t & 0x04444440444444);
    let faces = u64::count_ones(t & 0x00100111100100);
    Local {
        k,
        m: bare_groups(k, corners, edges, faces),
        corners,
        edges,
        faces,
        face: bare_face(t),
    }
}

// k, m and the face alone.
pub fn groups_of(block: [[u8; 3]; 3]) -> Groups
    requires { Rows block }
    ensures { GroupsOf (test (kept_in block)) result }
{
    let Local { k, m, face, .. } = local_test(block);
    Groups { k, m, face }
}

// Whether k = 1 and m = 1, by the statuses side by side. Most that do not pass fail by the Euler count alone, so it is asked first. The mask tells
// the compiler that every other bit is 0.
fn passes_code(code: u64) -> bool
    ensures { result ≡ passes (test (kept_of code)) }
{
    let t = touched_cells::spread(code);
    if u64::count_ones((t ^ 0x04444440444444) & 0x15555555555555) != 13 {
        return false;
    }
    touched_groups(t) == 1
}

// Whether the middle of a block may go. It is small, so that the compiler sets it in place and the block costs no more than the one number.
pub fn passes(block: [[u8; 3]; 3]) -> bool
    requires { Rows block }
    ensures { result ≡ passes (test (kept_in block)) }
{
    passes_code(touched_cells::code_of(block))
}
