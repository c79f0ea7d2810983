// A voxel is gone, and the kept voxels that touch it and may go become pending: by the bits of its neighbourhood.
#![tactic(auto)]

ghost use Rattle.std.specs.Prelude.{◌≡◌, ◌<◌, length};
ghost use Rattle.rules.specs.Status.{without};
ghost use Rattle.rules.specs.Marks.{marked};
ghost use Rattle.rules.specs.Machine.{may_go};
ghost use Rattle.bits.specs.Bits.{bits};
ghost use Rattle.touched_cells.specs.Block.{Rows, code_in};
ghost use Rattle.neighbourhood.specs.Neighbourhood.{offset};
ghost use Rattle.waking.specs.Waking.{idle_bit, woken_if, Woken, Only, AtBits, from_voxel, Position, Callable, Removable};

use rules::Sides;

// The positions that can wake, two bits apart: kept and not pending; the middle one never does.
pub fn idle_bits(block: [[u8; 3]; 3]) -> u64
    requires { Rows block }
    ensures { result ≡ bits 54 (idle_bit (code_in block)) }
{
    let code = touched_cells::code_of(block);
    let kept = code & 0x0015555551555555;
    kept ^ (kept & code >> 1)
}

// How far position p lies from position 0.
pub fn offset(a: usize, l: usize, p: usize) -> usize
    requires { Position a l p }
    ensures { result ≡ offset a l p }
{
    p % 3 + a * (p / 3 % 3) + l * (p / 9)
}

// Whether voxel j may go: it is outside S and not pinned.
pub fn may_go(dist: &[i32], marks: &[u8], j: usize) -> bool
    requires { j < length dist.now }
    ensures { result ≡ may_go (marked marks.now) dist.now j }
{
    let d = dist[j];
    let p = marks::pinned(marks, j);
    !((d < 0) | p)
}

// Bit 1 is set where the distance is not negative and the voxel is not pinned.
fn woken_status(d: i32, pinned: bool, x: u8) -> u8
    ensures { result ≡ woken_if d pinned x }
{
    if (d < 0) | pinned {
        x
    } else {
        status::woken(x)
    }
}

fn wake_one(dist: &[i32], marks: &[u8], status: &mut [u8], j: usize)
    requires { (j < length status.old) × (length dist.now ≡ length status.old) }
    ensures { Woken (Only (may_go (marked marks.now) dist.now) j) status.old status.new }
{
    let d = dist[j];
    let p = marks::pinned(marks, j);
    status[j] = woken_status(d, p, status[j]);
}

// Wakes the voxels at the positions of the set bits, from voxel at on.
fn wake(dist: &[i32], marks: &[u8], status: &mut [u8], a: usize, l: usize, at: usize, idle: u64)
    requires { Callable a l at idle (length status.old) × (length dist.now ≡ length status.old) }
    ensures { Woken (AtBits (may_go (marked marks.now) dist.now) idle (from_voxel a l at)) status.old status.new }
{
    let mut m = idle;
    // a `while`, since each step drops the lowest set bit
    while 0 < m {
        let p = bits::lowest(m) / 2;
        wake_one(dist, marks, status, at + offset(a, l, p));
        m &= m - 1;
    }
}

// Voxel i is gone, and every kept voxel that touches it and may go is pending.
pub fn remove(s: Sides, dist: &[i32], marks: &[u8], status: &mut [u8], i: usize)
    requires { Removable s dist.now status.old i }
    ensures { status.new ≡ without s (may_go (marked marks.now) dist.now) status.old i }
{
    let idle = idle_bits(neighbourhood::gather(s, status, i));
    let at = neighbourhood::first_around(s, i);
    status[i] = 0;
    wake(dist, marks, status, s.a, s.a * s.b, at, idle);
}
