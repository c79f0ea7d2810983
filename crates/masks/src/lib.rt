// The pending voxels of a stretch of voxels as the bits of one number, read eight bytes at a time.
#![tactic(auto)]

ghost use Rattle.std.specs.Prelude.{◌≡◌, ℕ, ◌+◌, ◌-◌, ◌*◌, ◌^◌, ◌≤◌, ◌<◌, length};
ghost use Rattle.bits.specs.Bits.{has, bits};
ghost use Rattle.rules.specs.Status.{is_pending};
ghost use Rattle.masks.specs.Bits.{width, Loaded, crossed, partner, Exchange};

// How many voxels make a stretch.
pub const WIDTH: usize = 64;

// Eight bytes as one number, the first the lowest.
fn load8(s: &[u8], at: usize) -> u64
    requires { at + 8 ≤ length s.now }
    ensures { Loaded 8 s.now at result }
{
    u64::from_le_bytes([
        s[at],
        s[at + 1],
        s[at + 2],
        s[at + 3],
        s[at + 4],
        s[at + 5],
        s[at + 6],
        s[at + 7],
    ])
}

// Bit 8 b + c says whether voxel at + 8 c + b is pending.
fn across(status: &[u8], at: usize) -> u64
    requires { at + 64 ≤ length status.now }
    ensures { (t : ℕ) → t < 64 → has result t ≡ is_pending status.now (at + crossed t) }
{
    (load8(status, at) & 0x0202020202020202) >> 1
        | (load8(status, at + 8) & 0x0202020202020202)
        | (load8(status, at + 16) & 0x0202020202020202) << 1
        | (load8(status, at + 24) & 0x0202020202020202) << 2
        | (load8(status, at + 32) & 0x0202020202020202) << 3
        | (load8(status, at + 40) & 0x0202020202020202) << 4
        | (load8(status, at + 48) & 0x0202020202020202) << 5
        | (load8(status, at + 56) & 0x0202020202020202) << 6
}

// Each bit of the mask and the bit s above it change places.
fn exchange(x: u64, mask: u64, s: u64) -> u64
    requires { Exchange mask s }
    ensures { (c : ℕ) → c < 64 → has result c ≡ has x (partner mask s c) }
{
    let t = (x ^ x >> s) & mask;
    x ^ t ^ t << s
}

// The pending voxels of a whole stretch, by their bits: the transpose of an eight by eight matrix of bits (Warren, Hacker's Delight, 7-3). Of
// a stretch with none, as those beyond the box around S are, nothing is transposed.
fn whole(status: &[u8], at: usize) -> u64
    requires { at + 64 ≤ length status.now }
    ensures { (t : ℕ) → t < 64 → has result t ≡ is_pending status.now (at + t) }
{
    let x = across(status, at);
    if x == 0 {
        0
    } else {
        let near = exchange(x, 0x00AA00AA00AA00AA, 7);
        let far = exchange(near, 0x0000CCCC0000CCCC, 14);
        exchange(far, 0x00000000F0F0F0F0, 28)
    }
}

// The pending voxels from at to the last, fewer than a stretch has.
fn rest(status: &[u8], at: usize) -> u64
    requires { (at ≤ length status.now) × (length status.now < at + 64) }
    ensures { result ≡ bits (length status.now - at) (λ c. is_pending status.now (at + c)) }
{
    let mut m: u64 = 0;
    for j in (at..status.len()).rev() {
        m = m * 2 + status::pending_bit(status[j]);
    }
    m
}

// The pending voxels of the stretch from at on, which may end early.
pub fn pending_bits(status: &[u8], at: usize) -> u64
    requires { at ≤ length status.now }
    ensures { (t : ℕ) → t < width → has result t ≡ is_pending status.now (at + t) }
{
    if WIDTH <= status.len() - at {
        whole(status, at)
    } else {
        rest(status, at)
    }
}
