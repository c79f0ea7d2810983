// The front: a short falling list of keys from a head on, ended by a 0, so that only the head is handed about. A key is put in its place by moving
// the greater ones, mostly few, down by one; and the greatest keys of a stretch make a new list.
#![tactic(auto)]

ghost use Rattle.std.specs.Prelude.{◌≡◌, cond, ℕ, ◌-◌, ◌≤◌, ◌<◌, ltb, length, get_or};
ghost use Rattle.rules.specs.Marks.{marked};
ghost use Rattle.keys.specs.Key.{key_at};
ghost use Rattle.front.specs.Front.{Falling, Inserted, Parting, Parted};

use keys::WIDTH;

// How many places are free before the first key of a new list.
pub const LEAD: usize = 48;

// Puts w in its place before or among the keys from head on, and gives the new head.
pub fn insert(front: &mut [u64], head: usize, w: u64) -> usize
    requires { (1 ≤ head) × Falling front.old head }
    ensures { Inserted front.old front.new head w × (result ≡ head - 1) }
{
    let mut p = head;
    // the place is where the greater keys, moved on the way, end
    while w < front[p] {
        front[p - 1] = front[p];
        p += 1;
    }
    front[p - 1] = w;
    head - 1
}

// Where the list from head on ends.
pub fn end_of(front: &[u64], head: usize) -> usize
    requires { Falling front.now head }
    ensures { (head ≤ result) × (result < length front.now) × (get_or front.now result 0 ≡ 0)
        × ((p : ℕ) → head ≤ p → p < result → 0 < get_or front.now p 0) }
{
    head + front[head..].iter().take_while(|key| **key != 0).count()
}

// The key, or 0 where it is above the floor.
fn up_to(floor: u64, x: u64) -> u64
    ensures { result ≡ cond (ltb floor x) 0 x }
{
    if floor < x { 0 } else { x }
}

// Makes a new list of the keys of stretch k above the floor, which fall with the index, and gives the greatest of the others. Every key is written
// behind the list, and belongs to it only where it is above the floor: so no branch hangs on it.
pub fn part(
    dist: &[i32],
    marks: &[u8],
    status: &[u8],
    front: &mut [u64],
    k: usize,
    floor: u64,
) -> u64
    requires { Parting (marked marks.now).hurried dist.now status.now front.old k floor }
    ensures { Parted (key_at (marked marks.now).hurried dist.now status.now) front.new k floor result }
{
    let at = WIDTH * k;
    let mut e = LEAD;
    let mut g: u64 = 0;
    let mut m = masks::pending_bits(status, at);
    // each turn takes the lowest bit
    while 0 < m {
        let x = keys::voxel_key(dist, marks, at + bits::lowest(m));
        front[e] = x;
        e += usize::from(floor < x);
        g = g.max(up_to(floor, x));
        m &= m - 1;
    }
    front[e] = 0;
    g
}
