// What the entries of a removal list come to so far, and one entry more.
#![tactic(auto)]

ghost use Rattle.std.specs.Prelude.{◌≡◌, ◌*◌};
ghost use Rattle.rules.specs.Status.{is_kept};
ghost use Rattle.judging.specs.Judge.{entry_length, entry_at};
ghost use Rattle.entries.specs.Entries.{index_of, taken_out};
ghost use Rattle.tallies.specs.Counts.{entry, tally_after, Countable, Stepping};

use rules::Sides;

// Voxels removed, openings among them, the Euler number, and the entry of the last opening: no voxel passed there.
#[derive(Clone, Copy)]
pub struct Tally {
    pub removed: usize,
    pub opened: u32,
    pub euler: i32,
    pub last: usize,
}

// One voxel more is removed. An opening counts, and changes the Euler number by k - m.
fn tally_after(s: Sides, status: &[u8], i: usize, opens: bool, t: Tally) -> Tally
    requires { Countable s status.now i t }
    ensures { result ≡ tally_after s (is_kept status.now) (entry opens i) t }
{
    if !opens {
        return Tally {
            removed: t.removed + 1,
            ..t
        };
    }
    let g = neighbourhood::groups_at(s, status, i);
    Tally {
        removed: t.removed + 1,
        opened: t.opened + 1,
        euler: t.euler + counting::change(g.k, g.m),
        last: t.removed,
    }
}

// The voxel of the next entry goes.
pub fn step(s: Sides, status: &mut [u8], list: &[u8], t: Tally) -> Tally
    requires { Stepping s status.old list.now t }
    ensures { (result ≡ tally_after s (is_kept status.old) (entry_at list.now (entry_length * t.removed)) t)
        × (status.new ≡ taken_out status.old (index_of list.now t.removed)) }
{
    let i = entries::index_of(list, t.removed);
    let opens = words::is_tagged(list, 6 * t.removed, 0x4F);
    let next = tally_after(s, status, i, opens, t);
    status[i] -= 1;
    next
}
