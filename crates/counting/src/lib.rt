// The record's counts, which every call that works on a grid hands back.
#![tactic(auto)]

ghost use Rattle.std.specs.Prelude.{◌≡◌, ◌≤◌, pos, ◌-ℤ◌};
ghost use Rattle.rules.specs.Machine.{count};
ghost use Rattle.counting.specs.Counting.{Countable};

use rules::Record;

// k - m, by which an opening changes the Euler number.
pub fn change(k: u32, m: u32) -> i32
    requires { (k ≤ 26) × (m ≤ 26) }
    ensures { result ≡ pos k -ℤ pos m }
{
    k as i32 - m as i32
}

// The record after so many more examinations, removals and openings, and a change of the Euler number.
pub fn counted(given: Record, examined: u32, removed: u32, opened: u32, change: i32) -> Record
    requires { Countable given opened change }
    ensures { result ≡ count given examined removed opened change }
{
    Record {
        openings: given.openings + opened,
        removals: given.removals + u64::from(removed),
        examinations: given.examinations + u64::from(examined),
        euler: given.euler + change,
        ..given
    }
}
