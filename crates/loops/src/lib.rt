// What loops over a grid's voxels share: laws (element by element, row by row, below an index), searches for a byte, and bytes joined.
#![tactic(auto)]

ghost use Rattle.std.specs.Prelude.{◌≡◌, ◌≤◌, eqb, length, MatchOption};
ghost use Rattle.cells.specs.Groups.{any};
ghost use Rattle.loops.specs.Searches.{Absent, Passed, First, Last};
ghost use Rattle.loops.specs.Joined.{Joined};

// Whether v stands among the bytes: without a branch and to the end, so that a compiler looks at many bytes at a time.
fn stands(bytes: &[u8], v: u8) -> bool
    ensures { result ≡ any (λ b. eqb b v) bytes.now }
{
    bytes.iter().fold(false, |found, b| found | (*b == v))
}

// Where a search that passes over 64 bytes at a time stops: the 64 bytes from there on have v, or are not all before end. The first of them is looked
// at by itself, since in a run of v each search ends where it starts.
fn passed(bytes: &[u8], v: u8, first: usize, end: usize) -> usize
    requires { (first ≤ end) × (end ≤ length bytes.now) }
    ensures { Passed bytes.now v first end result }
{
    let mut i = first;
    // a `while`, since each step is 64 bytes
    while (64 <= end - i) && (bytes[i] != v) && !stands(&bytes[i..i + 64], v) {
        i += 64;
    }
    i
}

// The first index from first up to end at which v stands.
pub fn first_of(bytes: &[u8], v: u8, first: usize, end: usize) -> Option<usize>
    requires { (first ≤ end) × (end ≤ length bytes.now) }
    ensures { MatchOption result (Absent bytes.now v first end) (λ i. First bytes.now v first end i) }
{
    let start = passed(bytes, v, first, end);
    let rest = &bytes[start..end];
    rest.iter().position(|b| *b == v).map(|at| start + at)
}

// The last index from first up to end at which v stands.
pub fn last_of(bytes: &[u8], v: u8, first: usize, end: usize) -> Option<usize>
    requires { (first ≤ end) × (end ≤ length bytes.now) }
    ensures { MatchOption result (Absent bytes.now v first end) (λ i. Last bytes.now v first end i) }
{
    let rest = &bytes[first..end];
    rest.iter().rposition(|b| *b == v).map(|at| first + at)
}

// The bits that some byte from first up to end has: without a branch, so that a compiler joins many bytes at a time.
pub fn joined(bytes: &[u8], first: usize, end: usize) -> u8
    requires { (first ≤ end) × (end ≤ length bytes.now) }
    ensures { Joined bytes.now first end result }
{
    bytes[first..end].iter().fold(0, |all, b| all | b)
}
