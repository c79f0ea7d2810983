// A removal list's entries in the lent status bytes. An entry takes its voxel out: bit 0 of the byte is cleared, and bit 1 stays as lent. So the list
// itself says what to put back.
#![tactic(auto)]

ghost use Rattle.std.specs.Prelude.{◌≡◌, ◌+◌, ◌*◌, ◌≤◌, length};
ghost use Rattle.judging.specs.Judge.{entry_length};
ghost use Rattle.entries.specs.Entries.{index_of, put_back, Listed};

use words::Width;

// The voxel of entry r.
pub fn index_of(list: &[u8], r: usize) -> usize
    requires { entry_length * r + entry_length ≤ length list.now }
    ensures { result ≡ index_of list.now r }
{
    words::word(list, 6 * r + 2, Width::Four) as usize
}

// The voxels of the first entries put back, the last one first.
pub fn put_back(status: &mut [u8], list: &[u8], entries: usize)
    requires { Listed list.now entries (length status.old) }
    ensures { status.new ≡ put_back list.now entries status.old }
{
    for r in (0..entries).rev() {
        let i = index_of(list, r);
        status[i] |= 1;
    }
}
