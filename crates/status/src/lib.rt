// A status byte: bit 0 says that its voxel is kept, bit 1 that it is pending. Code asks for these bits and changes them by the functions here.
#![tactic(auto)]

ghost use Rattle.std.specs.Prelude.{◌≡◌, true, cond, ◌≤◌};
ghost use Rattle.cells.specs.Cells.{bit};
ghost use Rattle.rules.specs.Status.{kept_byte, pending_byte, woken, rested};

pub fn is_kept(x: u8) -> bool
    ensures { result ≡ kept_byte x }
{
    x % 2 == 1
}

pub fn is_pending(x: u8) -> bool
    ensures { result ≡ pending_byte x }
{
    x / 2 % 2 == 1
}

// The bits as numbers, to be counted or put together.
pub fn kept_bit(x: u8) -> u64
    ensures { (result ≡ bit (kept_byte x)) × (result ≤ 1) }
{
    u64::from(is_kept(x))
}

pub fn pending_bit(x: u8) -> u64
    ensures { (result ≡ bit (pending_byte x)) × (result ≤ 1) }
{
    u64::from(is_pending(x))
}

// The byte made pending, whether it was or not.
pub fn woken(x: u8) -> u8
    ensures { result ≡ woken x }
{
    x | 2
}

// A pending voxel's byte made not pending.
pub fn rested(x: u8) -> u8
    requires { pending_byte x ≡ true }
    ensures { result ≡ rested x }
{
    x - 2
}

// What an examination leaves of a pending voxel's byte: that of a voxel gone, or the byte made not pending.
pub fn left(gone: bool, x: u8) -> u8
    requires { pending_byte x ≡ true }
    ensures { result ≡ cond gone 0 (rested x) }
{
    if gone { 0 } else { rested(x) }
}
