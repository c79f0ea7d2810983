// Patch records of the grid file: single voxels shot again. All are checked before the first is applied.
#![tactic(auto)]

ghost use Rattle.std.specs.Prelude.{◌≡◌, ◌+◌, ◌≤◌, ◌<◌, length};
ghost use Rattle.rules.specs.Checks.{first_failing, AllHold};
ghost use Rattle.rules.specs.Refusals.{number_in};
ghost use Rattle.format.specs.Patch.{patch_length, index_at, patch_checks, patches_checks, patched};

use rules::Refusal;
use words::Width;

fn index_at(file: &[u8], start: usize) -> usize
    requires { start + patch_length ≤ length file.now }
    ensures { (result ≡ index_at file.now start) × (result < 4294967296) }
{
    words::word(file, start + 2, Width::Four) as usize
}

// The checks of the record at start, in a grid of n voxels, the first that fails.
fn patch_refusal(n: usize, file: &[u8], start: usize) -> Result<(), Refusal>
    ensures { number_in result ≡ first_failing (patch_checks n file.now start) }
{
    if words::is_short(file.len(), start, 8) {
        return Err(Refusal::Short);
    }
    if !words::is_tagged(file, start, 0x50) {
        return Err(Refusal::Mark);
    }
    if n <= index_at(file, start) {
        return Err(Refusal::Index);
    }
    Ok(())
}

// The checks of the patch records from start on, each before the next, the first that fails.
pub fn patches_refusal(n: usize, file: &[u8], start: usize) -> Result<(), Refusal>
    ensures { number_in result ≡ first_failing (patches_checks n file.now start) }
{
    for at in (start..file.len()).step_by(8) {
        patch_refusal(n, file, at)?;
    }
    Ok(())
}

// Puts the values of the patch records from start on, which were checked, into the grid's, in file order.
pub fn apply_patches(file: &[u8], start: usize, values: &mut [i32])
    requires { AllHold (patches_checks (length values.old) file.now start) }
    ensures { values.new ≡ patched file.now start values.old }
{
    for at in (start..file.len()).step_by(8) {
        let i = index_at(file, at);
        values[i] = words::value(file, at + 6, Width::Two);
    }
}
