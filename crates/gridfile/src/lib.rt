// Read, of documents 01 and 02: the header, the layer records, then the patches. A refusal is known before the first value is written.
#![tactic(auto)]

ghost use Rattle.std.specs.Prelude.{◌≡◌, true, ◌≤◌, length};
ghost use Rattle.rules.specs.Grid.{fit_sides, size};
ghost use Rattle.rules.specs.Checks.{first_failing};
ghost use Rattle.rules.specs.Refusals.{number_in, replied};
ghost use Rattle.rules.specs.Answer.{outcome};
ghost use Rattle.format.specs.File as spec;
ghost use Rattle.format.specs.File.{header_length, sides_in, fit_up_to, header_checks, record_checks, records_checks, filled, read_checks, Accepted, read_up_to};

use format::Header;
use rules::{Refusal, Sides};
use words::Width;

// ---- the header

pub fn sides_in(file: &[u8]) -> Sides
    requires { header_length ≤ length file.now }
    ensures { result ≡ sides_in file.now }
{
    Sides {
        a: usize::from(file[2]),
        b: usize::from(file[3]),
        c: usize::from(file[4]),
    }
}

// No side is outside 3 to greatest.
pub fn fit_up_to(sides: Sides, greatest: usize) -> bool
    ensures { result ≡ fit_up_to greatest sides }
{
    sizes::fit_sides(sides)
        & ((sides.a <= greatest) & ((sides.b <= greatest) & (sides.c <= greatest)))
}

// The checks of the header, for a value buffer of that length, the first that fails.
fn header_refusal(file: &[u8], lent: usize, greatest: usize) -> Result<(), Refusal>
    ensures { number_in result ≡ first_failing (header_checks greatest file.now lent) }
{
    if file.len() < 7 {
        return Err(Refusal::Short);
    }
    if !words::is_tagged(file, 0, 0x48) {
        return Err(Refusal::Mark);
    }
    let sides = sides_in(file);
    if !fit_up_to(sides, greatest) {
        return Err(Refusal::Side);
    }
    if lent != sizes::voxel_count(sides) {
        return Err(Refusal::Length);
    }
    Ok(())
}

// ---- the layer records

// The checks of the record at start where layer next is due, the first that fails.
fn record_refusal(sides: Sides, file: &[u8], start: usize, next: usize) -> Result<(), Refusal>
    requires { fit_sides sides ≡ true }
    ensures { number_in result ≡ first_failing (record_checks sides file.now start next) }
{
    layers::layer_refusal(sides, file, start)?;
    let z = usize::from(file[start + 2]);
    if z < next {
        return Err(Refusal::LayerTwice);
    }
    if z != next {
        return Err(Refusal::LayerOrder);
    }
    if layers::has_stray(sides, file, start) {
        return Err(Refusal::Value);
    }
    Ok(())
}

// The checks of the records, each layer record before the next, then the patches behind them, in a grid of n voxels: the first that fails.
fn records_refusal(sides: Sides, n: usize, file: &[u8]) -> Result<(), Refusal>
    requires { (fit_sides sides ≡ true) × (n ≡ size sides) }
    ensures { number_in result ≡ first_failing (records_checks sides file.now) }
{
    let mut start = 7;
    for next in 0..sides.c {
        record_refusal(sides, file, start, next)?;
        start += layers::record_length(sides, file, start);
    }
    patches::patches_refusal(n, file, start)
}

// The values of all layer records, with the patches applied. All were checked.
fn fill(sides: Sides, file: &[u8], values: &mut [i32])
    requires { Accepted sides file.now (length values.old) }
    ensures { values.new ≡ filled sides file.now values.old }
{
    let mut start = 7;
    for _layer in 0..sides.c {
        start = layers::fill_record(sides, file, start, values);
    }
    patches::apply_patches(file, start, values);
}

// ---- read

// The checks of a file, for a value buffer of that length, the first that fails.
fn refusal(file: &[u8], lent: usize, greatest: usize) -> Result<(), Refusal>
    ensures { number_in result ≡ first_failing (read_checks greatest file.now lent) }
{
    header_refusal(file, lent, greatest)?;
    records_refusal(sides_in(file), lent, file)
}

// Read, for sides up to the greatest that the caller takes.
pub fn read_up_to(file: &[u8], values: &mut [i32], greatest: usize) -> Result<Header, Refusal>
    ensures { outcome (replied result) values.new ≡ read_up_to greatest file.now values.old }
{
    refusal(file, values.len(), greatest)?;
    let sides = sides_in(file);
    fill(sides, file, values);
    Ok(Header {
        sides,
        allowed: words::word(file, 5, Width::Two) as u16,
    })
}

pub fn read(file: &[u8], values: &mut [i32]) -> Result<Header, Refusal>
    ensures { outcome (replied result) values.new ≡ spec.read file.now values.old }
{
    read_up_to(file, values, 64)
}
