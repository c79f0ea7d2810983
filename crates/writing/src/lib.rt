// Write, of document 02's CR 1: a grid as the bytes of a grid file, into a lent buffer. A refusal is known before the first byte is written.
#![tactic(auto)]

ghost use Rattle.std.specs.Prelude.{◌≡◌, ◌++◌, true, ◌+◌, ◌*◌, ◌≤◌, length, take, drop};
ghost use Rattle.prelude.specs.Lists.{any};
ghost use Rattle.rules.specs.Value.{stray};
ghost use Rattle.rules.specs.Grid.{fit_sides};
ghost use Rattle.rules.specs.Checks.{first_failing};
ghost use Rattle.rules.specs.Refusals.{number_in, replied};
ghost use Rattle.rules.specs.Answer.{outcome};
ghost use Rattle.words.specs.Widths.{bytes_in};
ghost use Rattle.format.specs.Layer.{layer_length};
ghost use Rattle.format.specs.File.{header_length};
ghost use Rattle.format.specs.Written as spec;
ghost use Rattle.format.specs.Written.{width_for, layers_form, written_form, written_length, size_checks};
ghost use Rattle.writing.specs.Room.{Room};

use rules::{Refusal, Sides};
use words::Width;

// ---- how wide it is, and how long

// Two bytes a value where all measured values can be said so, else four.
fn width_for(values: &[i32]) -> Width
    ensures { bytes_in result ≡ width_for values.now }
{
    if values::any_long(values) {
        Width::Four
    } else {
        Width::Two
    }
}

fn written_length(sides: Sides, width: Width) -> usize
    requires { fit_sides sides ≡ true }
    ensures { result ≡ header_length + sides.c * layer_length sides (bytes_in width) }
{
    7 + sides.c * layers::layer_length(sides, width)
}

// ---- the written form

// Writes the layer records, behind the header.
fn write_layers(sides: Sides, width: Width, values: &[i32], file: &mut [u8])
    requires { (Room sides values.now (length file.old)) × (bytes_in width ≡ width_for values.now) }
    ensures { file.new
        ≡ (take header_length file.old ++ layers_form sides (bytes_in width) values.now sides.c)
        ++ drop (written_length sides values.now) file.old }
{
    let count = layers::area(sides);
    let total = layers::layer_length(sides, width);
    let mut start = 7;
    for z in 0..sides.c {
        let at = z * count;
        file_records::write_layer(
            width,
            z as u8,
            &values[at..at + count],
            &mut file[start..start + total],
        );
        start += total;
    }
}

fn write_file(sides: Sides, allowed: u16, width: Width, values: &[i32], file: &mut [u8])
    requires { (Room sides values.now (length file.old)) × (bytes_in width ≡ width_for values.now) }
    ensures { file.new
        ≡ written_form sides allowed values.now ++ drop (written_length sides values.now) file.old }
{
    file_records::write_header(sides, allowed, file);
    write_layers(sides, width, values, file);
}

// ---- write

// Checks 1 and 2, before any value is looked at, since there may be far too many: the first that fails.
fn size_refusal(sides: Sides, values: &[i32]) -> Result<(), Refusal>
    ensures { number_in result ≡ first_failing (size_checks sides values.now) }
{
    if !sizes::fit_sides(sides) {
        return Err(Refusal::Side);
    }
    if values.len() != sizes::voxel_count(sides) {
        return Err(Refusal::Length);
    }
    Ok(())
}

// Whether a value is neither in the range nor missing. Where the values fit two bytes none is.
fn any_stray(values: &[i32], width: Width) -> bool
    requires { bytes_in width ≡ width_for values.now }
    ensures { result ≡ any stray values.now }
{
    match width {
        Width::Two => false,
        Width::Four => values::any_beyond(values, 1000000000),
    }
}

// The answer is the file's length.
pub fn write(sides: Sides, allowed: u16, values: &[i32], file: &mut [u8]) -> Result<usize, Refusal>
    ensures { outcome (replied result) file.new ≡ spec.write sides allowed values.now file.old }
{
    size_refusal(sides, values)?;
    let width = width_for(values);
    if any_stray(values, width) {
        return Err(Refusal::Value);
    }
    let length = written_length(sides, width);
    if file.len() < length {
        return Err(Refusal::Room);
    }
    write_file(sides, allowed, width, values, file);
    Ok(length)
}
