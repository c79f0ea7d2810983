// The header and a layer record of the grid file in their written form, as bytes of a lent buffer.
#![tactic(auto)]

ghost use Rattle.std.specs.Prelude.{◌≡◌, ◌++◌, true, ◌+◌, ◌*◌, ◌≤◌, length, drop};
ghost use Rattle.rules.specs.Grid.{fit_sides};
ghost use Rattle.words.specs.Widths.{bytes_in};
ghost use Rattle.std.proofs.lemmas.List.Edits.{sets};
ghost use Rattle.format.specs.Bytes.{half, Holds, value_bytes};
ghost use Rattle.format.specs.Layer.{kind_of};
ghost use Rattle.format.specs.File.{header_length};
ghost use Rattle.format.specs.Written.{header_form, Held, values_form, layer_form};

use rules::Sides;
use words::Width;

fn kind_of(width: Width) -> u8
    ensures { result ≡ kind_of (bytes_in width) }
{
    match width {
        Width::Two => 0x4C,
        Width::Four => 0x57,
    }
}

pub fn write_header(sides: Sides, allowed: u16, file: &mut [u8])
    requires { (fit_sides sides ≡ true) × (header_length ≤ length file.old) }
    ensures { file.new ≡ header_form sides allowed ++ drop header_length file.old }
{
    file[0] = 0x56;
    file[1] = 0x48;
    file[2] = sides.a as u8;
    file[3] = sides.b as u8;
    file[4] = sides.c as u8;
    words::put_word(file, 5, Width::Two, u32::from(allowed));
}

// Puts a value at index i. The whole place is reckoned behind the test of the width, so that a compiler makes a loop for each.
fn put_value_at(bytes: &mut [u8], width: Width, i: usize, v: i32)
    requires { (bytes_in width * i + bytes_in width ≤ length bytes.old) × (Holds (half (bytes_in width)) v) }
    ensures { bytes.new ≡ sets bytes.old (bytes_in width * i) (value_bytes (bytes_in width) v) }
{
    match width {
        Width::Two => words::put_value(bytes, 2 * i, Width::Two, v),
        Width::Four => words::put_value(bytes, 4 * i, Width::Four, v),
    }
}

// Writes values, each of that width.
fn write_values(width: Width, values: &[i32], bytes: &mut [u8])
    requires { (Held (bytes_in width) values.now) × (length bytes.old ≡ bytes_in width * length values.now) }
    ensures { bytes.new ≡ values_form (bytes_in width) values.now }
{
    for (i, v) in values.iter().enumerate() {
        put_value_at(bytes, width, i, *v);
    }
}

// The record of layer z.
pub fn write_layer(width: Width, z: u8, values: &[i32], bytes: &mut [u8])
    requires { (Held (bytes_in width) values.now) × (length bytes.old ≡ 3 + bytes_in width * length values.now) }
    ensures { bytes.new ≡ layer_form (bytes_in width) z values.now }
{
    bytes[0] = 0x56;
    bytes[1] = kind_of(width);
    bytes[2] = z;
    write_values(width, values, &mut bytes[3..]);
}
