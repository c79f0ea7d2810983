// A layer record of the grid file: reading it as a part of the caller's file, and its values into the buffer of the whole grid.
#![tactic(auto)]

ghost use Rattle.std.specs.Prelude.{◌≡◌, true, ◌+◌, ◌*◌, ◌≤◌, length};
ghost use Rattle.prelude.specs.Lists.{any};
ghost use Rattle.rules.specs.Value.{stray};
ghost use Rattle.rules.specs.Grid.{fit_sides, size};
ghost use Rattle.rules.specs.Checks.{first_failing};
ghost use Rattle.rules.specs.Refusals.{number_in, replied};
ghost use Rattle.format.specs.Bytes.{value_of, values_of};
ghost use Rattle.words.specs.Widths.{bytes_in};
ghost use Rattle.format.specs.Layer as spec;
ghost use Rattle.format.specs.Layer.{layer_length, width_at, record_length, layer_checks, layer_at, read_layer, values_in, with_layer, bytes_of, handed_back};
ghost use Rattle.layers.specs.Readable.{Readable};
ghost use Rattle.layers.specs.Part.{part_of};

use format::LayerSpan;
use rules::{Refusal, Sides};
use words::Width;

// A layer as it is handed back: its value bytes as a part of the caller's file, and where they stand.
#[derive(Drop)]
pub struct LayerPart<'a> {
    pub values: &'a [u8],
    pub span: LayerSpan,
}

// ---- how large a record is

pub fn area(sides: Sides) -> usize
    requires { fit_sides sides ≡ true }
    ensures { (result ≡ spec.area sides) × (result ≤ 4096) }
{
    sides.a * sides.b
}

// The length of a layer record whose values have that width.
pub fn layer_length(sides: Sides, width: Width) -> usize
    requires { fit_sides sides ≡ true }
    ensures { (result ≡ layer_length sides (bytes_in width)) × (result ≤ 16387) }
{
    3 + width.bytes() * area(sides)
}

// How many bytes a value has in the record that begins at start, which may lie anywhere: bytes past the end are no mark.
fn width_at(file: &[u8], start: usize) -> Width
    ensures { bytes_in result ≡ width_at file.now start }
{
    if !words::is_short(file.len(), start, 2) && words::is_tagged(file, start, 0x57) {
        Width::Four
    } else {
        Width::Two
    }
}

// The length of the layer record that begins at start.
pub fn record_length(sides: Sides, file: &[u8], start: usize) -> usize
    requires { fit_sides sides ≡ true }
    ensures { (result ≡ record_length sides file.now start) × (result ≤ 16387) }
{
    let width = width_at(file, start);
    layer_length(sides, width)
}

// ---- reading a record

// The checks of the record at start, the first that fails.
pub fn layer_refusal(sides: Sides, file: &[u8], start: usize) -> Result<(), Refusal>
    requires { fit_sides sides ≡ true }
    ensures { number_in result ≡ first_failing (layer_checks sides file.now start) }
{
    if words::is_short(file.len(), start, record_length(sides, file, start)) {
        return Err(Refusal::Short);
    }
    if !(words::is_tagged(file, start, 0x4C) | words::is_tagged(file, start, 0x57)) {
        return Err(Refusal::Mark);
    }
    if sides.c <= usize::from(file[start + 2]) {
        return Err(Refusal::Layer);
    }
    Ok(())
}

// The layer of a record that is not refused.
pub fn layer_at(sides: Sides, file: &[u8], start: usize) -> LayerSpan
    requires { Readable sides file.now start }
    ensures { result ≡ layer_at sides file.now start }
{
    let width = width_at(file, start);
    LayerSpan {
        z: file[start + 2],
        width: width.bytes() as u8,
        from: start + 3,
        to: start + layer_length(sides, width),
    }
}

// Where the layer of the record at start stands, if the record is not refused.
fn span_at(sides: Sides, file: &[u8], start: usize) -> Result<LayerSpan, Refusal>
    ensures { replied result ≡ read_layer sides file.now start }
{
    if !sizes::fit_sides(sides) {
        return Err(Refusal::Side);
    }
    layer_refusal(sides, file, start)?;
    Ok(layer_at(sides, file, start))
}

// Reading a layer: its value bytes as a part of the caller's file, and where they stand.
pub fn read_layer<'a>(sides: Sides, file: &'a [u8], start: usize) -> Result<LayerPart<'a>, Refusal>
    ensures { part_of result ≡ handed_back file.now (read_layer sides file.now start) }
{
    let span = span_at(sides, file, start)?;
    Ok(LayerPart {
        values: &file[span.from..span.to],
        span,
    })
}

// Where the part stands alone, for who has the file and goes by the stretch.
pub fn layer(sides: Sides, file: &[u8], start: usize) -> Result<LayerSpan, Refusal>
    ensures { replied result ≡ read_layer sides file.now start }
{
    let part = read_layer(sides, file, start)?;
    Ok(part.span)
}

// The part of the file alone, for who has looked at the record: no bytes where it is refused.
pub fn layer_values(sides: Sides, file: &[u8], start: usize) -> &[u8]
    ensures { result.now ≡ bytes_of file.now (read_layer sides file.now start) }
{
    match read_layer(sides, file, start) {
        Ok(part) => part.values,
        Err(_) => &file[..0],
    }
}

// ---- a record's values

// Whether one of count values, of four bytes each, is neither in the range nor the missing mark.
fn any_stray(bytes: &[u8], count: usize) -> bool
    requires { length bytes.now ≡ 4 * count }
    ensures { result ≡ any stray (values_of 4 count bytes.now) }
{
    let mut found = false;
    for i in 0..count {
        let v = words::value(bytes, 4 * i, Width::Four);
        found |= values::beyond(v, 1000000000);
    }
    found
}

// Whether a value of the record at start is neither in the range nor the missing mark. None of two bytes is.
pub fn has_stray(sides: Sides, file: &[u8], start: usize) -> bool
    requires { Readable sides file.now start }
    ensures { result ≡ any stray (values_in sides file.now (layer_at sides file.now start)) }
{
    match width_at(file, start) {
        Width::Two => false,
        Width::Four => any_stray(layer_values(sides, file, start), area(sides)),
    }
}

// The value at index i. The whole place is reckoned behind the test of the width, so that a compiler makes a loop for each.
fn value_at(bytes: &[u8], width: Width, i: usize) -> i32
    requires { bytes_in width * i + bytes_in width ≤ length bytes.now }
    ensures { result ≡ value_of (bytes_in width) bytes.now (bytes_in width * i) }
{
    match width {
        Width::Two => words::value(bytes, 2 * i, Width::Two),
        Width::Four => words::value(bytes, 4 * i, Width::Four),
    }
}

// Reads the values of a layer, each of that width.
fn fill_layer(bytes: &[u8], width: Width, values: &mut [i32])
    requires { length bytes.now ≡ bytes_in width * length values.old }
    ensures { values.new ≡ values_of (bytes_in width) (length values.old) bytes.now }
{
    for (i, v) in values.iter_mut().enumerate() {
        *v = value_at(bytes, width, i);
    }
}

// Reads the values of the record at start into their layer of the grid's buffer; the answer is where the record ends.
pub fn fill_record(sides: Sides, file: &[u8], start: usize, values: &mut [i32]) -> usize
    requires { (Readable sides file.now start) × (length values.old ≡ size sides) }
    ensures { (values.new ≡ with_layer sides file.now values.old (layer_at sides file.now start))
        × (result ≡ start + record_length sides file.now start) }
{
    let bytes = layer_values(sides, file, start);
    let l = layer_at(sides, file, start);
    let count = area(sides);
    let at = usize::from(l.z) * count;
    let end = at + count;
    fill_layer(bytes, width_at(file, start), &mut values[at..end]);
    l.to
}
