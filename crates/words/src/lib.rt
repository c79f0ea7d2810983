// What stands in a file's bytes: a number of two or four bytes, a value, a record's tag, and whether so many bytes are left; numbers and values written.
#![tactic(auto)]

ghost use Rattle.std.specs.Prelude.{◌≡◌, ◌+◌, ◌<◌, ◌≤◌, cond, eqb, ltb, pos, length};
ghost use Rattle.std.proofs.lemmas.List.Edits.{sets};
ghost use Rattle.std.specs.Int.Signed.{mag};
ghost use Rattle.format.specs.Bytes as spec;
ghost use Rattle.format.specs.Bytes.{half, signed, widened, Holds, value_of, word_bytes, value_bytes, tagged};
ghost use Rattle.words.specs.Widths.{bytes_in};

// How many bytes a value has.
#[derive(Clone, Copy, PartialEq, Eq)]
pub enum Width {
    Two,
    Four,
}

impl Width {
    pub fn bytes(self) -> usize
        ensures { result ≡ bytes_in self }
    {
        match self {
            Width::Two => 2,
            Width::Four => 4,
        }
    }
}

// ---- read

fn two_bytes(bytes: &[u8], at: usize) -> u32
    requires { at + 2 ≤ length bytes.now }
    ensures { (result ≡ spec.word 2 bytes.now at) × (result < 65536) }
{
    u32::from(bytes[at]) + 256 * u32::from(bytes[at + 1])
}

// A number of so many bytes, low byte first.
pub fn word(bytes: &[u8], at: usize, width: Width) -> u32
    requires { at + bytes_in width ≤ length bytes.now }
    ensures { (result ≡ spec.word (bytes_in width) bytes.now at) × (result < half (bytes_in width) + half (bytes_in width)) }
{
    let low = two_bytes(bytes, at);
    match width {
        Width::Two => low,
        Width::Four => low + 65536 * two_bytes(bytes, at + 2),
    }
}

// How far the value of two bytes falls: the missing mark to the one of 32 bits, any other not at all.
fn fall(n: u32) -> i32
    ensures { result ≡ cond (eqb n 32768) (pos 2147450880) (pos 0) }
{
    if n == 32768 { 2147450880 } else { 0 }
}

// The value of two bytes: the sign bit turned over, less 32,768, is two's complement. No case takes a way of its own, so that a compiler does many at
// a time.
fn short_value(n: u32) -> i32
    requires { n < 65536 }
    ensures { result ≡ widened 32768 (signed 32768 n) }
{
    (n ^ 32768) as i32 - 32768 - fall(n)
}

// The value of four bytes: two's complement, in which the missing mark is the one of 32 bits.
fn long_value(n: u32) -> i32
    ensures { result ≡ signed 2147483648 n }
{
    if n < 2147483648 {
        n as i32
    } else {
        !((4294967295 - n) as i32)
    }
}

// A value of so many bytes. The width is asked for as in `word`: of one test the compiler makes a loop for each width.
pub fn value(bytes: &[u8], at: usize, width: Width) -> i32
    requires { at + bytes_in width ≤ length bytes.now }
    ensures { result ≡ value_of (bytes_in width) bytes.now at }
{
    let n = word(bytes, at, width);
    match width {
        Width::Two => short_value(n),
        Width::Four => long_value(n),
    }
}

// Fewer bytes are left from start on; start may lie anywhere.
pub fn is_short(len: usize, start: usize, needed: usize) -> bool
    ensures { result ≡ ltb len (start + needed) }
{
    len < start || len - start < needed
}

pub fn is_tagged(file: &[u8], start: usize, kind: u8) -> bool
    requires { start + 1 < length file.now }
    ensures { result ≡ tagged kind file.now start }
{
    (file[start] == 0x56) & (file[start + 1] == kind)
}

// ---- written

fn put_two_bytes(bytes: &mut [u8], at: usize, n: u32)
    requires { (at + 2 ≤ length bytes.old) × (n < 65536) }
    ensures { bytes.new ≡ sets bytes.old at (word_bytes 2 n) }
{
    bytes[at] = (n % 256) as u8;
    bytes[at + 1] = (n / 256) as u8;
}

// A number as so many bytes, low byte first.
pub fn put_word(bytes: &mut [u8], at: usize, width: Width, n: u32)
    requires { (at + bytes_in width ≤ length bytes.old) × (n < half (bytes_in width) + half (bytes_in width)) }
    ensures { bytes.new ≡ sets bytes.old at (word_bytes (bytes_in width) n) }
{
    match width {
        Width::Two => put_two_bytes(bytes, at, n),
        Width::Four => {
            put_two_bytes(bytes, at, n % 65536);
            put_two_bytes(bytes, at + 2, n / 65536);
        }
    }
}

// Half of the numbers of so many bytes: the one that marks a missing point.
fn half_of(width: Width) -> u32
    ensures { (result ≡ half (bytes_in width)) × (result ≤ 2147483648) }
{
    match width {
        Width::Two => 32768,
        Width::Four => 2147483648,
    }
}

// The value as so many bytes say it. For two it is held to -32,768 to 32,767, by which the mark of 32 bits becomes the one of 16 with no case told apart,
// and a compiler does many at a time. No value is over 32,767, but the processor's step holds both ends.
fn narrowed(width: Width, v: i32) -> i32
    requires { Holds (half (bytes_in width)) v }
    ensures { result ≡ spec.narrowed (half (bytes_in width)) v }
{
    match width {
        Width::Two => v.clamp(-32768, 32767),
        Width::Four => v,
    }
}

// Two's complement.
fn unsigned(h: u32, v: i32) -> u32
    requires { (h ≤ 2147483648) × (mag v < h) }
    ensures { (result ≡ spec.unsigned h v) × (result < h + h) }
{
    if v < 0 {
        h + (h - 1 - (!v) as u32)
    } else {
        v as u32
    }
}

// A value as so many bytes.
pub fn put_value(bytes: &mut [u8], at: usize, width: Width, v: i32)
    requires { (at + bytes_in width ≤ length bytes.old) × (Holds (half (bytes_in width)) v) }
    ensures { bytes.new ≡ sets bytes.old at (value_bytes (bytes_in width) v) }
{
    put_word(
        bytes,
        at,
        width,
        unsigned(half_of(width), narrowed(width, v)),
    );
}
