// The line that the program carve prints, as bytes. It is written from its end, so that a number's last digit comes first, and stands at the
// end of its buffer.
#![tactic(auto)]

ghost use Rattle.std.specs.Prelude.{◌≡◌, ◌∷◌, ◌++◌, ◌+◌, ◌≤◌, ◌<◌, length, drop};
ghost use Rattle.text.specs.Line.{refused_line, number, signed_number, euler_word, line_text};
ghost use Rattle.text.specs.Written.{Written, Before, summary_line, printed};

// What is said of a grid that was carved.
#[derive(Clone, Copy)]
pub struct Summary {
    pub kept: u64,
    pub removed: u64,
    pub opened: u64,
    pub examined: u64,
    pub euler: i32,
}

// A line: the bytes from start on. Those before it are 0. Memory is fixed and there is no heap, so that a `String` cannot hold it.
#[derive(Clone, Copy)]
pub struct Text {
    pub bytes: [u8; 160],
    pub start: usize,
}

// ---- each of these writes before `at`, where the text so far starts, and answers where it starts now

fn put(out: &mut [u8], at: usize, byte: u8) -> usize
    requires { (0 < at) × (at ≤ length out.old) }
    ensures { Before 1 at result out.old out.new (λ t. byte ∷ t) }
{
    out[at - 1] = byte;
    at - 1
}

fn put_word(out: &mut [u8], at: usize, word: &[u8]) -> usize
    requires { (length word.now ≤ at) × (at ≤ length out.old) }
    ensures { Before (length word.now) at result out.old out.new (λ t. word.now ++ t) }
{
    let mut start = at;
    for &byte in word.iter().rev() {
        start = put(out, start, byte);
    }
    start
}

fn put_number(out: &mut [u8], at: usize, n: u64) -> usize
    requires { (20 ≤ at) × (at ≤ length out.old) }
    ensures { Before 20 at result out.old out.new (number n) }
{
    let mut start = at;
    let mut rest = n;
    // a `while`, since each step takes one digit off
    while 10 <= rest {
        start = put(out, start, (rest % 10) as u8 + b'0');
        rest /= 10;
    }
    put(out, start, rest as u8 + b'0')
}

fn put_signed(out: &mut [u8], at: usize, n: i32) -> usize
    requires { (21 ≤ at) × (at ≤ length out.old) }
    ensures { Before 21 at result out.old out.new (signed_number n) }
{
    let start = put_number(out, at, u64::from(n.unsigned_abs()));
    if n < 0 { put(out, start, b'-') } else { start }
}

// A name, then a number.
fn put_field(out: &mut [u8], at: usize, name: &[u8], n: u64) -> usize
    requires { (20 + length name.now ≤ at) × (at ≤ length out.old) }
    ensures { Before (20 + length name.now) at result out.old out.new (λ t. name.now ++ number n t) }
{
    let start = put_number(out, at, n);
    put_word(out, start, name)
}

// ---- the two lines

fn put_refused(out: &mut [u8], n: u8) -> usize
    requires { length out.old ≡ 160 }
    ensures { Written 29 160 result out.old out.new (line_text (refused_line n)) }
{
    let end = put(out, 160, b'\n');
    put_field(out, end, b"refused ", u64::from(n))
}

// The end of the line: the Euler number.
fn put_euler(out: &mut [u8], n: i32) -> usize
    requires { length out.old ≡ 160 }
    ensures { Written 29 160 result out.old out.new (euler_word ++ signed_number n (0x0A ∷ drop 160 out.old)) }
{
    let end = put(out, 160, b'\n');
    let number = put_signed(out, end, n);
    put_word(out, number, b" euler ")
}

fn put_carved(out: &mut [u8], s: Summary) -> usize
    requires { length out.old ≡ 160 }
    ensures { Written 141 160 result out.old out.new (line_text (summary_line s)) }
{
    let euler = put_euler(out, s.euler);
    let examined = put_field(out, euler, b" examined ", s.examined);
    let opened = put_field(out, examined, b" opened ", s.opened);
    let removed = put_field(out, opened, b" removed ", s.removed);
    put_field(out, removed, b"kept ", s.kept)
}

pub fn refused_line(n: u8) -> Text
    ensures { result ≡ printed (refused_line n) }
{
    let mut bytes = [0u8; 160];
    let start = put_refused(&mut bytes, n);
    Text { bytes, start }
}

pub fn carved_line(s: Summary) -> Text
    ensures { result ≡ printed (summary_line s) }
{
    let mut bytes = [0u8; 160];
    let start = put_carved(&mut bytes, s);
    Text { bytes, start }
}
