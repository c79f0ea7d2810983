// From the bytes of a grid file to the line of the program carve: read, begin, and the rounds.
#![tactic(auto)]

ghost use Rattle.std.specs.Prelude.{◌≡◌, ◌≤◌};
ghost use Rattle.rules.specs.Refusals.{replied};
ghost use Rattle.rules.specs.Begin.{begin};
ghost use Rattle.text.specs.Written.{printed};
ghost use Rattle.program.specs.Program.{line_from, file_line, program_line};
ghost use Rattle.line.specs.Buffers.{lent_for, Lent};
ghost use Rattle.line.specs.Refusal.{refusal_of};

use format::Header;
use rules::{Refusal, Sides};
use text::Text;

fn begun_line(
    sides: Sides,
    allowed: u16,
    values: &[i32],
    marks: &[u8],
    dist: &mut [i32],
    status: &mut [u8],
) -> Text
    ensures { result ≡ printed (line_from marks.now
        (begin sides allowed values.now marks.now dist.old status.old)) }
{
    match beginning::begin(sides, allowed, values, marks, dist, status) {
        Ok(next) => rounds::carved_to_end(next, dist, marks, status),
        Err(refusal) => text::refused_line(u8::from(refusal)),
    }
}

// The number that read gave, 0 where it took the file: the `let .. else` of `line_in`, a form that document 01 names, binds no error.
fn refusal_of(answer: Result<Header, Refusal>) -> u8
    ensures { result ≡ refusal_of (replied answer) }
{
    match answer {
        Ok(_) => 0,
        Err(refusal) => u8::from(refusal),
    }
}

// The line of a file, with buffers of zeros that are long enough where the header is right.
fn line_in(
    file: &[u8],
    values: &mut [i32],
    marks: &[u8],
    dist: &mut [i32],
    status: &mut [u8],
) -> Text
    requires { Lent (lent_for file.now) values.old marks.now dist.old status.old }
    ensures { result ≡ printed (file_line file.now) }
{
    let answer = gridfile::read_up_to(file, values, 24);
    let Ok(header) = answer else {
        return text::refused_line(refusal_of(answer));
    };
    begun_line(header.sides, header.allowed, values, marks, dist, status)
}

// The voxels of the grid that a header names, 0 where it is refused for its sides.
fn voxels_in(file: &[u8]) -> usize
    ensures { (result ≡ lent_for file.now) × (result ≤ 13824) }
{
    if file.len() < 7 {
        return 0;
    }
    let sides = gridfile::sides_in(file);
    if gridfile::fit_up_to(sides, 24) {
        return sizes::voxel_count(sides);
    }
    0
}

// The line of a file of any length, with buffers of its own.
fn file_line(file: &[u8]) -> Text
    ensures { result ≡ printed (file_line file.now) }
{
    let n = voxels_in(file);
    let mut values = [0i32; 13824];
    let marks = [0u8; 13824];
    let mut dist = [0i32; 13824];
    let mut status = [0u8; 13824];
    line_in(
        file,
        &mut values[..n],
        &marks[..n],
        &mut dist[..n],
        &mut status[..n],
    )
}

// The line that the program prints for its input.
pub fn line(input: &[u8]) -> Text
    ensures { result ≡ printed (program_line input.now) }
{
    if 65536 < input.len() {
        return text::refused_line(25);
    }
    file_line(input)
}
