// Runs the program's line on a grid file that is taken, then on one for each number that a file can be refused with, in the order in which
// they are looked for.
#![tactic(auto)]

ghost use Rattle.std.specs.Prelude.{◌<◌, ◌≤◌};

use std::io;
use std::io::Print;

fn print_line(to: &impl Print, file: &[u8]) -> io::Result<()> {
    let text = line::line(file);
    let bytes = text.bytes;
    let start = text.start;
    to.write_all(&bytes[start..])
}

// Prints the line of the first n bytes of a file, one of which is changed. It has a header, three layers of 21 bytes, each value 0 but for a -1
// in the middle, and a patch that shoots the middle again.
fn print_changed(to: &impl Print, at: usize, byte: u8, n: usize) -> io::Result<()>
    requires { (at < 78) × (n ≤ 78) }
{
    let mut file = [0u8; 78];
    file[0] = 0x56;
    file[1] = 0x48;
    file[2] = 3;
    file[3] = 3;
    file[4] = 3;
    file[7] = 0x56;
    file[8] = 0x4C;
    file[28] = 0x56;
    file[29] = 0x4C;
    file[30] = 1;
    file[39] = 0xFF;
    file[40] = 0xFF;
    file[49] = 0x56;
    file[50] = 0x4C;
    file[51] = 2;
    file[70] = 0x56;
    file[71] = 0x50;
    file[72] = 13;
    file[76] = 0xFE;
    file[77] = 0xFF;
    file[at] = byte;
    print_line(to, &file[..n])
}

// Prints the line of a file of three wide layers of 39 bytes. Each value is 0 but for a -1 in the middle and, in a corner, 1,000,000,000 and so
// much more.
fn print_wide(to: &impl Print, more: u8) -> io::Result<()> {
    let mut file = [0u8; 124];
    file[0] = 0x56;
    file[1] = 0x48;
    file[2] = 3;
    file[3] = 3;
    file[4] = 3;
    file[7] = 0x56;
    file[8] = 0x57;
    file[10] = more;
    file[11] = 0xCA;
    file[12] = 0x9A;
    file[13] = 0x3B;
    file[46] = 0x56;
    file[47] = 0x57;
    file[48] = 1;
    file[65] = 0xFF;
    file[66] = 0xFF;
    file[67] = 0xFF;
    file[68] = 0xFF;
    file[85] = 0x56;
    file[86] = 0x57;
    file[87] = 2;
    print_line(to, &file)
}

// 25, whatever the input holds.
fn print_too_long(to: &impl Print) -> io::Result<()> {
    let input = [0u8; 65537];
    print_line(to, &input)
}

fn main(rt: HostRuntime) -> io::Result<()> {
    print_changed(&rt, 0, 0x56, 70)?;
    print_changed(&rt, 0, 0x56, 78)?;
    print_too_long(&rt)?;
    // 21, 22 and 1: the header
    print_changed(&rt, 0, 0x56, 6)?;
    print_changed(&rt, 1, 0x4C, 70)?;
    print_changed(&rt, 2, 25, 70)?;
    // 21, 22, 23, 24 and 27: a layer
    print_changed(&rt, 0, 0x56, 69)?;
    print_changed(&rt, 29, 0x48, 70)?;
    print_changed(&rt, 30, 3, 70)?;
    print_changed(&rt, 30, 0, 70)?;
    print_changed(&rt, 30, 2, 70)?;
    // none, and 28: wide layers
    print_wide(&rt, 0)?;
    print_wide(&rt, 1)?;
    // 21, 22 and 5: a patch
    print_changed(&rt, 0, 0x56, 77)?;
    print_changed(&rt, 71, 0x4C, 78)?;
    print_changed(&rt, 72, 27, 78)?;
    // 3 and 4: a negative value on the border, by a layer and by a patch, and none at all
    print_changed(&rt, 11, 0xFF, 70)?;
    print_changed(&rt, 72, 0, 78)?;
    print_changed(&rt, 40, 0, 70)
}
