// The types that the grid file's rules share with the code. The rules stand in specs/, in the order of the papers.
#![tactic(auto)]

use rules::Sides;

// What reading a file answers: the sides and T that its header names.
#[derive(Clone, Copy)]
pub struct Header {
    pub sides: Sides,
    pub allowed: u16,
}

// A layer where it stands: its z, the bytes of a value, and from which byte of the file up to which its values stand.
#[derive(Clone, Copy)]
pub struct LayerSpan {
    pub z: u8,
    pub width: u8,
    pub from: usize,
    pub to: usize,
}
