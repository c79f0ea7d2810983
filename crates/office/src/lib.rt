// Document 02's CR 14, "Many scans at once": what the call is given and answers. Its rule stands in specs/.
#![tactic(auto)]

use rules::{Carving, Record};

// The records of the grids by their places, of which count are there: memory is fixed and there is no heap.
#[derive(Clone, Copy)]
pub struct Grids {
    pub count: usize,
    pub records: [Record; 16],
}

// The order record: the places served so far, the one last served longest ago first, of which len are there. C holds it between calls, by value.
#[repr(C)]
#[derive(Clone, Copy)]
pub struct Order {
    pub len: usize,
    pub places: [u8; 16],
}

// The place that was served, and carve's answer.
#[derive(Clone, Copy)]
pub struct Serving {
    pub place: u8,
    pub carving: Carving,
}
