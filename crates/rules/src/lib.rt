// The types that the calls on a grid share: sides, record, answers, refusals. What they mean stands in specs/, document 01 section by section.
#![tactic(auto)]

ghost use Rattle.std.specs.Prelude.{◌≡◌};
ghost use Rattle.rules.specs.Refusals.{number_of};

// The grid's sides, in voxels along x, y and z.
#[repr(C)]
#[derive(Clone, Copy)]
pub struct Sides {
    pub a: usize,
    pub b: usize,
    pub c: usize,
}

// What a call is given and hands back by value. Counts have room beyond what a fit record may hold.
#[repr(C)]
#[derive(Clone, Copy)]
pub struct Record {
    pub sides: Sides,
    // T, the allowed number of openings
    pub allowed: u16,
    pub openings: u32,
    pub removals: u64,
    pub examinations: u64,
    // the Euler number of the kept voxels
    pub euler: i32,
    pub finished: bool,
}

// What carve answers.
#[derive(Clone, Copy)]
pub struct Carving {
    pub examined: u32,
    pub removed: u32,
    pub pending: bool,
    // the face of its last removal, 6 where it made none
    pub face: u32,
    pub next: Record,
}

// What take answers: document 01 names this form, an enum of which one case carries k and m and the other the number.
#[derive(Clone, Copy)]
pub enum Taken {
    Gone {
        k: u32,
        m: u32,
        face: u32,
        next: Record,
    },
    Refused(u8),
}

// What open answers.
#[derive(Clone, Copy)]
pub struct Opening {
    pub index: usize,
    pub k: u32,
    pub m: u32,
    pub face: u32,
    pub next: Record,
}

// Why a call is refused, by the number that the papers give to the condition.
#[derive(Clone, Copy, Debug, PartialEq, Eq)]
pub enum Refusal {
    // what is given
    Side = 1,
    Length = 2,
    BorderNegative = 3,
    NoNegative = 4,
    Index = 5,
    Axis = 6,
    // the state
    Unfit = 7,
    Finished = 8,
    NotFinished = 9,
    GoneAlready = 10,
    Inside = 11,
    NotPassed = 12,
    StillPending = 13,
    NoOpeningLeft = 14,
    NothingToOpen = 15,
    // a grid file, and a removal list
    Short = 21,
    Mark = 22,
    Layer = 23,
    LayerTwice = 24,
    Room = 26,
    LayerOrder = 27,
    // values and marks
    Value = 28,
    MarkByte = 29,
    PinnedVoxel = 30,
    // a coarse start
    Coarse = 31,
    // a removal list
    BreaksRules = 32,
    StillPasses = 33,
    // many scans at once
    Office = 34,
    NothingPending = 35,
}

impl From<Refusal> for u8 {
    ghost from_gives = { λ refusal n. n ≡ number_of refusal };

    fn from(refusal: Refusal) -> u8 {
        refusal as u8
    }
}
