// What each call answers to C: a struct by value, whose first field is the refusal number, or 0.
#![tactic(auto)]

ghost use Rattle.std.specs.Prelude.{◌≡◌};
ghost use Rattle.rules.specs.Answer.{taken_answer};
ghost use Rattle.rules.specs.Refusals.{replied};
ghost use Rattle.replies.specs.Structs.{record_in, record_out, no_record, begin_struct, begin_coarse_struct, carve_struct, take_struct, open_struct, finish_struct};

use coarse::CoarseStart;
use rules::{Carving, Opening, Record, Refusal, Sides, Taken};

// The record as C holds it: a bool of C's is a byte that may hold anything, so any byte but 0 is finished.
#[repr(C)]
#[derive(Clone, Copy)]
pub struct CRecord {
    pub sides: Sides,
    pub allowed: u16,
    pub openings: u32,
    pub removals: u64,
    pub examinations: u64,
    pub euler: i32,
    pub finished: u8,
}

impl From<CRecord> for Record {
    ghost from_gives = { λ c r. r ≡ record_in c };

    fn from(c: CRecord) -> Record {
        Record {
            sides: c.sides,
            allowed: c.allowed,
            openings: c.openings,
            removals: c.removals,
            examinations: c.examinations,
            euler: c.euler,
            finished: c.finished != 0,
        }
    }
}

impl From<Record> for CRecord {
    ghost from_gives = { λ r c. c ≡ record_out r };

    fn from(r: Record) -> CRecord {
        CRecord {
            sides: r.sides,
            allowed: r.allowed,
            openings: r.openings,
            removals: r.removals,
            examinations: r.examinations,
            euler: r.euler,
            finished: u8::from(r.finished),
        }
    }
}

// A record that every call refuses, as its sides are 0.
pub fn no_record() -> CRecord
    ensures { result ≡ no_record }
{
    CRecord {
        sides: Sides { a: 0, b: 0, c: 0 },
        allowed: 0,
        openings: 0,
        removals: 0,
        examinations: 0,
        euler: 0,
        finished: 0,
    }
}

// ---- begin

#[repr(C)]
#[derive(Clone, Copy)]
pub struct BeginAnswer {
    pub refusal: u8,
    pub next: CRecord,
}

impl From<Result<Record, Refusal>> for BeginAnswer {
    ghost from_gives = { λ b answer. answer ≡ begin_struct (replied b) };

    fn from(b: Result<Record, Refusal>) -> BeginAnswer {
        match b {
            Ok(next) => BeginAnswer {
                refusal: 0,
                next: CRecord::from(next),
            },
            Err(refusal) => BeginAnswer {
                refusal: u8::from(refusal),
                next: no_record(),
            },
        }
    }
}

// ---- begin coarse

#[repr(C)]
#[derive(Clone, Copy)]
pub struct BeginCoarseAnswer {
    pub refusal: u8,
    pub examined: u32,
    pub next: CRecord,
}

impl From<Result<CoarseStart, Refusal>> for BeginCoarseAnswer {
    ghost from_gives = { λ b answer. answer ≡ begin_coarse_struct (replied b) };

    fn from(b: Result<CoarseStart, Refusal>) -> BeginCoarseAnswer {
        match b {
            Ok(start) => BeginCoarseAnswer {
                refusal: 0,
                examined: start.examined,
                next: CRecord::from(start.next),
            },
            Err(refusal) => BeginCoarseAnswer {
                refusal: u8::from(refusal),
                examined: 0,
                next: no_record(),
            },
        }
    }
}

// ---- carve, take, open, finish: after a refusal `next` is the record given, so that each is made of two values, and by no `From`

#[repr(C)]
#[derive(Clone, Copy)]
pub struct CarveAnswer {
    pub refusal: u8,
    pub examined: u32,
    pub removed: u32,
    pub pending: bool,
    pub face: u32,
    pub next: CRecord,
}

#[repr(C)]
#[derive(Clone, Copy)]
pub struct TakeAnswer {
    pub refusal: u8,
    pub k: u32,
    pub m: u32,
    pub face: u32,
    pub next: CRecord,
}

#[repr(C)]
#[derive(Clone, Copy)]
pub struct OpenAnswer {
    pub refusal: u8,
    pub index: usize,
    pub k: u32,
    pub m: u32,
    pub face: u32,
    pub next: CRecord,
}

#[repr(C)]
#[derive(Clone, Copy)]
pub struct FinishAnswer {
    pub refusal: u8,
    pub next: CRecord,
}

pub fn carve_answer(given: CRecord, carved: Result<Carving, Refusal>) -> CarveAnswer
    ensures { result ≡ carve_struct given (replied carved) }
{
    match carved {
        Ok(carving) => CarveAnswer {
            refusal: 0,
            examined: carving.examined,
            removed: carving.removed,
            pending: carving.pending,
            face: carving.face,
            next: CRecord::from(carving.next),
        },
        Err(refusal) => CarveAnswer {
            refusal: u8::from(refusal),
            examined: 0,
            removed: 0,
            pending: false,
            face: 0,
            next: given,
        },
    }
}

pub fn take_answer(given: CRecord, t: Taken) -> TakeAnswer
    ensures { result ≡ take_struct given (taken_answer t) }
{
    match t {
        Taken::Gone { k, m, face, next } => TakeAnswer {
            refusal: 0,
            k,
            m,
            face,
            next: CRecord::from(next),
        },
        Taken::Refused(refusal) => TakeAnswer {
            refusal,
            k: 0,
            m: 0,
            face: 0,
            next: given,
        },
    }
}

pub fn open_answer(given: CRecord, opened: Result<Opening, Refusal>) -> OpenAnswer
    ensures { result ≡ open_struct given (replied opened) }
{
    match opened {
        Ok(opening) => OpenAnswer {
            refusal: 0,
            index: opening.index,
            k: opening.k,
            m: opening.m,
            face: opening.face,
            next: CRecord::from(opening.next),
        },
        Err(refusal) => OpenAnswer {
            refusal: u8::from(refusal),
            index: 0,
            k: 0,
            m: 0,
            face: 0,
            next: given,
        },
    }
}

pub fn finish_answer(given: CRecord, finished: Result<Record, Refusal>) -> FinishAnswer
    ensures { result ≡ finish_struct given (replied finished) }
{
    match finished {
        Ok(next) => FinishAnswer {
            refusal: 0,
            next: CRecord::from(next),
        },
        Err(refusal) => FinishAnswer {
            refusal: u8::from(refusal),
            next: given,
        },
    }
}
