// What serve is given by C, and answers to it, as structs.
#![tactic(auto)]

ghost use Rattle.std.specs.Prelude.{◌≡◌};
ghost use Rattle.rules.specs.Refusals.{replied};
ghost use Rattle.office_replies.specs.Serving.{grids_in, serve_struct};

use office::{Grids, Order, Serving};
use replies::CRecord;
use rules::Record;
use serving::Turn;

// The records of the grids by their places, of which count are there.
#[repr(C)]
#[derive(Clone, Copy)]
pub struct CGrids {
    pub count: usize,
    pub records: [CRecord; 16],
}

// The place that was served and carve's answer, with the order record after the call.
#[repr(C)]
#[derive(Clone, Copy)]
pub struct ServeAnswer {
    pub refusal: u8,
    pub place: u8,
    pub examined: u32,
    pub removed: u32,
    pub pending: bool,
    pub face: u32,
    pub next: CRecord,
    pub order: Order,
}

pub fn grids_in(c: CGrids) -> Grids
    ensures { result ≡ grids_in c }
{
    let mut records = [Record::from(c.records[0]); 16];
    // no `map`: that has two more arrays of all records on the stack
    for p in 0..16 {
        records[p] = Record::from(c.records[p]);
    }
    Grids {
        count: c.count,
        records,
    }
}

pub fn serve_answer(t: Turn) -> ServeAnswer
    ensures { result ≡ serve_struct (replied t.answer) t.order }
{
    let Turn { answer, order } = t;
    match answer {
        Ok(Serving { place, carving }) => ServeAnswer {
            refusal: 0,
            place,
            examined: carving.examined,
            removed: carving.removed,
            pending: carving.pending,
            face: carving.face,
            next: CRecord::from(carving.next),
            order,
        },
        Err(refusal) => ServeAnswer {
            refusal: u8::from(refusal),
            place: 0,
            examined: 0,
            removed: 0,
            pending: false,
            face: 0,
            next: replies::no_record(),
            order,
        },
    }
}
