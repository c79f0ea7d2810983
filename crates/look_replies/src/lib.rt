// What the calls that change no grid answer to C, as structs: crossing, all points, read, reading a layer, write, judge, practice.
#![tactic(auto)]

ghost use Rattle.std.specs.Prelude.{◌≡◌};
ghost use Rattle.rules.specs.Refusals.{replied};
ghost use Rattle.surface.specs.Surface.{crossed_answer};
ghost use Rattle.look_replies.specs.Looks.{crossing_struct, points_struct, read_struct, layer_struct, write_struct, judge_struct, practice_struct};

use format::{Header, LayerSpan};
use judging::Judgement;
use points::Listing;
use rules::{Refusal, Sides};
use surface::{Crossed, Point};

#[repr(C)]
#[derive(Clone, Copy)]
pub struct CrossingAnswer {
    pub refusal: u8,
    pub crosses: bool,
    pub point: Point,
}

#[repr(C)]
#[derive(Clone, Copy)]
pub struct PointsAnswer {
    pub refusal: u8,
    pub count: usize,
    pub next: usize,
}

#[repr(C)]
#[derive(Clone, Copy)]
pub struct ReadReply {
    pub refusal: u8,
    pub sides: Sides,
    pub allowed: u16,
}

#[repr(C)]
#[derive(Clone, Copy)]
pub struct LayerReply {
    pub refusal: u8,
    pub z: u8,
    pub width: u8,
    pub from: usize,
    pub to: usize,
}

#[repr(C)]
#[derive(Clone, Copy)]
pub struct WriteReply {
    pub refusal: u8,
    pub length: usize,
}

#[repr(C)]
#[derive(Clone, Copy)]
pub struct JudgeAnswer {
    pub refusal: u8,
    pub removals: u64,
    pub openings: u32,
    pub euler: i32,
}

#[repr(C)]
#[derive(Clone, Copy)]
pub struct PracticeAnswer {
    pub refusal: u8,
}

const ORIGIN: Point = Point {
    x: 0.0,
    y: 0.0,
    z: 0.0,
};

impl From<Crossed> for CrossingAnswer {
    ghost from_gives = { λ crossed answer. answer ≡ crossing_struct (crossed_answer crossed) };

    fn from(crossed: Crossed) -> CrossingAnswer {
        match crossed {
            Crossed::Nowhere => CrossingAnswer {
                refusal: 0,
                crosses: false,
                point: ORIGIN,
            },
            Crossed::At(point) => CrossingAnswer {
                refusal: 0,
                crosses: true,
                point,
            },
            Crossed::Refused(refusal) => CrossingAnswer {
                refusal,
                crosses: false,
                point: ORIGIN,
            },
        }
    }
}

impl From<Result<Listing, Refusal>> for PointsAnswer {
    ghost from_gives = { λ listed answer. answer ≡ points_struct (replied listed) };

    fn from(listed: Result<Listing, Refusal>) -> PointsAnswer {
        match listed {
            Ok(Listing { count, next }) => PointsAnswer {
                refusal: 0,
                count,
                next,
            },
            Err(refusal) => PointsAnswer {
                refusal: u8::from(refusal),
                count: 0,
                next: 0,
            },
        }
    }
}

impl From<Result<Header, Refusal>> for ReadReply {
    ghost from_gives = { λ read answer. answer ≡ read_struct (replied read) };

    fn from(read: Result<Header, Refusal>) -> ReadReply {
        match read {
            Ok(Header { sides, allowed }) => ReadReply {
                refusal: 0,
                sides,
                allowed,
            },
            Err(refusal) => ReadReply {
                refusal: u8::from(refusal),
                sides: Sides { a: 0, b: 0, c: 0 },
                allowed: 0,
            },
        }
    }
}

impl From<Result<LayerSpan, Refusal>> for LayerReply {
    ghost from_gives = { λ layer answer. answer ≡ layer_struct (replied layer) };

    fn from(layer: Result<LayerSpan, Refusal>) -> LayerReply {
        match layer {
            Ok(LayerSpan { z, width, from, to }) => LayerReply {
                refusal: 0,
                z,
                width,
                from,
                to,
            },
            Err(refusal) => LayerReply {
                refusal: u8::from(refusal),
                z: 0,
                width: 0,
                from: 0,
                to: 0,
            },
        }
    }
}

impl From<Result<usize, Refusal>> for WriteReply {
    ghost from_gives = { λ written answer. answer ≡ write_struct (replied written) };

    fn from(written: Result<usize, Refusal>) -> WriteReply {
        match written {
            Ok(length) => WriteReply { refusal: 0, length },
            Err(refusal) => WriteReply {
                refusal: u8::from(refusal),
                length: 0,
            },
        }
    }
}

impl From<Result<Judgement, Refusal>> for JudgeAnswer {
    ghost from_gives = { λ judged answer. answer ≡ judge_struct (replied judged) };

    fn from(judged: Result<Judgement, Refusal>) -> JudgeAnswer {
        match judged {
            Ok(judgement) => JudgeAnswer {
                refusal: 0,
                removals: judgement.removed,
                openings: judgement.opened,
                euler: judgement.euler,
            },
            Err(refusal) => JudgeAnswer {
                refusal: u8::from(refusal),
                removals: 0,
                openings: 0,
                euler: 0,
            },
        }
    }
}

impl From<Result<(), Refusal>> for PracticeAnswer {
    ghost from_gives = { λ filled answer. answer ≡ practice_struct (replied filled) };

    fn from(filled: Result<(), Refusal>) -> PracticeAnswer {
        match filled {
            Ok(()) => PracticeAnswer { refusal: 0 },
            Err(refusal) => PracticeAnswer {
                refusal: u8::from(refusal),
            },
        }
    }
}
