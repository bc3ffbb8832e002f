// The structs that the exported calls on ranges give, and those calls' answers turned into them.
ghost use Rattle.std.specs.Prelude.{◌≡◌};
ghost use Rattle.cabi.specs.RangeShapes as Spec;

use super::shape::DONE;
use call::place::LEFT;
use call::refusal::Refusal;
use reading::reading::Outgoing;

// A refusal's number and place, and a range word.
#[repr(C)]
#[derive(Clone, Copy)]
pub struct RangeAnswer {
    pub number: u32,
    pub place: u32,
    pub word: u64,
}

// A refusal's number and place, and a yes or no.
#[repr(C)]
#[derive(Clone, Copy)]
pub struct RangeReply {
    pub number: u32,
    pub place: u32,
    pub yes: bool,
}

// A refusal's number and place, and a range as two floats with their open marks and an empty mark.
#[repr(C)]
#[derive(Clone, Copy)]
pub struct RangeOutgoing {
    pub number: u32,
    pub place: u32,
    pub low: f64,
    pub high: f64,
    pub low_open: bool,
    pub high_open: bool,
    pub empty: bool,
}

impl From<Result<u64, Refusal>> for RangeAnswer {
    ghost from_gives = { λ x r. r ≡ Spec.of_word x };

    fn from(answer: Result<u64, Refusal>) -> RangeAnswer {
        match answer {
            Ok(word) => RangeAnswer {
                number: DONE,
                place: LEFT,
                word,
            },
            Err(Refusal { reason, place }) => RangeAnswer {
                number: reason.number(),
                place,
                word: 0,
            },
        }
    }
}

impl From<Result<bool, Refusal>> for RangeReply {
    ghost from_gives = { λ x r. r ≡ Spec.of_reply x };

    fn from(answer: Result<bool, Refusal>) -> RangeReply {
        match answer {
            Ok(yes) => RangeReply {
                number: DONE,
                place: LEFT,
                yes,
            },
            Err(Refusal { reason, place }) => RangeReply {
                number: reason.number(),
                place,
                yes: false,
            },
        }
    }
}

impl From<Result<Outgoing, Refusal>> for RangeOutgoing {
    ghost from_gives = { λ x r. r ≡ Spec.of_outgoing x };

    fn from(answer: Result<Outgoing, Refusal>) -> RangeOutgoing {
        match answer {
            Ok(
                Outgoing {
                    low,
                    high,
                    low_open,
                    high_open,
                    empty,
                },
            ) => RangeOutgoing {
                number: DONE,
                place: LEFT,
                low,
                high,
                low_open,
                high_open,
                empty,
            },
            Err(Refusal { reason, place }) => RangeOutgoing {
                number: reason.number(),
                place,
                low: 0.0,
                high: 0.0,
                low_open: false,
                high_open: false,
                empty: false,
            },
        }
    }
}
