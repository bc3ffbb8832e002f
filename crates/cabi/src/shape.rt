// The structs that the exported calls on posits give, and the posit calls' answers turned into them.
ghost use Rattle.std.specs.Prelude.{◌≡◌};
ghost use Rattle.cabi.specs.Shapes as Spec;

use call::place::LEFT;
use call::refusal::Refusal;
use posit::decoded::Decoded;
use posit::float::Floated;
use std::cmp::Ordering;

// A refusal's number and place, and a posit.
#[repr(C)]
#[derive(Clone, Copy)]
pub struct PositAnswer {
    pub number: u32,
    pub place: u32,
    pub posit: u32,
}

// A refusal's number and place, and a decoded posit: its kind, and for a finite one its sign, scale and fraction.
#[repr(C)]
#[derive(Clone, Copy)]
pub struct PositDecoding {
    pub number: u32,
    pub place: u32,
    pub kind: u32,
    pub negative: bool,
    pub scale: i32,
    pub fraction: u32,
}

// A refusal's number and place, and an order.
#[repr(C)]
#[derive(Clone, Copy)]
pub struct PositComparison {
    pub number: u32,
    pub place: u32,
    pub order: u32,
}

// A refusal's number and place, and a posit as a float: its kind, and the float where it is no NaR.
#[repr(C)]
#[derive(Clone, Copy)]
pub struct PositFloating {
    pub number: u32,
    pub place: u32,
    pub kind: u32,
    pub float: f64,
}

// The number of a call that is not refused.
pub const DONE: u32 = 0;

// The kinds of decoded posits.
pub const ZERO: u32 = 0;

pub const NAR: u32 = 1;

pub const FINITE: u32 = 2;

// The kind of a posit that is a float; that of NaR is 1, as above.
pub const FLOAT: u32 = 0;

// The orders.
pub const LESS: u32 = 0;

pub const EQUAL: u32 = 1;

pub const GREATER: u32 = 2;

// C has no generic struct, so each answer's struct is made of its own Result.
impl From<Result<u32, Refusal>> for PositAnswer {
    ghost from_gives = { λ x r. r ≡ Spec.of_answer x };

    fn from(answer: Result<u32, Refusal>) -> PositAnswer {
        match answer {
            Ok(posit) => PositAnswer {
                number: DONE,
                place: LEFT,
                posit,
            },
            Err(Refusal { reason, place }) => PositAnswer {
                number: reason.number(),
                place,
                posit: 0,
            },
        }
    }
}

// A decoded posit in its plain shape, under a number and a place.
fn decoding_with(number: u32, place: u32, decoded: Decoded) -> PositDecoding
    ensures { result ≡ Spec.decoding_with number place decoded }
{
    let (kind, negative, scale, fraction) = match decoded {
        Decoded::Zero => (ZERO, false, 0, 0),
        Decoded::Nar => (NAR, false, 0, 0),
        Decoded::Finite {
            negative,
            scale,
            fraction,
        } => (FINITE, negative, scale, fraction),
    };
    PositDecoding {
        number,
        place,
        kind,
        negative,
        scale,
        fraction,
    }
}

impl From<Result<Decoded, Refusal>> for PositDecoding {
    ghost from_gives = { λ x r. r ≡ Spec.of_decoding x };

    fn from(answer: Result<Decoded, Refusal>) -> PositDecoding {
        match answer {
            Ok(decoded) => decoding_with(DONE, LEFT, decoded),
            Err(Refusal { reason, place }) => decoding_with(reason.number(), place, Decoded::Zero),
        }
    }
}

impl From<Result<Floated, Refusal>> for PositFloating {
    ghost from_gives = { λ x r. r ≡ Spec.of_floating x };

    fn from(answer: Result<Floated, Refusal>) -> PositFloating {
        let (number, place, kind, float) = match answer {
            Ok(Floated::Value(float)) => (DONE, LEFT, FLOAT, float),
            Ok(Floated::Nar) => (DONE, LEFT, NAR, 0.0),
            Err(Refusal { reason, place }) => (reason.number(), place, FLOAT, 0.0),
        };
        PositFloating {
            number,
            place,
            kind,
            float,
        }
    }
}

fn order_number(order: Ordering) -> u32
    ensures { result ≡ Spec.order_number order }
{
    match order {
        Ordering::Less => LESS,
        Ordering::Equal => EQUAL,
        Ordering::Greater => GREATER,
    }
}

impl From<Result<Ordering, Refusal>> for PositComparison {
    ghost from_gives = { λ x r. r ≡ Spec.of_comparison x };

    fn from(answer: Result<Ordering, Refusal>) -> PositComparison {
        match answer {
            Ok(order) => PositComparison {
                number: DONE,
                place: LEFT,
                order: order_number(order),
            },
            Err(Refusal { reason, place }) => PositComparison {
                number: reason.number(),
                place,
                order: EQUAL,
            },
        }
    }
}

// The decoded posit of a kind, and for a finite one of its parts; a kind that is none of the three is no number.
pub fn to_decoded(kind: u32, negative: bool, scale: i32, fraction: u32) -> Decoded
    ensures { result ≡ Spec.decoded_of kind negative scale fraction }
{
    if kind == ZERO {
        return Decoded::Zero;
    }
    if kind == FINITE {
        return Decoded::Finite {
            negative,
            scale,
            fraction,
        };
    }
    Decoded::Nar
}
