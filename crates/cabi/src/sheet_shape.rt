// The struct that the exported calls on columns and sheets give.
ghost use Rattle.std.specs.Prelude.{◌≡◌};
ghost use Rattle.cabi.specs.SheetShapes as Spec;

use super::shape::DONE;
use call::place::LEFT;
use call::refusal::Refusal;

// A refusal's number and place, and the count of words written.
#[repr(C)]
#[derive(Clone, Copy)]
pub struct SheetAnswer {
    pub number: u32,
    pub place: u32,
    pub count: u32,
}

impl From<Result<u32, Refusal>> for SheetAnswer {
    ghost from_gives = { λ x r. r ≡ Spec.of_count x };

    fn from(answer: Result<u32, Refusal>) -> SheetAnswer {
        match answer {
            Ok(count) => SheetAnswer {
                number: DONE,
                place: LEFT,
                count,
            },
            Err(Refusal { reason, place }) => SheetAnswer {
                number: reason.number(),
                place,
                count: 0,
            },
        }
    }
}
