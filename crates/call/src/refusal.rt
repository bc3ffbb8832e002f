// A refusal: why a call is refused, and at which place.
ghost use Rattle.std.specs.Prelude.{◌≡◌};
ghost use Rattle.call.specs.Place.{left};

use super::place::LEFT;
use super::reason::Reason;

#[derive(Clone, Copy, Debug, PartialEq, Eq)]
pub struct Refusal {
    pub reason: Reason,
    pub place: u32,
}

impl Reason {
    // The refusal for this reason at a place.
    pub fn at(self, place: u32) -> Refusal
        ensures { result ≡ record { reason = self; place = place } }
    {
        Refusal {
            reason: self,
            place,
        }
    }
}

// A reason that comes with no place is given at the left or only operand's.
impl From<Reason> for Refusal {
    ghost from_gives = { λ reason refusal. refusal ≡ record { reason = reason; place = left } };

    fn from(reason: Reason) -> Refusal {
        reason.at(LEFT)
    }
}
