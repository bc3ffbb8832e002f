// The test of a posit against its format.
ghost use Rattle.call.specs.Verdict.{Says};
ghost use Rattle.posit.specs.Refusal.{verdict_of_posit, verdict_of_posits};

use super::format::Format;
use super::power::power32;
use call::place::{LEFT, RIGHT};
use call::reason::Reason;
use call::refusal::Refusal;

// One posit, at a place.
pub fn judge_posit(f: Format, place: u32, p: u32) -> Result<(), Refusal>
    ensures { Says (verdict_of_posit f.n place p) result }
{
    if power32(f.n) <= p {
        return Err(Reason::TooLarge.at(place));
    }
    Ok(())
}

// The left operand, then the right one.
pub fn judge_posits(f: Format, p: u32, q: u32) -> Result<(), Refusal>
    ensures { Says (verdict_of_posits f.n p q) result }
{
    judge_posit(f, LEFT, p)?;
    judge_posit(f, RIGHT, q)
}
