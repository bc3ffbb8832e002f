// The test of a divisor: 0 is none of its members.
ghost use Rattle.std.specs.Prelude.{[], ◌∷◌};
ghost use Rattle.call.specs.Operation.{number_of};
ghost use Rattle.call.specs.Verdict.{first_hit, Says};
ghost use Rattle.column.specs.Refusal.{divisor_test_at};
ghost use Rattle.word.specs.Member.{Real};

use call::operation::Operation;
use call::reason::Reason;
use call::refusal::Refusal;
use posit::inner::format::Format;
use signs::inner::zero::has_zero;

// The right operand of an operation, at a place.
pub fn judge_divisor(f: Format, op: Operation, place: u32, b: u64) -> Result<(), Refusal>
    requires { Real f.n b }
    ensures { Says (first_hit (divisor_test_at f.n f.es place (number_of op) b ∷ [])) result }
{
    match op {
        Operation::Divide => {
            if has_zero(f, b) {
                return Err(Reason::ZeroDivisor.at(place));
            }
            Ok(())
        }
        Operation::Add | Operation::Subtract | Operation::Multiply => Ok(()),
    }
}
