// An answer in one number, as the C boundary gives it (paper 01, "What the product covers").
#![tactic(auto)]

ghost use Rattle.std.specs.Prelude.{◌≡◌, ◌<◌};
ghost use Rattle.plan.specs.Boundary.{answer_number};

use plan::Answer;

// An answer in one number.
pub fn packed(answer: Answer) -> u64
    requires { (answer.number < 65536) × (answer.table < 65536) }
    ensures { result ≡ answer_number answer }
{
    answer.number as u64 + 65536 * answer.table as u64 + 4294967296 * answer.row as u64
}
