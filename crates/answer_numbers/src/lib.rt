// The reader's answer as the six numbers that a C caller receives.
#![tactic(auto)]

ghost use Rattle.std.specs.Prelude.{◌≡◌};
ghost use Rattle.rules.specs.Calls.{answer_numbers};
ghost use Rattle.one_document.specs.Answer.{answer_of};
ghost use Rattle.answer_numbers.specs.Fits.{AnswerFits};

use layout::ANSWER;
use one_document::Answer;
use text::Refusal;
use type_judge::TypeFault;
use type_stage::Refused;

// The six numbers of the reader's answer.
pub fn numbers_read(a: Answer) -> [u32; ANSWER]
    requires { AnswerFits a }
    ensures { result ≡ answer_numbers (answer_of a) }
{
    match a {
        Ok(n) => [0, 0, 0, 0, 0, n as u32],
        Err(Refused::InType(TypeFault::Malformed(f))) => [f.number, 1, f.at as u32, 0, 0, 0],
        Err(Refused::InType(TypeFault::Ambiguous(c))) => {
            [Refusal::Ambiguous as u32, 1, c.at, c.first, c.second, 0]
        }
        Err(Refused::InDocument(f)) => [f.number, 2, f.at as u32, 0, 0, 0],
    }
}
