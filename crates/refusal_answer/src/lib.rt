// What the program prints of a refusal, of a table or of a record, and whether the run ends with it.
#![tactic(auto)]

ghost use Rattle.std.specs.Prelude.{◌+◌, ◌≤◌, leb, length};
ghost use Rattle.refusal.specs.Refusals.{number};
ghost use Rattle.lines.specs.Printed.{refusal_line};
ghost use Rattle.refusal_answer.specs.Answers.{TextAnswered};

use lines::put_refusal;
use refusal::Refusal;
use text::TextSpace;

// A refusal's line after so many accepted steps, and whether it ends the run.
pub fn answer_refusal(refusal: Refusal, steps: u64, text: &mut TextSpace<'_>) -> bool
    requires { text.old.at + 50 ≤ length text.old.bytes.now }
    ensures { TextAnswered result text.old text.new (refusal_line steps (number refusal)) (leb (number refusal) 10) }
{
    let code = refusal.code();
    put_refusal(text, steps, code);
    code <= 10
}
