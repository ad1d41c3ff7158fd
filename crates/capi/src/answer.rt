// The exports of the two programs' answers.
ghost use Rattle.desk.specs.Answer.{list_answer, check_answer, Answers};

use desk::{checks, lists};

// The first program's answer to an input: a list's text, or a refusal.
#[unsafe(no_mangle)]
pub extern "C" fn dowrhesk_list_answer(input: &[u8], answer: &mut [u8]) -> usize
    ensures { Answers (list_answer input.now) answer.old answer.new result }
{
    lists::list_answer(input, answer)
}

// The second program's answer to an input: a verdict's line, or a refusal.
#[unsafe(no_mangle)]
pub extern "C" fn dowrhesk_check_answer(input: &[u8], answer: &mut [u8]) -> usize
    ensures { Answers (check_answer input.now) answer.old answer.new result }
{
    checks::check_answer(input, answer)
}
