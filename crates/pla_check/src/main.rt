// Reads a function text and a candidate after its `.e` on standard input, and writes the verdict or a refusal. One byte more than
// a text may have is asked for, so that a longer input is noticed. An input ends where it cannot be read on, and an answer that
// cannot be written is lost.
#![tactic(auto)]

use desk::checks;
use desk::rooms::ANSWER_ROOM;

fn main(rt: HostRuntime) {
    let mut input = [0u8; 32769];
    let length = intake::read_full(&mut rt.stdin(), &mut input);
    let mut answer = [0u8; ANSWER_ROOM];
    let said = checks::check_answer(&input[..length], &mut answer);
    let _ = rt.write_all(&answer[..said]);
}
