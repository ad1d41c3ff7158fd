// The second program: the verdict on a candidate for a function text, or a refusal.
ghost use Rattle.std.specs.Prelude.{◌≤◌, length};
ghost use Rattle.desk.specs.Answer.{check_answer, Answers};
ghost use Rattle.desk.specs.Judged.{Says};
ghost use Rattle.desk.specs.Contract.{Fits, ReadyIn, candidate_said_of};

use crate::rooms::{ANSWER_ROOM, Rooms};
use crate::said;
use graph::table::TableRef;
use list::check;
use text::function::Function;
use text::{candidate, ending};

// The verdict on the candidate after the function text, for the function in the rooms, or the candidate's refusal.
fn say_verdict(input: &[u8], function: Function, rooms: &mut Rooms, answer: &mut [u8]) -> usize
    requires input { length input.now ≤ 32768 }
    requires ready { ReadyIn function rooms.old answer.old }
    ensures { Says (candidate_said_of function rooms.old input.now) answer.old answer.new result }
{
    let table = TableRef {
        columns: function.columns,
        count: function.count,
        level: &rooms.level,
        low: &rooms.low,
        high: &rooms.high,
    };
    let list: &mut [u32] = &mut rooms.list;
    match candidate::read_candidate(table.columns, ending::after_end(input), list) {
        Err(refused) => said::say_refused(answer, refused.refusal, refused.returned as u32),
        Ok(rows) => match check::check(table, function.lower, function.upper, &list[..rows]) {
            Err(refused) => said::say_refused(answer, refused.refusal, refused.returned as u32),
            Ok(verdict) => said::say_judged(answer, table.columns, verdict),
        },
    }
}

// The answer, in lent rooms.
// Kept: both programs have this body, since one with a closure would state again what `say_verdict` asks and promises.
fn check_in(input: &[u8], rooms: &mut Rooms, answer: &mut [u8]) -> usize
    requires { Fits answer.old }
    ensures { Says (check_answer input.now) answer.old answer.new result }
{
    match rooms.read(input) {
        Err(refused) => said::say_refused(answer, refused.refusal, refused.returned as u32),
        Ok(function) => say_verdict(input, function, rooms, answer),
    }
}

// The second program's answer, with zeros past it, and the number of its bytes. A room that not every answer fits is left as it
// is, and 0 is returned.
pub fn check_answer(input: &[u8], answer: &mut [u8]) -> usize
    ensures { Answers (check_answer input.now) answer.old answer.new result }
{
    // Kept: 0 and no `None`, since the public contract (`Answers`) promises 0, and the C interface returns what this does.
    if answer.len() < ANSWER_ROOM {
        return 0;
    }
    check_in(input, &mut Rooms::new(), answer)
}
