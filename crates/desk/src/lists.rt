// The first program: the list of a function text, or a refusal.
ghost use Rattle.desk.specs.Answer.{list_answer, Answers};
ghost use Rattle.desk.specs.Judged.{Says};
ghost use Rattle.desk.specs.Contract.{Fits, ReadyIn, list_said_of};

use crate::rooms::{ANSWER_ROOM, Rooms};
use crate::said;
use graph::build::TableMut;
use list::entry;
use text::function::Function;
use text::writing;

// The list of the function in the rooms, or its refusal.
fn say_list(function: Function, rooms: &mut Rooms, answer: &mut [u8]) -> usize
    requires { ReadyIn function rooms.old answer.old }
    ensures { Says (list_said_of function rooms.old) answer.old answer.new result }
{
    let mut table = TableMut {
        columns: function.columns,
        count: function.count,
        level: &mut rooms.level,
        low: &mut rooms.low,
        high: &mut rooms.high,
    };
    let list: &mut [u32] = &mut rooms.list;
    match entry::generate(&mut table, function.lower, function.upper, list) {
        Err(refused) => said::say_refused(answer, refused.refusal, refused.returned as u32),
        Ok(length) => {
            // Nothing is refused: what was delivered is a list of the rule, and the text of 1,536 cubes fits the room.
            let Ok(written) = writing::write_list(function.columns, &list[..length], answer) else {
                unreachable!()
            };
            written
        }
    }
}

// The answer, in lent rooms.
// Kept: both programs have this body, since one with a closure would state again what `say_list` asks and promises.
fn list_in(input: &[u8], rooms: &mut Rooms, answer: &mut [u8]) -> usize
    requires { Fits answer.old }
    ensures { Says (list_answer input.now) answer.old answer.new result }
{
    match rooms.read(input) {
        Err(refused) => said::say_refused(answer, refused.refusal, refused.returned as u32),
        Ok(function) => say_list(function, rooms, answer),
    }
}

// The first program's answer, with zeros past it, and the number of its bytes. A room that not every answer fits is left as it
// is, and 0 is returned.
pub fn list_answer(input: &[u8], answer: &mut [u8]) -> usize
    ensures { Answers (list_answer input.now) answer.old answer.new result }
{
    // Kept: 0 and no `None`, since the public contract (`Answers`) promises 0, and the C interface returns what this does.
    if answer.len() < ANSWER_ROOM {
        return 0;
    }
    list_in(input, &mut Rooms::new(), answer)
}
