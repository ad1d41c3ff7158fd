// Reading a candidate list: all lines are judged first, then the rows are taken through the same lines.
ghost use Rattle.std.specs.Prelude.{◌≡◌, ◌+◌, ◌≤◌, length};
ghost use Rattle.line.specs.Bytes.{lines};
ghost use Rattle.text.specs.Room.{Put};
ghost use Rattle.text.specs.Candidate.{row_numbers, read_answer, Read};

use crate::judge;
use crate::reader::Reader;
use line::meaning::Line;
use rule::refusal::{Refusal, Refused};

// The cubes of a text's rows, in order, and their number.
fn put_cubes(text: &[u8], room: &mut [u32]) -> usize
    requires { (length text.now ≤ 32768) × (length (row_numbers (lines text.now)) ≤ length room.old) }
    ensures put { Put room.old 0 (row_numbers (lines text.now)) room.new result }
    ensures within { result ≤ length room.new }
{
    let mut reader = Reader { text, at: 0 };
    let mut place = 0;
    while let Some(line) = reader.next_line() {
        match line {
            Line::End => break,
            Line::Row(_, cube, _) => {
                room[place] = cube;
                place += 1;
            }
            _ => {}
        }
    }
    place
}

// The answer: the first refusal that applies, else the number of rows.
#[tactic(auto, unfolding(crate::specs::Candidate::read_answer, crate::specs::Candidate::read_conditions, crate::specs::Candidate::read_by, crate::specs::Candidate::read_returns, rule::specs::Refusal::first_broken, rule::specs::Refusal::refusal_of))]
fn read_answer(columns: u16, text: &[u8], room: usize) -> Result<usize, Refused>
    ensures { result ≡ read_answer columns text.now room }
{
    if columns < 1 || 16 < columns {
        return Err(Refusal::ColumnsOver.into());
    }
    if 32768 < text.len() {
        return Err(Refusal::TextOver.into());
    }
    if 16384 < room {
        return Err(Refusal::ListOver.into());
    }
    let judged = judge::judge(columns, text);
    let shape = judged.map_err(|line| Refusal::TextFault.returning(line as usize))?;
    let needed = shape.rows as usize;
    if room < needed {
        return Err(Refusal::ListLacks.returning(needed));
    }
    Ok(needed)
}

// Reads a candidate for a function of so many columns. Refused: `ColumnsOver` for 0 columns or over 16, `TextOver` for a text
// over 32,768 bytes, `ListOver` for a list room over 16,384, and the room is as it was; `TextFault` with the line of the first
// fault, `ListLacks` with the number of rows, and the room is zero. Done: the cubes in order, and zeros past them.
pub fn read_candidate(columns: u16, text: &[u8], room: &mut [u32]) -> Result<usize, Refused>
    ensures { Read columns text.now room.old room.new result }
{
    let answer = read_answer(columns, text, room.len());
    match answer {
        Ok(_) => {
            let past = put_cubes(text, room);
            room[past..].fill(0);
        }
        Err(refused) => {
            if let Refusal::TextFault | Refusal::ListLacks = refused.refusal {
                room.fill(0);
            }
        }
    }
    answer
}
