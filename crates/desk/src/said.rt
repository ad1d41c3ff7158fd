// The one-line answers: a refusal and a verdict. Every line fits 32 bytes.
ghost use Rattle.std.specs.Prelude.{List, [], ◌∷◌, ◌++◌, ℕ, ◌+◌, ◌≤◌, ◌<◌, length};
ghost use Rattle.rule.specs.Refusal.{number_of};
ghost use Rattle.rule.specs.Verdict.{off, missing};
ghost use Rattle.rule.specs.Verdict.{cube as Verdict·cube};
ghost use Rattle.line.specs.Bytes.{bytes};
ghost use Rattle.text.specs.Room.{Put};
ghost use Rattle.text.specs.Writer.{SameRoom, PutIn};
ghost use Rattle.text.specs.Writing.{joined};
ghost use Rattle.desk.specs.Said.{numeral, point_text, refused_text, verdict_text};
ghost use Rattle.desk.specs.Judged.{judged_text, Says};

use checker::fault::{Fault, Verdict};
use rule::refusal::Refusal;
use text::writer::Writer;

// The digits of a point, column by column.
fn put_point(writer: &mut Writer<'_>, columns: u16, point: u32)
    requires { writer.old.at + columns ≤ length writer.old.room.now }
    ensures same { SameRoom writer.old writer.new }
    ensures put { PutIn writer.old (point_text columns point) writer.new }
{
    let mut p = point;
    for _ in 0..columns {
        writer.byte(48 + (p % 2) as u8);
        p /= 2;
    }
}

// The end of a line, zeros past it, and the number of the bytes.
fn end_line(writer: &mut Writer<'_>) -> usize
    requires { writer.old.at < length writer.old.room.now }
    ensures same { SameRoom writer.old writer.new }
    ensures says { (old : List ℕ) (w : List ℕ) → Put old 0 w writer.old.room.now writer.old.at → Says (w ++ bytes "\n") old writer.new.room.now result }
{
    writer.byte(b'\n');
    writer.clear_rest();
    writer.at
}

// A word and two numbers.
fn say_numbers(room: &mut [u8], word: &[u8], a: u32, b: u32) -> usize
    requires { (length word.now ≤ 8) × (32 ≤ length room.old) }
    ensures { Says (joined (word.now ∷ numeral a ∷ bytes " " ∷ numeral b ∷ bytes "\n" ∷ [])) room.old room.new result }
{
    let mut writer = Writer { room, at: 0 };
    writer.bytes(word);
    writer.number(a);
    writer.byte(b' ');
    writer.number(b);
    end_line(&mut writer)
}

// A cube that covers an off point, and the point.
fn say_off(room: &mut [u8], columns: u16, cube: u32, point: u32) -> usize
    requires { (columns ≤ 16) × (32 ≤ length room.old) }
    ensures { Says (verdict_text columns (off cube point)) room.old room.new result }
{
    let mut writer = Writer { room, at: 0 };
    writer.bytes(b"off ");
    writer.number(cube);
    writer.byte(b' ');
    put_point(&mut writer, columns, point);
    end_line(&mut writer)
}

// An on point that is not covered.
fn say_missing(room: &mut [u8], columns: u16, point: u32) -> usize
    requires { (columns ≤ 16) × (32 ≤ length room.old) }
    ensures { Says (verdict_text columns (missing point)) room.old room.new result }
{
    let mut writer = Writer { room, at: 0 };
    writer.bytes(b"missing ");
    put_point(&mut writer, columns, point);
    end_line(&mut writer)
}

// A cube that can go.
fn say_cube(room: &mut [u8], columns: u16, cube: u32) -> usize
    requires { 32 ≤ length room.old }
    ensures { Says (verdict_text columns (Verdict·cube cube)) room.old room.new result }
{
    let mut writer = Writer { room, at: 0 };
    writer.bytes(b"cube ");
    writer.number(cube);
    end_line(&mut writer)
}

// That nothing is wrong with a list.
fn say_accept(room: &mut [u8]) -> usize
    requires { 32 ≤ length room.old }
    ensures { Says (bytes "accept\n") room.old room.new result }
{
    let mut writer = Writer { room, at: 0 };
    writer.bytes(b"accept");
    end_line(&mut writer)
}

// A refusal's number and what it returns.
pub fn say_refused(room: &mut [u8], refusal: Refusal, returned: u32) -> usize
    requires { 32 ≤ length room.old }
    ensures { Says (refused_text (number_of refusal) returned) room.old room.new result }
{
    let number = refusal.number() as u32;
    say_numbers(room, b"refused ", number, returned)
}

// The checker's answer, its columns from 1.
pub fn say_judged(room: &mut [u8], columns: u16, verdict: Verdict) -> usize
    requires { (columns ≤ 16) × (32 ≤ length room.old) }
    ensures { Says (judged_text columns verdict) room.old room.new result }
{
    match verdict {
        Ok(()) => say_accept(room),
        Err(Fault::Off(cube, point)) => say_off(room, columns, cube, point),
        Err(Fault::Missing(point)) => say_missing(room, columns, point),
        Err(Fault::Literal(cube, column)) => {
            say_numbers(room, b"literal ", cube, column as u32 + 1)
        }
        Err(Fault::Cube(cube)) => say_cube(room, columns, cube),
    }
}
