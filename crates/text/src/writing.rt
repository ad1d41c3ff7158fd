// Writing a list as text: `.i`, `.o`, `.p`, a row for each cube, `.e`.
ghost use Rattle.std.specs.Prelude.{◌≡◌, map, ◌+◌, ◌≤◌, ◌<◌, length};
ghost use Rattle.rule.specs.Point.{odd};
ghost use Rattle.rule.specs.Number.{signs, signs_from, sign_of};
ghost use Rattle.line.specs.Decimal.{decimal};
ghost use Rattle.text.specs.Writing.{sign_byte, row_text, rows_text, list_text, write_answer, Wrote, Writable};
ghost use Rattle.text.specs.Writer.{SameRoom, PutIn};
ghost use Rattle.text.specs.Room.{padded};

use crate::writer::Writer;
use rule::cube;
use rule::refusal::{Refusal, Refused};

// The byte of the first column's sign.
#[tactic(auto, unfolding(crate::specs::Writing::sign_byte, rule::specs::Number::sign_of, rule::specs::Point::odd))]
fn sign_byte(ones: u32, zeros: u32) -> u8
    ensures { result ≡ sign_byte (sign_of (odd ones) (odd zeros)) }
{
    if ones % 2 == 1 {
        b'1'
    } else if zeros % 2 == 1 {
        b'0'
    } else {
        b'-'
    }
}

// The signs of a cube, column by column.
// Kept: the halves as two numbers, since the loop takes both apart digit by digit.
fn put_signs(writer: &mut Writer<'_>, columns: u16, ones: u32, zeros: u32)
    requires { writer.old.at + columns ≤ length writer.old.room.now }
    ensures same { SameRoom writer.old writer.new }
    ensures put { PutIn writer.old (map sign_byte (signs_from columns ones zeros)) writer.new }
{
    let mut o = ones;
    let mut z = zeros;
    for _ in 0..columns {
        writer.byte(sign_byte(o, z));
        o /= 2;
        z /= 2;
    }
}

// A row: the cube's signs, a space and 1.
fn put_row(writer: &mut Writer<'_>, columns: u16, cube: u32)
    requires { writer.old.at + length (row_text (signs columns cube)) ≤ length writer.old.room.now }
    ensures same { SameRoom writer.old writer.new }
    ensures put { PutIn writer.old (row_text (signs columns cube)) writer.new }
{
    put_signs(writer, columns, cube % 65536, cube / 65536);
    writer.bytes(b" 1\n");
}

// The rows of a list.
fn put_rows(writer: &mut Writer<'_>, columns: u16, list: &[u32])
    requires { writer.old.at + length (rows_text columns list.now) ≤ length writer.old.room.now }
    ensures same { SameRoom writer.old writer.new }
    ensures put { PutIn writer.old (rows_text columns list.now) writer.new }
{
    for cube in list {
        put_row(writer, columns, *cube);
    }
}

// The digits of a number.
fn digit_count(n: usize) -> usize
    requires { n < 100000 }
    ensures { result ≡ length (decimal n) }
{
    match n {
        0..=9 => 1,
        10..=99 => 2,
        100..=999 => 3,
        1000..=9999 => 4,
        _ => 5,
    }
}

// The bytes that a list's text needs.
fn bytes_needed(columns: u16, list: &[u32]) -> usize
    requires { (columns ≤ 16) × (length list.now ≤ 16384) }
    ensures { result ≡ length (list_text columns list.now) }
{
    let wide = columns as usize;
    16 + digit_count(wide) + digit_count(list.len()) + list.len() * (wide + 3)
}

// The answer: the first refusal that applies, else the bytes to be written.
fn answer(columns: u16, list: &[u32], room: usize) -> Result<usize, Refused>
    ensures { result ≡ write_answer columns list.now room }
{
    if columns < 1 || 16 < columns {
        return Err(Refusal::ColumnsOver.into());
    }
    if 16384 < list.len() {
        return Err(Refusal::ListOver.into());
    }
    if let Some(place) = cube::first_malformed(columns, list) {
        return Err(Refusal::CubeMalformed.returning(place));
    }
    let needed = bytes_needed(columns, list);
    if room < needed {
        return Err(Refusal::TextLacks.returning(needed));
    }
    Ok(needed)
}

// The text of a list, and zeros past it.
fn put_text(columns: u16, list: &[u32], room: &mut [u8])
    requires { Writable columns list.now (length room.old) }
    ensures { room.new ≡ padded (list_text columns list.now) room.old }
{
    let mut writer = Writer { room, at: 0 };
    writer.bytes(b".i ");
    writer.number(columns as u32);
    writer.bytes(b"\n.o 1\n.p ");
    writer.number(list.len() as u32);
    writer.bytes(b"\n");
    put_rows(&mut writer, columns, list);
    writer.bytes(b".e\n");
    writer.clear_rest();
}

// Writes a list of cubes as text. Refused: `ColumnsOver` for 0 columns or over 16, `ListOver` for over 16,384 cubes,
// `CubeMalformed` with the position of the first malformed cube, `TextLacks` with the bytes needed; then the room is as it was.
// Done: the text, and zeros past it.
pub fn write_list(columns: u16, list: &[u32], room: &mut [u8]) -> Result<usize, Refused>
    ensures { Wrote columns list.now room.old room.new result }
{
    let written = answer(columns, list, room.len())?;
    put_text(columns, list, room);
    Ok(written)
}
