// What a line means by itself, whatever stands before it: a directive, a row, the end or nothing.
// A line of another form is bad, and so is a value out of its range.
ghost use Rattle.std.specs.Prelude.{◌≡◌, ◌+◌, ◌*◌, ◌≤◌, length};
ghost use Rattle.rule.specs.Point.{bit};
ghost use Rattle.rule.specs.Number.{is_one, is_zero, cube_number};
ghost use Rattle.line.specs.Decimal.{number};
ghost use Rattle.line.specs.Meaning.{is_sign, read_sign, is_cube, read_cube, columns_line, output_line, kind_line, count_line, signed_line, row_line, pair_line, single_line, meaning};

use crate::scan::Class;
use crate::{number, scan};

// The types of a text.
#[derive(Clone, Copy)]
pub enum Kind {
    F,
    Fd,
    Fr,
}

// The output signs: 0, 1, - and ~.
#[derive(Clone, Copy)]
pub enum Out {
    Zero,
    One,
    Dash,
    Tilde,
}

// The meaning of a line. A row has its number of signs, its cube's number and its output sign.
#[derive(Clone, Copy)]
pub enum Line {
    Empty,
    Columns(u16),
    Output,
    Typed(Kind),
    Count(u32),
    Row(u16, u32, Out),
    End,
    Bad,
}

// Whether a byte is a sign of a row.
#[tactic(auto, unfolding(crate::specs::Meaning::is_sign))]
fn is_sign(b: u8) -> bool
    ensures { result ≡ is_sign b }
{
    matches!(b, b'0' | b'1' | b'-' | b'2')
}

// Whether a field is a cube: at most 16 signs.
fn is_cube(a: &[u8]) -> bool
    ensures { result ≡ is_cube a.now }
{
    a.len() <= 16 && a.iter().all(|b| is_sign(*b))
}

// The bits of a sign in column 0.
#[tactic(auto, unfolding(crate::specs::Meaning::read_sign, rule::specs::Number::is_one, rule::specs::Number::is_zero, rule::specs::Point::bit))]
fn sign_bits(sign: u8) -> u32
    ensures { result ≡ bit (is_one (read_sign sign)) + 65536 * bit (is_zero (read_sign sign)) }
{
    match sign {
        b'0' => 65536,
        b'1' => 1,
        _ => 0,
    }
}

// The number of the cube that a field is, read from its last sign to its first.
fn cube_of(a: &[u8]) -> u32
    requires { length a.now ≤ 16 }
    ensures { result ≡ cube_number (read_cube a.now) }
{
    let mut x: u32 = 0;
    for b in a.iter().rev() {
        x = sign_bits(*b) + 2 * x;
    }
    x
}

// `.i N`
#[tactic(auto, unfolding(crate::specs::Meaning::columns_line))]
fn columns_line(b: &[u8]) -> Line
    ensures { result ≡ columns_line (number b.now) }
{
    match number::read_number(b) {
        Some(n @ 1..=16) => Line::Columns(n as u16),
        _ => Line::Bad,
    }
}

// `.o 1`
#[tactic(auto, unfolding(crate::specs::Meaning::output_line, crate::specs::Bytes::is, crate::specs::Bytes::bytes, rule::specs::Marked::same_list))]
fn output_line(b: &[u8]) -> Line
    ensures { result ≡ output_line b.now }
{
    match b {
        b"1" => Line::Output,
        _ => Line::Bad,
    }
}

// `.type f`, `fd` or `fr`
#[tactic(auto, unfolding(crate::specs::Meaning::kind_line, crate::specs::Bytes::is, crate::specs::Bytes::bytes, rule::specs::Marked::same_list))]
fn kind_line(b: &[u8]) -> Line
    ensures { result ≡ kind_line b.now }
{
    match b {
        b"f" => Line::Typed(Kind::F),
        b"fd" => Line::Typed(Kind::Fd),
        b"fr" => Line::Typed(Kind::Fr),
        _ => Line::Bad,
    }
}

// `.p N`
#[tactic(auto, unfolding(crate::specs::Meaning::count_line))]
fn count_line(b: &[u8]) -> Line
    ensures { result ≡ count_line (number b.now) }
{
    match number::read_number(b) {
        Some(n) => Line::Count(n),
        None => Line::Bad,
    }
}

// A row of some signs with its output sign.
#[tactic(auto, unfolding(crate::specs::Meaning::signed_line, crate::specs::Bytes::is, crate::specs::Bytes::bytes, rule::specs::Marked::same_list))]
fn signed_line(signs: u16, cube: u32, b: &[u8]) -> Line
    ensures { result ≡ signed_line signs cube b.now }
{
    match b {
        b"0" => Line::Row(signs, cube, Out::Zero),
        b"1" => Line::Row(signs, cube, Out::One),
        b"-" => Line::Row(signs, cube, Out::Dash),
        b"~" => Line::Row(signs, cube, Out::Tilde),
        _ => Line::Bad,
    }
}

// A row.
#[tactic(auto, using(crate::proofs::Lines::cube_short), unfolding(crate::specs::Meaning::row_line))]
fn row_line(a: &[u8], b: &[u8]) -> Line
    ensures { result ≡ row_line a.now b.now }
{
    if !is_cube(a) {
        return Line::Bad;
    }
    signed_line(a.len() as u16, cube_of(a), b)
}

// A line of two fields.
#[tactic(auto, unfolding(crate::specs::Meaning::pair_line, crate::specs::Bytes::is, crate::specs::Bytes::bytes, rule::specs::Marked::same_list))]
fn pair_line(a: &[u8], b: &[u8]) -> Line
    ensures { result ≡ pair_line a.now b.now }
{
    match a {
        b".i" => columns_line(b),
        b".o" => output_line(b),
        b".type" => kind_line(b),
        b".p" => count_line(b),
        _ => row_line(a, b),
    }
}

// A line of one field.
#[tactic(auto, unfolding(crate::specs::Meaning::single_line, crate::specs::Bytes::is, crate::specs::Bytes::bytes, rule::specs::Marked::same_list))]
fn single_line(a: &[u8]) -> Line
    ensures { result ≡ single_line a.now }
{
    match a {
        b".e" => Line::End,
        _ => Line::Bad,
    }
}

// The meaning of a line.
pub fn line_meaning(line: &[u8]) -> Line
    ensures { result ≡ meaning line.now }
{
    let kept = scan::before_first(line, Class::Hash);
    let a = scan::first_field(kept);
    if a.is_empty() {
        return Line::Empty;
    }
    let after_a = scan::rest_fields(kept);
    let b = scan::first_field(after_a);
    if b.is_empty() {
        return single_line(a);
    }
    let after_b = scan::rest_fields(after_a);
    if !scan::first_field(after_b).is_empty() {
        return Line::Bad;
    }
    pair_line(a, b)
}
