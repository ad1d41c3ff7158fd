// Single words: at most six columns, the first of them splitting a word into a lower and an upper half.
ghost use Rattle.std.specs.Prelude.{◌≡◌, ◌≤◌, ◌<◌, ◌^◌};
ghost use Rattle.words.specs.Word.{leaf};
ghost use Rattle.words.specs.Contract.{answer_number, ConstantWord, Packed, FirstBit};

use crate::cube::Halves;

// The number of points of at most five columns.
fn points(columns: u16) -> u16
    requires { columns < 6 }
    ensures { result ≡ 2 ^ columns }
{
    1 << columns
}

// The first number of more bits than a word of at most five columns has.
fn side(columns: u16) -> u64
    requires { columns < 6 }
    ensures { result ≡ 2 ^ (2 ^ columns) }
{
    let n = points(columns);
    1u64 << n
}

// The word of a constant; from six columns on, each word of its table.
pub fn constant_word(columns: u16, b: bool) -> u64
    ensures { ConstantWord columns b result }
{
    if !b {
        return 0;
    }
    if columns < 6 {
        return side(columns) - 1;
    }
    u64::MAX
}

// The word of one column more, made of the words of its halves.
pub fn pack(low: u64, high: u64, columns: u16) -> u64
    requires { columns < 6 }
    ensures { Packed columns low high result }
{
    let n = points(columns);
    (high << n) | low
}

// The word of the last six columns of a cube, or of all its columns where they are fewer.
pub fn cube_word(columns: u16, cube: Halves) -> u64
    ensures { result ≡ leaf columns cube.ones cube.zeros }
{
    if columns == 0 {
        return 1;
    }
    let rest = cube_word(columns - 1, cube.rest());
    if 6 < columns {
        return rest;
    }
    if cube.first_is_one() {
        return rest * side(columns - 1);
    }
    if cube.first_is_zero() {
        return rest;
    }
    rest * side(columns - 1) + rest
}

// The smallest point of a word's function.
pub fn first_bit(w: u64, columns: u16) -> Option<u32>
    requires { columns ≤ 6 }
    ensures { FirstBit columns w (answer_number result) }
{
    if w == 0 {
        return None;
    }
    if columns == 0 {
        return Some(0);
    }
    let n = points(columns - 1);
    let low = w & (side(columns - 1) - 1);
    let high = w >> n;
    if let Some(p) = first_bit(low, columns - 1) {
        return Some(2 * p);
    }
    let p = first_bit(high, columns - 1)?;
    Some(2 * p + 1)
}
