// A cube against tables. A cube is given by its two halves, the columns that must be 1 and those that must be 0, bit k for
// column k. The first column splits a table in the middle; where the columns before the last six are all dashes, every word of the
// cube's table is the same, and one loop over the words does.
ghost use Rattle.std.specs.Prelude.{◌≡◌, ◌+◌, ◌-◌, ◌/◌, ◌%◌, ◌<◌, ◌≤◌};
ghost use Rattle.rule.specs.Point.{odd};
ghost use Rattle.words.specs.Word.{plain, placed};
ghost use Rattle.words.specs.Contract.{answer_number, Sized, SizedBoth, SizedMany, SizedWord, SizedBothWord, FoundInWord, FirstUnder, FirstIn, Added};

use crate::{table, word};

// The two halves of a cube.
#[derive(Clone, Copy)]
pub struct Halves {
    pub ones: u16,
    pub zeros: u16,
}

impl Halves {
    // Whether the first column must be 1.
    pub fn first_is_one(self) -> bool
        ensures { result ≡ odd self.ones }
    {
        self.ones % 2 == 1
    }

    // Whether the first column must be 0.
    pub fn first_is_zero(self) -> bool
        ensures { result ≡ odd self.zeros }
    {
        self.zeros % 2 == 1
    }

    // The cube of the columns after the first.
    pub fn rest(self) -> Halves
        ensures ones { result.ones ≡ self.ones / 2 }
        ensures zeros { result.zeros ≡ self.zeros / 2 }
    {
        Halves {
            ones: self.ones / 2,
            zeros: self.zeros / 2,
        }
    }
}

// The cube with a number.
impl From<u32> for Halves {
    fn from(cube: u32) -> Halves
        ensures ones { result.ones ≡ cube % 65536 }
        ensures zeros { result.zeros ≡ cube / 65536 }
    {
        Halves {
            ones: (cube % 65536) as u16,
            zeros: (cube / 65536) as u16,
        }
    }
}

// Whether the columns before the last six are all dashes.
fn all_dashes(columns: u16, cube: Halves) -> bool
    requires { columns ≤ 16 }
    ensures { result ≡ plain columns cube.ones cube.zeros }
{
    if columns <= 6 {
        return true;
    }
    let before: u16 = (1 << (columns - 6)) - 1;
    (cube.ones & before) == 0 && (cube.zeros & before) == 0
}

// The number of a point of a table, by the place of its word and its number there. The last of the columns before the last six
// is the place's lowest digit; the first column is its highest, and the number's lowest.
fn number_by_place(columns: u16, place: u32, found: u32) -> u32
    requires { FoundInWord columns place (found + 1) }
    ensures { result + 1 ≡ placed (columns - 6) place (found + 1) }
{
    let mut i = place;
    let mut p = found;
    for _ in 6..columns {
        p = 2 * p + i % 2;
        i /= 2;
    }
    p
}

// The smallest point of a table with one word against each of its words. One loop over the words stops at the first that is met,
// and its place gives the number.
fn first_under(s: &[u64], columns: u16, w: u64) -> Option<u32>
    requires { SizedMany columns s.now }
    ensures { FirstUnder columns w s.now (answer_number result) }
{
    let i = table::first_met(s, w)?;
    let p = word::first_bit(w & s[i], 6)?;
    Some(number_by_place(columns, i as u32, p))
}

// The search in the two halves of a table, the half for 0 in the first column first. It is not inlined and the search below is, so
// that no frame is made for a part that need not be split.
#[inline(never)]
#[cycle(first_from)]
fn first_by_halves(s: &[u64], columns: u16, cube: Halves, w: u64) -> Option<u32>
    requires more { 6 < columns }
    requires sized { SizedWord columns cube.ones cube.zeros w s.now }
    ensures { FirstIn columns cube.ones cube.zeros s.now (answer_number result) }
{
    let (low, high) = s.split_at(s.len() / 2);
    let rest = cube.rest();
    if !cube.first_is_one() {
        if let Some(p) = first_from(low, columns - 1, rest, w) {
            return Some(2 * p);
        }
        if cube.first_is_zero() {
            return None;
        }
    }
    let p = first_from(high, columns - 1, rest, w)?;
    Some(2 * p + 1)
}

// The search below, given the word of the cube's last six columns.
#[inline(always)]
#[cycle(first_from)]
fn first_from(s: &[u64], columns: u16, cube: Halves, w: u64) -> Option<u32>
    requires { SizedWord columns cube.ones cube.zeros w s.now }
    ensures { FirstIn columns cube.ones cube.zeros s.now (answer_number result) }
{
    if columns <= 6 {
        return word::first_bit(w & s[0], columns);
    }
    if all_dashes(columns, cube) {
        return first_under(s, columns, w);
    }
    first_by_halves(s, columns, cube, w)
}

// The smallest point of a table that a cube covers.
pub fn first_in(s: &[u64], columns: u16, cube: Halves) -> Option<u32>
    requires { Sized columns s.now }
    ensures { FirstIn columns cube.ones cube.zeros s.now (answer_number result) }
{
    let w = word::cube_word(columns, cube);
    first_from(s, columns, cube, w)
}

// The addition below, given the word of the cube's last six columns.
// Kept: two tables and no struct of both, since each step lends a part of each, and would make the struct anew for each part.
fn add_from(covered: &mut [u64], twice: &mut [u64], columns: u16, cube: Halves, w: u64)
    requires { SizedBothWord columns cube.ones cube.zeros w covered.old twice.old }
    ensures { Added columns cube.ones cube.zeros covered.old twice.old covered.new twice.new }
{
    if all_dashes(columns, cube) {
        table::add_word(covered, twice, w);
        return;
    }
    let h = covered.len() / 2;
    let rest = cube.rest();
    if cube.first_is_one() {
        add_from(&mut covered[h..], &mut twice[h..], columns - 1, rest, w);
        return;
    }
    add_from(&mut covered[..h], &mut twice[..h], columns - 1, rest, w);
    if cube.first_is_zero() {
        return;
    }
    add_from(&mut covered[h..], &mut twice[h..], columns - 1, rest, w);
}

// Adds a cube to what is covered, and what of it was covered before to what is covered twice.
pub fn add_cube(covered: &mut [u64], twice: &mut [u64], columns: u16, cube: Halves)
    requires { SizedBoth columns covered.old twice.old }
    ensures { Added columns cube.ones cube.zeros covered.old twice.old covered.new twice.new }
{
    let w = word::cube_word(columns, cube);
    add_from(covered, twice, columns, cube, w);
}
