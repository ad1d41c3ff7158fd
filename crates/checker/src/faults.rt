// The four faults, each a search in a table.
ghost use Rattle.std.specs.Prelude.{◌≡◌, ◌||◌, List, map, ℕ, ◌<◌, ◌^◌, ◌%◌, ◌/◌};
ghost use Rattle.std.specs.Int.Bits.{bit_xor};
ghost use Rattle.rule.specs.Point.{odd};
ghost use Rattle.words.specs.Contract.{answer_number, Sized, SizedBoth, FirstIn, Added};
ghost use Rattle.checker.specs.Contract.{Searched, Turning, OffFound, MissingFound, GoesFound, ColumnFound, LiteralFound, CubeFound, Covered};

use crate::fault::{Fault, Verdict};
use words::cube::{self, Halves};
use words::table;

// The smallest point of a table that the cube with a number covers.
fn search(s: &[u64], columns: u16, cube: u32) -> Option<u32>
    requires { Sized columns s.now }
    ensures { FirstIn columns (cube % 65536) (cube / 65536) s.now (answer_number result) }
{
    cube::first_in(s, columns, Halves::from(cube))
}

// (a) The first cube that covers a point of the off table, with the smallest such point.
pub fn off_fault(off: &[u64], columns: u16, list: &[u32]) -> Verdict
    requires { Searched columns off.now list.now }
    ensures { OffFound columns off.now list.now result }
{
    for (i, cube) in list.iter().enumerate() {
        if let Some(point) = search(off, columns, *cube) {
            return Err(Fault::Off((i + 1) as u32, point));
        }
    }
    Ok(())
}

// (b) The smallest point of the table of the on points that are not covered.
pub fn missing_fault(bare: &[u64], columns: u16) -> Verdict
    requires { Sized columns bare.now }
    ensures { MissingFound columns bare.now result }
{
    match search(bare, columns, 0) {
        Some(point) => Err(Fault::Missing(point)),
        None => Ok(()),
    }
}

// Whether a column of a cube has a literal.
fn has_literal(cube: Halves, k: u16) -> bool
    requires { k < 16 }
    ensures { result ≡ (odd (cube.ones / 2 ^ k) || odd (cube.zeros / 2 ^ k)) }
{
    (cube.ones >> k) % 2 == 1 || (cube.zeros >> k) % 2 == 1
}

// A cube with the literal of a column turned over.
fn turned(cube: Halves, k: u16) -> Halves
    requires { k < 16 }
    ensures ones { result.ones ≡ bit_xor cube.ones (2 ^ k) }
    ensures zeros { result.zeros ≡ bit_xor cube.zeros (2 ^ k) }
{
    let bit = 1 << k;
    Halves {
        ones: cube.ones ^ bit,
        zeros: cube.zeros ^ bit,
    }
}

// Whether a cube that covers no point of the off table has a literal in column k, and covers none with that literal turned over.
fn literal_goes(off: &[u64], columns: u16, cube: u32, k: u16) -> bool
    requires { Turning columns k off.now }
    ensures { GoesFound columns off.now cube k result }
{
    let cube = Halves::from(cube);
    has_literal(cube, k) && cube::first_in(off, columns, turned(cube, k)).is_none()
}

// The first column of a cube whose literal can go.
fn first_column(off: &[u64], columns: u16, cube: u32) -> Option<u16>
    requires { Sized columns off.now }
    ensures { ColumnFound columns off.now cube (answer_number result) }
{
    for k in 0..columns {
        if literal_goes(off, columns, cube, k) {
            return Some(k);
        }
    }
    None
}

// (c) The first cube, and in it the leftmost column, whose literal can go.
pub fn literal_fault(off: &[u64], columns: u16, list: &[u32]) -> Verdict
    requires { Searched columns off.now list.now }
    ensures { LiteralFound columns off.now list.now result }
{
    for (i, cube) in list.iter().enumerate() {
        if let Some(k) = first_column(off, columns, *cube) {
            return Err(Fault::Literal((i + 1) as u32, k));
        }
    }
    Ok(())
}

// (d) The first cube that covers no point of the table of the on points that are not covered twice.
pub fn cube_fault(lone: &[u64], columns: u16, list: &[u32]) -> Verdict
    requires { Searched columns lone.now list.now }
    ensures { CubeFound columns lone.now list.now result }
{
    for (i, cube) in list.iter().enumerate() {
        if search(lone, columns, *cube).is_none() {
            return Err(Fault::Cube((i + 1) as u32));
        }
    }
    Ok(())
}

// Adds the cube with a number to what is covered, and what of it was covered before to what is covered twice.
fn add_number(covered: &mut [u64], twice: &mut [u64], columns: u16, cube: u32)
    requires { SizedBoth columns covered.old twice.old }
    ensures { Added columns (cube % 65536) (cube / 65536) covered.old twice.old covered.new twice.new }
{
    cube::add_cube(covered, twice, columns, Halves::from(cube));
}

// The tables of what the list covers, and of what it covers twice: from its last cube to its first.
pub fn cover(covered: &mut [u64], twice: &mut [u64], columns: u16, list: &[u32])
    requires { SizedBoth columns covered.old twice.old }
    ensures { Covered columns list.now covered.new twice.new }
{
    table::fill(covered, columns, false);
    table::fill(twice, columns, false);
    for cube in list.iter().rev() {
        add_number(covered, twice, columns, *cube);
    }
}
