// The verdict on a list of well-formed cubes, by searches in four tables: on, off, covered, and covered twice.
ghost use Rattle.std.specs.Prelude.{◌≡◌, ◌≤◌};
ghost use Rattle.words.specs.Word.{size};
ghost use Rattle.checker.specs.Contract.{Rooms, FaultsFound, RootTablesIn, TablesFilledIn, JudgingIn, VerdictGivenIn};

use crate::fault::Verdict;
use crate::{faults, fill};
use graph::table::TableRef;
use words::table as whole;

// The first fault, given the tables of the on and of the off points, and room for two more.
fn first_fault(
    on: &[u64],
    off: &[u64],
    covered: &mut [u64],
    twice: &mut [u64],
    columns: u16,
    list: &[u32],
) -> Verdict
    requires { Rooms columns on.now off.now covered.old twice.old list.now }
    ensures { FaultsFound columns on.now off.now list.now result }
{
    faults::off_fault(off, columns, list)?;
    faults::cover(covered, twice, columns, list);
    whole::left_into(covered, on);
    faults::missing_fault(covered, columns)?;
    faults::literal_fault(off, columns, list)?;
    whole::left_into(twice, on);
    faults::cube_fault(twice, columns, list)
}

// The tables of the on points and of the off points of two roots.
fn fill_tables(on: &mut [u64], off: &mut [u64], table: TableRef<'_>, lower: u16, upper: u16)
    requires { RootTablesIn table lower upper on.old off.old }
    ensures { TablesFilledIn table.entry lower upper on.new off.new }
{
    fill::fill_from(on, &table, 0, lower);
    fill::fill_from(off, &table, 0, upper);
    whole::outside(off, table.columns);
}

// The number of words of a table.
fn words_of(columns: u16) -> usize
    requires { columns ≤ 16 }
    ensures size { result ≡ size columns }
    ensures fits { result ≤ 1024 }
{
    if columns <= 6 {
        return 1;
    }
    1 << (columns - 6)
}

// The verdict of the rule on a list of well-formed cubes.
pub fn judge(table: TableRef<'_>, lower: u16, upper: u16, list: &[u32]) -> Verdict
    requires { JudgingIn table lower upper list.now }
    ensures { VerdictGivenIn table.entry lower upper list.now result }
{
    let n = words_of(table.columns);
    let mut on = [0u64; 1024];
    let mut off = [0u64; 1024];
    let mut covered = [0u64; 1024];
    let mut twice = [0u64; 1024];
    fill_tables(&mut on[..n], &mut off[..n], table, lower, upper);
    first_fault(
        &on[..n],
        &off[..n],
        &mut covered[..n],
        &mut twice[..n],
        table.columns,
        list,
    )
}
