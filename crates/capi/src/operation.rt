// The operations that build: and, or, difference, variable. The array gets the root and the count of records in use.
// Kept: an export for each operation, its parameters one by one: the C interface.
ghost use Rattle.std.specs.Prelude.{◌&&◌, ltb};
ghost use Rattle.graph.specs.Entry.{in_range, result_of, variable_fn};
ghost use Rattle.capi.specs.Exports.{Operating};

use graph::build::TableMut;
use graph::entry;
use graph::operation::Op;
use telling::told;

// The function that is 1 where both roots are.
#[unsafe(no_mangle)]
pub extern "C" fn dowrhesk_and(
    columns: u16,
    level: &mut [u16],
    low: &mut [u16],
    high: &mut [u16],
    count: usize,
    a: u16,
    b: u16,
    out: &mut [u64; 2],
) -> u16
    ensures { Operating columns count level.old low.old high.old (in_range count a && in_range count b) (result_of Op.And columns level.old low.old high.old a b) level.new low.new high.new result out.new }
{
    let mut table = TableMut {
        columns,
        count,
        level,
        low,
        high,
    };
    let answer = entry::operate(&mut table, Op::And, a, b);
    told::tell(answer, table.count, out)
}

// The function that is 1 where either root is.
#[unsafe(no_mangle)]
pub extern "C" fn dowrhesk_or(
    columns: u16,
    level: &mut [u16],
    low: &mut [u16],
    high: &mut [u16],
    count: usize,
    a: u16,
    b: u16,
    out: &mut [u64; 2],
) -> u16
    ensures { Operating columns count level.old low.old high.old (in_range count a && in_range count b) (result_of Op.Or columns level.old low.old high.old a b) level.new low.new high.new result out.new }
{
    let mut table = TableMut {
        columns,
        count,
        level,
        low,
        high,
    };
    let answer = entry::operate(&mut table, Op::Or, a, b);
    told::tell(answer, table.count, out)
}

// The function that is 1 where the first root is and the second is not.
#[unsafe(no_mangle)]
pub extern "C" fn dowrhesk_difference(
    columns: u16,
    level: &mut [u16],
    low: &mut [u16],
    high: &mut [u16],
    count: usize,
    a: u16,
    b: u16,
    out: &mut [u64; 2],
) -> u16
    ensures { Operating columns count level.old low.old high.old (in_range count a && in_range count b) (result_of Op.Difference columns level.old low.old high.old a b) level.new low.new high.new result out.new }
{
    let mut table = TableMut {
        columns,
        count,
        level,
        low,
        high,
    };
    let answer = entry::operate(&mut table, Op::Difference, a, b);
    told::tell(answer, table.count, out)
}

// The function that is 1 where a column is 1.
#[unsafe(no_mangle)]
pub extern "C" fn dowrhesk_variable(
    columns: u16,
    level: &mut [u16],
    low: &mut [u16],
    high: &mut [u16],
    count: usize,
    column: u16,
    out: &mut [u64; 2],
) -> u16
    ensures { Operating columns count level.old low.old high.old (ltb column columns) (variable_fn columns column) level.new low.new high.new result out.new }
{
    let mut table = TableMut {
        columns,
        count,
        level,
        low,
        high,
    };
    let answer = entry::variable(&mut table, column);
    told::tell(answer, table.count, out)
}
