// The list checker. The array gets the kind of the verdict, or what a refusal returns, and the verdict's values; the table
// and the list are only read.
// Kept: the table's parts one by one: the C interface.
ghost use Rattle.checker.specs.Entry.{answer_for, refusal};
ghost use Rattle.telling.specs.Told.{ToldVerdict};

use graph::table::TableRef;
use list::check;
use telling::told;

// The verdict on any list for a lower and an upper root.
#[unsafe(no_mangle)]
pub extern "C" fn dowrhesk_check(
    columns: u16,
    level: &[u16],
    low: &[u16],
    high: &[u16],
    count: usize,
    lower: u16,
    upper: u16,
    list: &[u32],
    out: &mut [u64; 3],
) -> u16
    ensures { ToldVerdict (answer_for columns count level.now low.now high.now lower upper list.now (refusal columns count level.now low.now high.now lower upper list.now)) result out.new }
{
    let table = TableRef {
        columns,
        count,
        level,
        low,
        high,
    };
    let answer = check::check(table, lower, upper, list);
    told::tell_verdict(answer, out)
}
