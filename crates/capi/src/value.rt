// The value at a point. The array gets it as 0 or 1; the table is only read.
// Kept: the table's parts one by one: the C interface.
ghost use Rattle.rule.specs.Refusal.{first_broken};
ghost use Rattle.graph.specs.Entry.{value_conditions, value_answer};
ghost use Rattle.telling.specs.Told.{ToldValue};

use graph::entry;
use graph::table::TableRef;
use telling::told;

#[unsafe(no_mangle)]
pub extern "C" fn dowrhesk_value(
    columns: u16,
    level: &[u16],
    low: &[u16],
    high: &[u16],
    count: usize,
    root: u16,
    point: u32,
    out: &mut [u64; 1],
) -> u16
    ensures { ToldValue (value_answer (first_broken (value_conditions columns count level.now low.now high.now root point)) columns level.now low.now high.now root point) result out.new }
{
    let table = TableRef {
        columns,
        count,
        level,
        low,
        high,
    };
    let answer = entry::value(table, root, point);
    told::tell_value(answer, out)
}
