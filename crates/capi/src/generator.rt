// The list generator. The array gets what a refusal returns and the length of the list that stands in the room.
// Kept: the table's parts one by one: the C interface.
ghost use Rattle.capi.specs.Exports.{Generating};

use graph::build::TableMut;
use list::entry;
use telling::told;

// The list of the rule for a lower and an upper root.
#[unsafe(no_mangle)]
pub extern "C" fn dowrhesk_generate(
    columns: u16,
    level: &mut [u16],
    low: &mut [u16],
    high: &mut [u16],
    count: usize,
    lower: u16,
    upper: u16,
    room: &mut [u32],
    out: &mut [u64; 2],
) -> u16
    ensures { Generating columns count level.old low.old high.old lower upper room.old level.new low.new high.new room.new result out.new }
{
    let mut table = TableMut {
        columns,
        count,
        level,
        low,
        high,
    };
    let answer = entry::generate(&mut table, lower, upper, room);
    told::tell_list(answer, out)
}
