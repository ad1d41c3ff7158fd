// Writing a list as text. The array gets what a refusal returns and the bytes written; the list is only read.
ghost use Rattle.capi.specs.Exports.{WritingList};

use telling::told;
use text::writing;

// The text of a list of cubes.
#[unsafe(no_mangle)]
pub extern "C" fn dowrhesk_write_list(
    columns: u16,
    list: &[u32],
    room: &mut [u8],
    out: &mut [u64; 2],
) -> u16
    ensures { WritingList columns list.now room.old room.new result out.new }
{
    let answer = writing::write_list(columns, list, room);
    told::tell_written(answer, out)
}
