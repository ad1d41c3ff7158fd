// Reading a candidate list. The array gets what a refusal returns and the length of the list that stands in the room; the
// text is only read.
ghost use Rattle.capi.specs.Exports.{ReadingCandidate};

use telling::told;
use text::candidate;

// The list of a candidate text for a function of so many columns.
#[unsafe(no_mangle)]
pub extern "C" fn dowrhesk_read_candidate(
    columns: u16,
    text: &[u8],
    room: &mut [u32],
    out: &mut [u64; 2],
) -> u16
    ensures { ReadingCandidate columns text.now room.old room.new result out.new }
{
    let answer = candidate::read_candidate(columns, text, room);
    told::tell_candidate(answer, out)
}
