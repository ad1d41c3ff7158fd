// Reading a function text. The array gets what a refusal returns, the columns, the count of records in use and both roots;
// the text is only read.
// Kept: the table's parts one by one: the C interface.
ghost use Rattle.capi.specs.Exports.{ReadingFunction};

use telling::told;
use text::function;

// The function of a text, named in a table.
#[unsafe(no_mangle)]
pub extern "C" fn dowrhesk_read_function(
    text: &[u8],
    level: &mut [u16],
    low: &mut [u16],
    high: &mut [u16],
    out: &mut [u64; 5],
) -> u16
    ensures { ReadingFunction text.now level.old low.old high.old level.new low.new high.new result out.new }
{
    let answer = function::read_function(text, level, low, high);
    told::tell_function(answer, out)
}
