// The entries on a row of node records. Each returns what its namesake on three slices returns, and fills its array alike.
// Kept: an export for each operation, its parameters one by one: the C interface.
ghost use Rattle.nodes.specs.Value.{row_value};
ghost use Rattle.nodes.specs.Verdict.{row_verdict};
ghost use Rattle.telling.specs.Told.{ToldValue, ToldVerdict};
ghost use Rattle.capi.specs.Exports.{RowOperating, RowGenerating, RowReading};

use graph::operation::Op;
use nodes::operation::Operation;
use nodes::row::{Node, RowMut, RowRef};
use nodes::{generator, operation, reading, value, verdict};
use telling::told;

// The function that is 1 where both roots are.
#[unsafe(no_mangle)]
pub extern "C" fn dowrhesk_row_and(
    columns: u16,
    nodes: &mut [Node],
    count: usize,
    a: u16,
    b: u16,
    out: &mut [u64; 2],
) -> u16
    ensures { RowOperating (Operation.Of Op.And a b) columns count nodes.old nodes.new result out.new }
{
    let mut row = RowMut {
        columns,
        count,
        nodes,
    };
    let answer = operation::operate(&mut row, Operation::Of(Op::And, a, b));
    told::tell(answer, row.count, out)
}

// The function that is 1 where either root is.
#[unsafe(no_mangle)]
pub extern "C" fn dowrhesk_row_or(
    columns: u16,
    nodes: &mut [Node],
    count: usize,
    a: u16,
    b: u16,
    out: &mut [u64; 2],
) -> u16
    ensures { RowOperating (Operation.Of Op.Or a b) columns count nodes.old nodes.new result out.new }
{
    let mut row = RowMut {
        columns,
        count,
        nodes,
    };
    let answer = operation::operate(&mut row, Operation::Of(Op::Or, a, b));
    told::tell(answer, row.count, out)
}

// The function that is 1 where the first root is and the second is not.
#[unsafe(no_mangle)]
pub extern "C" fn dowrhesk_row_difference(
    columns: u16,
    nodes: &mut [Node],
    count: usize,
    a: u16,
    b: u16,
    out: &mut [u64; 2],
) -> u16
    ensures { RowOperating (Operation.Of Op.Difference a b) columns count nodes.old nodes.new result out.new }
{
    let mut row = RowMut {
        columns,
        count,
        nodes,
    };
    let answer = operation::operate(&mut row, Operation::Of(Op::Difference, a, b));
    told::tell(answer, row.count, out)
}

// The function that is 1 where a column is 1.
#[unsafe(no_mangle)]
pub extern "C" fn dowrhesk_row_variable(
    columns: u16,
    nodes: &mut [Node],
    count: usize,
    column: u16,
    out: &mut [u64; 2],
) -> u16
    ensures { RowOperating (Operation.Variable column) columns count nodes.old nodes.new result out.new }
{
    let mut row = RowMut {
        columns,
        count,
        nodes,
    };
    let answer = operation::operate(&mut row, Operation::Variable(column));
    told::tell(answer, row.count, out)
}

// The value of a root at a point.
#[unsafe(no_mangle)]
pub extern "C" fn dowrhesk_row_value(
    columns: u16,
    nodes: &[Node],
    count: usize,
    root: u16,
    point: u32,
    out: &mut [u64; 1],
) -> u16
    ensures { ToldValue (row_value columns count nodes.now root point) result out.new }
{
    let row = RowRef {
        columns,
        count,
        nodes,
    };
    let answer = value::value(row, root, point);
    told::tell_value(answer, out)
}

// The list of the rule for a lower and an upper root.
#[unsafe(no_mangle)]
pub extern "C" fn dowrhesk_row_generate(
    columns: u16,
    nodes: &mut [Node],
    count: usize,
    lower: u16,
    upper: u16,
    room: &mut [u32],
    out: &mut [u64; 2],
) -> u16
    ensures { RowGenerating columns count nodes.old lower upper room.old nodes.new room.new result out.new }
{
    let mut row = RowMut {
        columns,
        count,
        nodes,
    };
    let answer = generator::generate(&mut row, lower, upper, room);
    told::tell_list(answer, out)
}

// The verdict on any list for a lower and an upper root.
#[unsafe(no_mangle)]
pub extern "C" fn dowrhesk_row_check(
    columns: u16,
    nodes: &[Node],
    count: usize,
    lower: u16,
    upper: u16,
    list: &[u32],
    out: &mut [u64; 3],
) -> u16
    ensures { ToldVerdict (row_verdict columns count nodes.now lower upper list.now) result out.new }
{
    let row = RowRef {
        columns,
        count,
        nodes,
    };
    let answer = verdict::check(row, lower, upper, list);
    told::tell_verdict(answer, out)
}

// The function of a text, named in a row.
#[unsafe(no_mangle)]
pub extern "C" fn dowrhesk_row_read_function(
    text: &[u8],
    nodes: &mut [Node],
    out: &mut [u64; 5],
) -> u16
    ensures { RowReading text.now nodes.old nodes.new result out.new }
{
    let answer = reading::read(text, nodes);
    told::tell_function(answer, out)
}
