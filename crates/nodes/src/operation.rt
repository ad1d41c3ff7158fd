// The building operations on a lent row of records.
ghost use Rattle.std.specs.Prelude.{◌≡◌};
ghost use Rattle.graph.specs.Entry.{Operated};
ghost use Rattle.nodes.specs.Row.{SameRow};
ghost use Rattle.nodes.specs.Operation.{ranged_for, result_for, OperatesIn};

use crate::apart::Apart;
use crate::row;
use crate::row::RowMut;
use graph::build::TableMut;
use graph::entry;
use graph::operation::Op;
use rule::refusal::Refusal;

// A building operation with its operands: a column, or two roots.
// Kept: a value and no closure, since the exports' clauses name it, and say by it what is promised (`Operates`).
#[derive(Clone, Copy)]
pub enum Operation {
    Variable(u16),
    Of(Op, u16, u16),
}

// The operation on three slices; the count of records in use becomes the one after it.
// Kept: the parts of the arrays go through a call; put into the table's struct at once, what they are after it is not proved.
#[tactic(auto, unfolding(crate::specs::Operation::ranged_for, crate::specs::Operation::result_for))]
fn on_slices(
    operation: Operation,
    columns: u16,
    count: &mut usize,
    level: &mut [u16],
    low: &mut [u16],
    high: &mut [u16],
) -> Result<u16, Refusal>
    ensures { Operated columns count.old level.old low.old high.old (ranged_for operation columns count.old) (result_for operation columns level.old low.old high.old) count.new level.new low.new high.new result }
{
    let mut table = TableMut {
        columns,
        count: *count,
        level,
        low,
        high,
    };
    let answer = match operation {
        Operation::Variable(column) => entry::variable(&mut table, column),
        Operation::Of(op, a, b) => entry::operate(&mut table, op, a, b),
    };
    *count = table.count;
    answer
}

// A building operation on the row.
pub fn operate(row: &mut RowMut<'_>, operation: Operation) -> Result<u16, Refusal>
    ensures same { SameRow row.old row.new }
    ensures operates { OperatesIn operation row.old row.new result }
{
    let size = row.nodes.len();
    if 4096 < size {
        return Err(row::over_refusal(row.columns));
    }
    let Apart {
        mut level,
        mut low,
        mut high,
    } = Apart::of(row.nodes);
    let answer = on_slices(
        operation,
        row.columns,
        &mut row.count,
        &mut level[..size],
        &mut low[..size],
        &mut high[..size],
    );
    Apart { level, low, high }.store(row.nodes);
    answer
}
