// The list generator on a lent row of records.
ghost use Rattle.list.specs.Entry.{Generates};
ghost use Rattle.nodes.specs.Row.{SameRow};
ghost use Rattle.nodes.specs.Generator.{GeneratesIn};

use crate::apart::Apart;
use crate::row;
use crate::row::RowMut;
use graph::build::TableMut;
use list::entry;
use rule::refusal::Refused;

// The list of the rule for a lower and an upper root of a table in three slices.
// Kept: the parts of the arrays go through a call; put into the table's struct at once, what they are after it is not proved.
fn on_slices(
    columns: u16,
    count: usize,
    level: &mut [u16],
    low: &mut [u16],
    high: &mut [u16],
    lower: u16,
    upper: u16,
    room: &mut [u32],
) -> Result<usize, Refused>
    ensures { Generates columns count level.old low.old high.old lower upper room.old count level.new low.new high.new room.new result }
{
    let mut table = TableMut {
        columns,
        count,
        level,
        low,
        high,
    };
    entry::generate(&mut table, lower, upper, room)
}

// The list of the rule for a lower and an upper root.
pub fn generate(
    row: &mut RowMut<'_>,
    lower: u16,
    upper: u16,
    room: &mut [u32],
) -> Result<usize, Refused>
    ensures same { SameRow row.old row.new }
    ensures generates { GeneratesIn row.old lower upper room.old row.new room.new result }
{
    let size = row.nodes.len();
    if 4096 < size {
        return Err(row::over_refusal(row.columns).into());
    }
    let Apart {
        mut level,
        mut low,
        mut high,
    } = Apart::of(row.nodes);
    let answer = on_slices(
        row.columns,
        row.count,
        &mut level[..size],
        &mut low[..size],
        &mut high[..size],
        lower,
        upper,
        room,
    );
    Apart { level, low, high }.store(row.nodes);
    answer
}
