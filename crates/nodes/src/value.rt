// The value of a root at a point, on a lent row of records.
ghost use Rattle.std.specs.Prelude.{◌≡◌};
ghost use Rattle.nodes.specs.Value.{value_in};

use crate::apart::Apart;
use crate::row;
use crate::row::RowRef;
use graph::entry;
use rule::refusal::Refusal;

// The value of a root at a point.
pub fn value(row: RowRef<'_>, root: u16, point: u32) -> Result<bool, Refusal>
    ensures { result ≡ value_in row.entry root point }
{
    if 4096 < row.nodes.len() {
        return Err(row::over_refusal(row.columns));
    }
    let apart = Apart::of(row.nodes);
    let table = apart.table(row);
    entry::value(table, root, point)
}
