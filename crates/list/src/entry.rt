// The entry of the generator: every input is answered, bad ones by document 01's refusals.
ghost use Rattle.std.specs.Prelude.{◌≡◌};
ghost use Rattle.graph.specs.Lent.{SameSlices, Grown};
ghost use Rattle.memo.specs.Memo.{SameTable, HoldsIn};
ghost use Rattle.list.specs.Entry.{GeneratesIn};
ghost use Rattle.list.specs.Generating.{Nested, FilledIn};

use crate::generator::{Generator, Path};
use graph::build::TableMut;
use listmemo::past::Past;
use memo::build::Operations;
use memo::store::Memo;
use rule::refusal::{Refusal, Refused};

// The list of two good roots, as far as the room goes, and its length; none where there is no room for nodes.
fn list_all(
    operations: &mut Operations<'_, '_>,
    lower: u16,
    upper: u16,
    room: &mut [u32],
) -> Option<usize>
    requires roots { Nested operations.old.table.now lower upper }
    requires memo { HoldsIn operations.old }
    ensures same { SameTable operations.old operations.new }
    ensures filled { FilledIn operations.old.table.now lower upper room.old operations.new.table.now room.new result }
{
    let mut generator = Generator {
        operations,
        past: Past::new(),
        room,
        at: 0,
    };
    let path = Path {
        k: 0,
        weight: 1,
        chosen: 0,
    };
    generator.generate_at(path, lower, upper)?;
    Some(generator.at)
}

// The same on a table that no operation was made on yet. The generator borrows the operations, so that what it leaves of the
// table is known here.
fn fill(table: &mut TableMut<'_>, lower: u16, upper: u16, room: &mut [u32]) -> Option<usize>
    requires { Nested table.old lower upper }
    ensures same { Grown table.old table.new }
    ensures filled { FilledIn table.old lower upper room.old table.new room.new result }
{
    let memo = Memo::new();
    let mut operations = Operations { table, memo };
    list_all(&mut operations, lower, upper, room)
}

// The list of the rule for a lower and an upper root, and its length.
pub fn generate(
    table: &mut TableMut<'_>,
    lower: u16,
    upper: u16,
    room: &mut [u32],
) -> Result<usize, Refused>
    ensures same { SameSlices table.old table.new }
    ensures generates { GeneratesIn table.old lower upper room.old table.new room.new result }
{
    let size = room.len();
    table.reading().input_refusal(lower, upper, size)?;
    room.fill(0);
    let kept = table.count;
    let filled = fill(table, lower, upper, room);
    table.give_back(kept);
    let Some(length) = filled else {
        room.fill(0);
        return Err(Refusal::NodesLack.into());
    };
    if size < length {
        room.fill(0);
        return Err(Refusal::ListLacks.returning(length));
    }
    Ok(length)
}
