// Reading a function text: all lines are judged first, then the rows are named in the table through the same lines.
ghost use Rattle.std.specs.Prelude.{◌≡◌, ◌≤◌, length};
ghost use Rattle.graph.specs.Lent.{SameSlices, Grown};
ghost use Rattle.line.specs.Bytes.{lines};
ghost use Rattle.line.specs.Meaning.{kind_of};
ghost use Rattle.memo.specs.Memo.{SameTable, HoldsIn, HoldsAfterIn};
ghost use Rattle.text.specs.Function.{rows_in, EmptyIn, RowsNamedIn, RootsNamedIn, BuiltIn, SettledIn, ReadsFunction};

use crate::judge;
use crate::reader::Reader;
use graph::build::TableMut;
use line::meaning::{Kind, Line};
use memo::build::Operations;
use memo::store::Memo;
use rows::naming;
use rows::naming::Sets;
use rule::refusal::{Refusal, Refused};

// A function that stands in a table: its columns, the count of records, L and U.
#[derive(Clone, Copy)]
pub struct Function {
    pub columns: u16,
    pub count: usize,
    pub lower: u16,
    pub upper: u16,
}

// The rows of a text are named, in order, in an empty table; none where there is no room for them.
#[tactic(auto, unfolding(memo::specs::Memo::HoldsAfter))]
fn name_rows(text: &[u8], operations: &mut Operations<'_, '_>, kind: Kind) -> Option<Sets>
    requires text { length text.now ≤ 32768 }
    requires empty { EmptyIn operations.old.table.now }
    requires memo { HoldsIn operations.old }
    ensures same { SameTable operations.old operations.new }
    ensures named { RowsNamedIn operations.old (kind_of kind) (rows_in operations.old.table.now.columns (lines text.now)) operations.new result }
    ensures memo { HoldsAfterIn operations.new result }
{
    let mut reader = Reader { text, at: 0 };
    let mut sets = Sets { on: 0, other: 0 };
    while let Some(line) = reader.next_line() {
        match line {
            Line::End => break,
            Line::Row(_, cube, out) => {
                sets = naming::name_row(operations, kind, sets, cube, out)?;
            }
            _ => {}
        }
    }
    Some(sets)
}

// The rows, then U, by one memo: L and U, or none where there is no room for them.
#[tactic(auto, unfolding(memo::specs::Memo::HoldsAfter))]
fn name_all(text: &[u8], operations: &mut Operations<'_, '_>, kind: Kind) -> Option<(u16, u16)>
    requires text { length text.now ≤ 32768 }
    requires empty { EmptyIn operations.old.table.now }
    requires memo { HoldsIn operations.old }
    ensures same { SameTable operations.old operations.new }
    ensures roots { RootsNamedIn operations.old.table.now (kind_of kind) (rows_in operations.old.table.now.columns (lines text.now)) operations.new.table.now result }
{
    let sets = name_rows(text, operations, kind)?;
    let upper = naming::name_upper(operations, kind, sets)?;
    Some((sets.on, upper))
}

// The same with a memo that has no entries yet.
fn name_roots(text: &[u8], table: &mut TableMut<'_>, kind: Kind) -> Option<(u16, u16)>
    requires text { length text.now ≤ 32768 }
    requires empty { EmptyIn table.old }
    ensures same { Grown table.old table.new }
    ensures roots { RootsNamedIn table.old (kind_of kind) (rows_in table.old.columns (lines text.now)) table.new result }
{
    let memo = Memo::new();
    let mut operations = Operations { table, memo };
    name_all(text, &mut operations, kind)
}

// L and U of a good text, and the test for a point both on and off.
fn build_function(text: &[u8], table: &mut TableMut<'_>, kind: Kind) -> Result<Function, Refused>
    requires text { length text.now ≤ 32768 }
    requires empty { EmptyIn table.old }
    ensures same { Grown table.old table.new }
    ensures built { BuiltIn table.old (kind_of kind) (rows_in table.old.columns (lines text.now)) table.new result }
{
    let Some((lower, upper)) = name_roots(text, table, kind) else {
        return Err(Refusal::NodesLack.into());
    };
    if !table.reading().within_from(0, lower, upper) {
        return Err(Refusal::OnAndOff.into());
    }
    Ok(Function {
        columns: table.columns,
        count: table.count,
        lower,
        upper,
    })
}

// Builds the function of a good text, and clears what is not part of the answer.
fn settle_function(text: &[u8], table: &mut TableMut<'_>, kind: Kind) -> Result<Function, Refused>
    requires text { length text.now ≤ 32768 }
    requires empty { EmptyIn table.old }
    ensures same { SameSlices table.old table.new }
    ensures settled { SettledIn table.old (kind_of kind) (rows_in table.old.columns (lines text.now)) table.new result }
{
    let built = build_function(text, table, kind);
    let kept = match built {
        Ok(function) => function.count,
        Err(_) => 0,
    };
    table.give_back(kept);
    built
}

// Reads a function text into a table. Refused: `TextOver` for a text over 32,768 bytes, `TableOver` for slices of different
// lengths or over 4,096, and the table is as it was; `TextFault` with the line of the first fault, `NodesLack` if the nodes do
// not fit, `OnAndOff` if in fr a point is both on and off, and the table is zero. Done: the columns, the count of records, L and
// U, and zeros past the records.
// Kept: three slices and no lent table, since the columns and the count are what the text says.
pub fn read_function(
    text: &[u8],
    level: &mut [u16],
    low: &mut [u16],
    high: &mut [u16],
) -> Result<Function, Refused>
    ensures { ReadsFunction text.now level.old low.old high.old level.new low.new high.new result }
{
    if 32768 < text.len() {
        return Err(Refusal::TextOver.into());
    }
    let size = level.len();
    if low.len() != size || high.len() != size || 4096 < size {
        return Err(Refusal::TableOver.into());
    }
    let shape = match judge::judge(0, text) {
        Ok(shape) => shape,
        Err(line) => {
            level.fill(0);
            low.fill(0);
            high.fill(0);
            return Err(Refusal::TextFault.returning(line as usize));
        }
    };
    let mut table = TableMut {
        columns: shape.columns,
        count: 0,
        level,
        low,
        high,
    };
    settle_function(text, &mut table, shape.kind)
}
