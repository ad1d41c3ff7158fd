// The public entries: every input is answered, bad ones by document 01's refusals.
ghost use Rattle.std.specs.Prelude.{◌≡◌, Bool, ◌&&◌, ℕ, ◌+◌, ◌≤◌, ltb, length};
ghost use Rattle.rule.specs.Refusal.{first_broken, passed};
ghost use Rattle.graph.specs.Entry.{in_range, result_of, variable_fn};
ghost use Rattle.graph.specs.Lent.{SameSlices, SettledIn, OperatedIn, table_tests, input_tests, value_in, SettleAsks};

use crate::build::TableMut;
use crate::operation::Op;
use crate::table::TableRef;
use rule::refusal::Refusal;

impl TableRef<'_> {
    // `ColumnsOver`, `TableOver` or `RecordBroken`: the first condition of a table that is broken.
    pub fn table_refusal(self) -> Result<(), Refusal>
        ensures { result ≡ passed (first_broken (table_tests self.entry)) }
    {
        if 16 < self.columns {
            return Err(Refusal::ColumnsOver);
        }
        let size = self.level.len();
        if self.low.len() != size || self.high.len() != size || 4096 < size || size < self.count {
            return Err(Refusal::TableOver);
        }
        if !self.good_table() {
            return Err(Refusal::RecordBroken);
        }
        Ok(())
    }

    // The refusals from `ColumnsOver` to `ListOver`, as the generator and the checker give them: the first condition of two
    // roots and a list slice of a size that is broken.
    pub fn input_refusal(self, lower: u16, upper: u16, size: usize) -> Result<(), Refusal>
        ensures { result ≡ passed (first_broken (input_tests self.entry lower upper size)) }
    {
        self.table_refusal()?;
        if !in_range(self.count, lower) || !in_range(self.count, upper) {
            return Err(Refusal::OutOfRange);
        }
        if !self.within_from(0, lower, upper) {
            return Err(Refusal::NotWithin);
        }
        if 16384 < size {
            return Err(Refusal::ListOver);
        }
        Ok(())
    }
}

// Whether a number is a constant or that of a record in use.
pub fn in_range(count: usize, x: u16) -> bool
    requires { count ≤ 4096 }
    ensures { result ≡ in_range count x }
{
    (x as usize) < count + 2
}

// The answer to what was made, with the records past the count cleared. Where there was no room, the `kept` first ones stay.
#[tactic(auto, using(crate::proofs::Operating::told_settled), unfolding(crate::specs::Entry::count_after, crate::specs::Entry::answer_to, rule::specs::Refusal::refusal_of))]
fn settle(table: &mut TableMut<'_>, kept: usize, made: Option<u16>) -> Result<u16, Refusal>
    requires { SettleAsks kept table.old made }
    ensures same { SameSlices table.old table.new }
    ensures settled { SettledIn made kept table.old table.new result }
{
    let Some(root) = made else {
        table.give_back(kept);
        return Err(Refusal::NodesLack);
    };
    table.give_back(table.count);
    Ok(root)
}

// The result of an operation of two roots.
pub fn operate(table: &mut TableMut<'_>, op: Op, a: u16, b: u16) -> Result<u16, Refusal>
    ensures same { SameSlices table.old table.new }
    ensures operated { OperatedIn table.old (in_range table.old.count a && in_range table.old.count b) (result_of op table.old.columns table.old.level.now table.old.low.now table.old.high.now a b) table.new result }
{
    table.reading().table_refusal()?;
    if !in_range(table.count, a) || !in_range(table.count, b) {
        return Err(Refusal::OutOfRange);
    }
    let kept = table.count;
    let made = table.apply(op, 0, a, b);
    settle(table, kept, made)
}

// The function that is 1 where a column is 1.
pub fn variable(table: &mut TableMut<'_>, column: u16) -> Result<u16, Refusal>
    ensures same { SameSlices table.old table.new }
    ensures operated { OperatedIn table.old (ltb column table.old.columns) (variable_fn table.old.columns column) table.new result }
{
    table.reading().table_refusal()?;
    if table.columns <= column {
        return Err(Refusal::OutOfRange);
    }
    let kept = table.count;
    let made = table.make(column, 0, 1);
    settle(table, kept, made)
}

// The value of a root at a point.
pub fn value(table: TableRef<'_>, root: u16, point: u32) -> Result<bool, Refusal>
    ensures { result ≡ value_in table.entry root point }
{
    table.table_refusal()?;
    if !in_range(table.count, root) || (1u32 << table.columns) <= point {
        return Err(Refusal::OutOfRange);
    }
    Ok(table.value_from(0, root, point))
}
