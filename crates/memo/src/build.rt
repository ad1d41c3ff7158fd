// One recursive operation for and, or and difference, with a memo beside the table.
ghost use Rattle.std.specs.Prelude.{◌≡◌, ℕ, ◌+◌};
ghost use Rattle.rule.specs.Func.{joined};
ghost use Rattle.graph.specs.Table.{fn_of};
ghost use Rattle.graph.specs.Lent.{table, RootsIn, MadeIn};
ghost use Rattle.graph.specs.Operation.{op_of};
ghost use Rattle.memo.specs.Memo.{SameTable, HoldsIn, HoldsAfterIn, HalvedIn};

use crate::store::Memo;
use graph::build::TableMut;
use graph::operation::Op;
use graph::table::HalvesOf;

// A table that is lent to be built in, and the memo of its operations.
#[derive(Drop)]
pub struct Operations<'o, 't> {
    pub table: &'o mut TableMut<'t>,
    pub memo: Memo,
}

impl Operations<'_, '_> {
    // The number of an operation of two numbers, over the columns from column k on, or none where there is no room for it. The
    // memo is asked, and told, at the columns that are taken apart.
    // Kept: the steps of `TableMut::apply` with the memo between them. One function over a trait of memos, with an empty memo for
    // the entry, was not built, since each step's contract would then be said of the trait's ghost members.
    #[cycle(apply_by_halves)]
    pub fn apply(&mut self, op: Op, k: u16, a: u16, b: u16) -> Option<u16>
        requires roots { RootsIn self.old.table.now k a b }
        requires memo { HoldsIn self.old }
        ensures same { SameTable self.old self.new }
        ensures made { (m : ℕ) → k + m ≡ self.old.table.now.columns → MadeIn self.old.table.now self.new.table.now k m (joined (op_of op) m (fn_of (table self.old.table.now) k m a) (fn_of (table self.old.table.now) k m b)) result }
        ensures memo { HoldsAfterIn self.new result }
    {
        if let Some(x) = op.known(a, b) {
            return Some(x);
        }
        let first = self.table.reading().split(k, a);
        let second = self.table.reading().split(k, b);
        if first.low == first.high && second.low == second.high {
            return self.apply(op, k + 1, first.low, second.low);
        }
        if let Some(x) = self.memo.recall(op, a, b, k) {
            return Some(x);
        }
        self.by_halves(op, k, a, b, first, second)
    }

    // The same by the halves of both numbers: the node of the halves' results, which the memo takes.
    #[cycle(apply_by_halves)]
    fn by_halves(
        &mut self,
        op: Op,
        k: u16,
        a: u16,
        b: u16,
        first: HalvesOf,
        second: HalvesOf,
    ) -> Option<u16>
        requires { HalvedIn self.old k a b first second }
        ensures same { SameTable self.old self.new }
        ensures made { (m : ℕ) → k + m ≡ self.old.table.now.columns → MadeIn self.old.table.now self.new.table.now k m (joined (op_of op) m (fn_of (table self.old.table.now) k m a) (fn_of (table self.old.table.now) k m b)) result }
        ensures memo { HoldsAfterIn self.new result }
    {
        let x = self.apply(op, k + 1, first.low, second.low)?;
        let y = self.apply(op, k + 1, first.high, second.high)?;
        let z = self.table.make(k, x, y)?;
        self.memo.remember(op, a, b, k, z);
        Some(z)
    }
}
