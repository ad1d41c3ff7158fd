// Operations on the node table one after the other.
ghost use Rattle.std.specs.Prelude.{◌≡◌, ℕ, ◌+◌};
ghost use Rattle.memo.specs.Memo.{SameTable, HoldsIn, HoldsAfterIn};
ghost use Rattle.steps.specs.Run.{FourRootsIn, TwoIn};

use graph::operation::Op;
use memo::build::Operations;

// An operation with its two operands.
#[derive(Clone, Copy)]
pub struct Task {
    pub op: Op,
    pub a: u16,
    pub b: u16,
}

// Two operations over the columns from column k on, and both numbers; none where there is no room for what they need.
pub fn two(
    operations: &mut Operations<'_, '_>,
    k: u16,
    first: Task,
    then: Task,
) -> Option<(u16, u16)>
    requires roots { FourRootsIn operations.old k first then }
    requires memo { HoldsIn operations.old }
    ensures same { SameTable operations.old operations.new }
    ensures made { (m : ℕ) → k + m ≡ operations.old.table.now.columns → TwoIn operations.old operations.new k m first then result }
    ensures memo { HoldsAfterIn operations.new result }
{
    let x = operations.apply(first.op, k, first.a, first.b)?;
    let y = operations.apply(then.op, k, then.a, then.b)?;
    Some((x, y))
}
