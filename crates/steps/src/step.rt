// The operations of a step of the list rule, between its three lists.
ghost use Rattle.std.specs.Prelude.{◌≡◌, ℕ, suc, ◌+◌};
ghost use Rattle.graph.specs.Lent.{MadeIn};
ghost use Rattle.memo.specs.Memo.{SameTable, HoldsIn, HoldsAfterIn};
ghost use Rattle.steps.specs.Step.{SteppingIn, KeptIn, LeftIn, RestIn, CoversIn, joined_covers};

use crate::run;
use crate::run::Task;
use graph::operation::Op;
use memo::build::Operations;

// L0, L1, U0, U1, P0, P1.
#[derive(Clone, Copy)]
pub struct Kept {
    pub l0: u16,
    pub l1: u16,
    pub u0: u16,
    pub u1: u16,
    pub p0: u16,
    pub p1: u16,
}

// The covers of the three lists.
#[derive(Clone, Copy)]
pub struct Covers {
    pub g0: u16,
    pub g1: u16,
    pub gs: u16,
}

// The halves of both roots at column k; P0 = L0 less U1, P1 = L1 less U0. None where there is no room for them.
pub fn keep(operations: &mut Operations<'_, '_>, k: u16, l: u16, u: u16) -> Option<Kept>
    requires roots { SteppingIn operations.old k l u }
    requires memo { HoldsIn operations.old }
    ensures same { SameTable operations.old operations.new }
    ensures kept { (m : ℕ) → k + suc m ≡ operations.old.table.now.columns → KeptIn operations.old operations.new k m l u result }
    ensures memo { HoldsAfterIn operations.new result }
{
    let lower = operations.table.reading().split(k, l);
    let upper = operations.table.reading().split(k, u);
    let first = Task {
        op: Op::Difference,
        a: lower.low,
        b: upper.high,
    };
    let then = Task {
        op: Op::Difference,
        a: lower.high,
        b: upper.low,
    };
    let (p0, p1) = run::two(operations, k + 1, first, then)?;
    Some(Kept {
        l0: lower.low,
        l1: lower.high,
        u0: upper.low,
        u1: upper.high,
        p0,
        p1,
    })
}

// R0 = L0 less G0, R1 = L1 less G1; then R0 or R1, and U0 and U1. The numbers are of the columns from column k on.
pub fn rest(
    operations: &mut Operations<'_, '_>,
    k: u16,
    kept: Kept,
    g0: u16,
    g1: u16,
) -> Option<(u16, u16)>
    requires roots { LeftIn operations.old k kept g0 g1 }
    requires memo { HoldsIn operations.old }
    ensures same { SameTable operations.old operations.new }
    ensures left { (m : ℕ) → k + m ≡ operations.old.table.now.columns → RestIn operations.old operations.new k m kept g0 g1 result }
    ensures memo { HoldsAfterIn operations.new result }
{
    let first = Task {
        op: Op::Difference,
        a: kept.l0,
        b: g0,
    };
    let then = Task {
        op: Op::Difference,
        a: kept.l1,
        b: g1,
    };
    let (r0, r1) = run::two(operations, k, first, then)?;
    let left = Task {
        op: Op::Or,
        a: r0,
        b: r1,
    };
    let top = Task {
        op: Op::And,
        a: kept.u0,
        b: kept.u1,
    };
    run::two(operations, k, left, top)
}

// The cover of a step at column k: G0 or G* for 0 in the column, G1 or G* for 1.
pub fn join(operations: &mut Operations<'_, '_>, k: u16, covers: Covers) -> Option<u16>
    requires roots { CoversIn operations.old k covers }
    requires memo { HoldsIn operations.old }
    ensures same { SameTable operations.old operations.new }
    ensures made { (m : ℕ) → k + suc m ≡ operations.old.table.now.columns → MadeIn operations.old.table.now operations.new.table.now k (suc m) (joined_covers operations.old k m covers) result }
    ensures memo { HoldsAfterIn operations.new result }
{
    let first = Task {
        op: Op::Or,
        a: covers.g0,
        b: covers.gs,
    };
    let then = Task {
        op: Op::Or,
        a: covers.g1,
        b: covers.gs,
    };
    let (x, y) = run::two(operations, k + 1, first, then)?;
    operations.table.make(k, x, y)
}
