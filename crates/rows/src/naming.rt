// Naming rows: the cube of each meaningful row, the set so far that it joins, and last the upper root.
#![tactic(auto, unfolding(memo::specs::Memo::HoldsAfter))]

ghost use Rattle.std.specs.Prelude.{◌≡◌, List, [], ◌∷◌, ◌++◌};
ghost use Rattle.rule.specs.Rows.{Row, upper_of};
ghost use Rattle.line.specs.Meaning.{kind_of, row_of};
ghost use Rattle.graph.specs.Lent.{MadeIn};
ghost use Rattle.memo.specs.Memo.{SameTable, HoldsIn, HoldsAfterIn};
ghost use Rattle.rows.specs.Naming.{part_for, SetIn, SetsIn, JoinedIn, NamedIn, NamedAfterIn};

use crate::cube;
use graph::operation::Op;
use line::meaning::{Kind, Out};
use memo::build::Operations;

// The sets that rows join: on, and the other one (don't care, in fr off).
#[derive(Clone, Copy)]
pub enum Part {
    On,
    Other,
}

// The numbers of the on set and of the other set.
#[derive(Clone, Copy)]
pub struct Sets {
    pub on: u16,
    pub other: u16,
}

// The set that a row joins in a text of some type, if any.
#[tactic(auto, unfolding(crate::specs::Naming::part_for, crate::specs::Naming::part_by, rule::specs::Rows::part, line::specs::Meaning::kind_of, line::specs::Meaning::out_of))]
fn part_of(kind: Kind, out: Out) -> Option<Part>
    ensures { result ≡ part_for kind out }
{
    match (out, kind) {
        (Out::One, _) => Some(Part::On),
        (Out::Dash, Kind::Fd) | (Out::Zero, Kind::Fr) => Some(Part::Other),
        _ => None,
    }
}

// A cube, then a set with it; none where there is no room for them.
fn join_cube(operations: &mut Operations<'_, '_>, set: u16, cube: u32) -> Option<u16>
    requires set { SetIn operations.old set }
    requires memo { HoldsIn operations.old }
    ensures same { SameTable operations.old operations.new }
    ensures joined { JoinedIn operations.old operations.new set cube result }
    ensures memo { HoldsAfterIn operations.new result }
{
    let x = cube::cube_from(operations.table, 0, cube % 65536, cube / 65536)?;
    operations.apply(Op::Or, 0, set, x)
}

// A row after those already named; none where there is no room for it.
pub fn name_row(
    operations: &mut Operations<'_, '_>,
    kind: Kind,
    sets: Sets,
    cube: u32,
    out: Out,
) -> Option<Sets>
    requires sets { SetsIn operations.old sets }
    requires memo { HoldsIn operations.old }
    ensures same { SameTable operations.old operations.new }
    ensures named { (seen : List Row) → NamedIn operations.old (kind_of kind) seen sets → NamedAfterIn operations.old operations.new (kind_of kind) (seen ++ (row_of operations.old.table.now.columns cube out ∷ [])) result }
    ensures memo { HoldsAfterIn operations.new result }
{
    match part_of(kind, out) {
        Some(Part::On) => {
            let on = join_cube(operations, sets.on, cube)?;
            Some(Sets { on, ..sets })
        }
        Some(Part::Other) => {
            let other = join_cube(operations, sets.other, cube)?;
            Some(Sets { other, ..sets })
        }
        None => Some(sets),
    }
}

// The upper root, once all rows are named; none where there is no room for it.
pub fn name_upper(operations: &mut Operations<'_, '_>, kind: Kind, sets: Sets) -> Option<u16>
    requires sets { SetsIn operations.old sets }
    requires memo { HoldsIn operations.old }
    ensures same { SameTable operations.old operations.new }
    ensures made { (rows : List Row) → NamedIn operations.old (kind_of kind) rows sets → MadeIn operations.old.table.now operations.new.table.now 0 operations.old.table.now.columns (upper_of operations.old.table.now.columns (kind_of kind) rows) result }
    ensures memo { HoldsAfterIn operations.new result }
{
    match kind {
        Kind::F => Some(sets.on),
        Kind::Fd => operations.apply(Op::Or, 0, sets.on, sets.other),
        Kind::Fr => operations.apply(Op::Difference, 0, 1, sets.other),
    }
}
