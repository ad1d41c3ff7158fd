// A row's cube as a number of the node table.
ghost use Rattle.std.specs.Prelude.{◌≡◌, ℕ, ◌+◌};
ghost use Rattle.rule.specs.Cube.{cube_fn};
ghost use Rattle.rule.specs.Number.{signs_from};
ghost use Rattle.graph.specs.Lent.{Grown, MadeIn};
ghost use Rattle.rows.specs.Naming.{SoundFrom};

use graph::build::TableMut;

// The number of a cube over the columns from column k on, whose bits for 1 and for 0 start with that column's; none where there
// is no room for it.
pub fn cube_from(table: &mut TableMut<'_>, k: u16, ones: u32, zeros: u32) -> Option<u16>
    requires { SoundFrom table.old k }
    ensures same { Grown table.old table.new }
    ensures made { (m : ℕ) → k + m ≡ table.old.columns → MadeIn table.old table.new k m (cube_fn m (signs_from m ones zeros)) result }
{
    if k == table.columns {
        return Some(1);
    }
    let x = cube_from(table, k + 1, ones / 2, zeros / 2)?;
    if ones % 2 == 1 {
        return table.make(k, 0, x);
    }
    if zeros % 2 == 1 {
        return table.make(k, x, 0);
    }
    Some(x)
}
