// A list copied within the list room, with the literals of another path.
ghost use Rattle.std.specs.Prelude.{◌≡◌, ℕ, List, length};
ghost use Rattle.std.proofs.lemmas.List.Edits.{sets};
ghost use Rattle.rule.specs.Cube.{Cube};
ghost use Rattle.listmemo.specs.Copy.{numbers_under, CopyableOf};

use crate::past::Found;

// The cubes of a list that stands in the room are put down from a later place on, as far as the room goes, with other literals
// before them.
// Kept: the room and the place as parameters, since the list to be copied stands in the same room.
pub fn copy(room: &mut [u32], at: usize, list: Found, chosen: u32)
    requires { CopyableOf room.old list at chosen }
    ensures { (w : ℕ) (cs : List Cube) → length cs ≡ list.size → sets room.old list.from (numbers_under list.literals w cs) ≡ room.old → room.new ≡ sets room.old at (numbers_under chosen w cs) }
{
    let fits = (list.size as usize).min(room.len().saturating_sub(at));
    for i in 0..fits {
        room[at + i] = room[list.from as usize + i] - list.literals + chosen;
    }
}
