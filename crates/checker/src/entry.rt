// The checker's answer, behind the entry `list::check::check`: every input is answered, bad ones by document 01's refusals. It
// needs no node room and writes nothing.
ghost use Rattle.std.specs.Prelude.{◌≡◌};
ghost use Rattle.checker.specs.Entry.{answer_in};

use crate::fault::Verdict;
use crate::judge;
use graph::table::TableRef;
use rule::cube;
use rule::refusal::{Refusal, Refused};

// The verdict of the rule on any list for a lower and an upper root.
pub fn check(table: TableRef<'_>, lower: u16, upper: u16, list: &[u32]) -> Result<Verdict, Refused>
    ensures { result ≡ answer_in table.entry lower upper list.now }
{
    table.input_refusal(lower, upper, list.len())?;
    if let Some(place) = cube::first_malformed(table.columns, list) {
        return Err(Refusal::CubeMalformed.returning(place));
    }
    Ok(judge::judge(table, lower, upper, list))
}
