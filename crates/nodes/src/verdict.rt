// The verdict on any list, on a lent row of records.
ghost use Rattle.std.specs.Prelude.{◌≡◌};
ghost use Rattle.nodes.specs.Verdict.{verdict_in};

use crate::apart::Apart;
use crate::row;
use crate::row::RowRef;
use checker::entry;
use checker::fault::Verdict;
use rule::refusal::Refused;

// The verdict of the rule on any list for a lower and an upper root.
pub fn check(row: RowRef<'_>, lower: u16, upper: u16, list: &[u32]) -> Result<Verdict, Refused>
    ensures { result ≡ verdict_in row.entry lower upper list.now }
{
    if 4096 < row.nodes.len() {
        return Err(row::over_refusal(row.columns).into());
    }
    let apart = Apart::of(row.nodes);
    let table = apart.table(row);
    entry::check(table, lower, upper, list)
}
