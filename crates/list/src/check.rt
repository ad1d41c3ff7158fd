// The checker beside the generator: the verdict of the rule on any list, from anyone. It needs no node room and writes nothing.
ghost use Rattle.std.specs.Prelude.{◌≡◌};
ghost use Rattle.checker.specs.Entry.{answer_in};

use checker::entry;
use checker::fault::Verdict;
use graph::table::TableRef;
use rule::refusal::Refused;

// The verdict of the rule on any list for a lower and an upper root.
// Kept: the entry of `checker` once more, since this is the place where it is looked for, beside the generator.
pub fn check(table: TableRef<'_>, lower: u16, upper: u16, list: &[u32]) -> Result<Verdict, Refused>
    ensures { result ≡ answer_in table.entry lower upper list.now }
{
    entry::check(table, lower, upper, list)
}
