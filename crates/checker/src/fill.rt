// The truth table of a root, on words: a record of the column splits the slice in the middle, or a word in two halves.
ghost use Rattle.std.specs.Prelude.{◌≡◌, ℕ, ◌+◌};
ghost use Rattle.words.specs.Word.{num, words};
ghost use Rattle.graph.specs.Table.{fn_of};
ghost use Rattle.graph.specs.Lent.{read};
ghost use Rattle.checker.specs.Contract.{RootWordIn, RootTableIn};

use graph::table::TableRef;
use words::{table as whole, word};

// The word of a number over the columns from column k on, at most six.
fn word_from(table: &TableRef<'_>, k: u16, x: u16) -> u64
    requires { RootWordIn table.now k x }
    ensures { (m : ℕ) → k + m ≡ table.now.columns → result ≡ num m (fn_of (read table.now) k m x) }
{
    if x < 2 {
        return word::constant_word(table.columns - k, x == 1);
    }
    let halves = table.split(k, x);
    let first = word_from(table, k + 1, halves.low);
    let second = word_from(table, k + 1, halves.high);
    word::pack(first, second, table.columns - k - 1)
}

// Makes a slice the table of a number over the columns from column k on.
pub fn fill_from(s: &mut [u64], table: &TableRef<'_>, k: u16, x: u16)
    requires { RootTableIn table.now k x s.old }
    ensures { (m : ℕ) → k + m ≡ table.now.columns → s.new ≡ words m (fn_of (read table.now) k m x) }
{
    if x < 2 {
        whole::fill(s, table.columns - k, x == 1);
        return;
    }
    if table.columns - k <= 6 {
        s[0] = word_from(table, k, x);
        return;
    }
    let h = s.len() / 2;
    let halves = table.split(k, x);
    fill_from(&mut s[..h], table, k + 1, halves.low);
    fill_from(&mut s[h..], table, k + 1, halves.high);
}
