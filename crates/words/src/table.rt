// Whole tables, word by word.
ghost use Rattle.std.specs.Prelude.{◌≡◌, length, replicate};
ghost use Rattle.std.specs.Int.Bits.{bit_and, bit_or};
ghost use Rattle.rule.specs.Func.{constant};
ghost use Rattle.words.specs.Word.{words, size, wordwise};
ghost use Rattle.words.specs.Contract.{Lessened, Outside, FirstMet};

use crate::word;

// Makes a table that of a constant.
pub fn fill(s: &mut [u64], columns: u16, b: bool)
    requires { length s.old ≡ size columns }
    ensures { s.new ≡ words columns (constant columns b) }
{
    s.fill(word::constant_word(columns, b));
}

// Takes the second table from the first.
// Kept: three loops of one line here and below. One loop with a closure would have to promise something of each call, and each
// caller to gather its table from that.
pub fn less_into(a: &mut [u64], b: &[u64])
    requires { length a.old ≡ length b.now }
    ensures { Lessened a.old b.now a.new }
{
    for (i, x) in a.iter_mut().enumerate() {
        *x = *x ^ (*x & b[i]);
    }
}

// Makes the first table what is left of the second when the first is taken from it.
pub fn left_into(a: &mut [u64], b: &[u64])
    requires { length a.old ≡ length b.now }
    ensures { Lessened b.now a.old a.new }
{
    for (i, x) in a.iter_mut().enumerate() {
        *x = b[i] ^ (b[i] & *x);
    }
}

// Makes a table that of the points outside its function.
pub fn outside(s: &mut [u64], columns: u16)
    requires { length s.old ≡ size columns }
    ensures { Outside columns s.old s.new }
{
    let w = word::constant_word(columns, true);
    for x in s.iter_mut() {
        *x = w ^ (w & *x);
    }
}

// The place of the first word of a table that meets a word.
pub fn first_met(s: &[u64], w: u64) -> Option<usize>
    ensures { FirstMet w s.now result }
{
    s.iter().position(|x| (*x & w) != 0)
}

// Adds a word to each word of what is covered, and what of it was covered before to what is covered twice.
pub fn add_word(covered: &mut [u64], twice: &mut [u64], w: u64)
    requires { length twice.old ≡ length covered.old }
    ensures once { covered.new ≡ wordwise bit_or (replicate (length covered.old) w) covered.old }
    ensures again { twice.new ≡ wordwise bit_or twice.old (wordwise bit_and (replicate (length covered.old) w) covered.old) }
{
    for (i, x) in covered.iter_mut().enumerate() {
        twice[i] |= w & *x;
        *x |= w;
    }
}
