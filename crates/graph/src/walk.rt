// Walks of the graph that build nothing: the value at a point, and whether one root lies within another.
ghost use Rattle.std.specs.Prelude.{◌≡◌, ℕ, ◌+◌};
ghost use Rattle.rule.specs.Func.{within};
ghost use Rattle.rule.specs.Point.{at, digits};
ghost use Rattle.graph.specs.Table.{fn_of};
ghost use Rattle.graph.specs.Lent.{read, RootIn, RootsToRead};

use crate::table::TableRef;

impl TableRef<'_> {
    // The value of a number at a point of the columns from column k on, by one call for each column.
    pub fn value_from(&self, k: u16, x: u16, point: u32) -> bool
        requires { RootIn self.now k x }
        ensures { (m : ℕ) → k + m ≡ self.now.columns → result ≡ at m (fn_of (read self.now) k m x) (digits m point) }
    {
        if k == self.columns {
            return x == 1;
        }
        let next = self.half_of(k, point % 2 == 1, x);
        self.value_from(k + 1, next, point / 2)
    }

    // Whether the function of one number lies within that of another, over the columns from column k on.
    pub fn within_from(&self, k: u16, a: u16, b: u16) -> bool
        requires { RootsToRead self.now k a b }
        ensures { (m : ℕ) → k + m ≡ self.now.columns → result ≡ within m (fn_of (read self.now) k m a) (fn_of (read self.now) k m b) }
    {
        if a == 0 || b == 1 || a == b {
            return true;
        }
        if k == self.columns {
            return false;
        }
        let first = self.split(k, a);
        let second = self.split(k, b);
        self.within_from(k + 1, first.low, second.low)
            && self.within_from(k + 1, first.high, second.high)
    }
}
