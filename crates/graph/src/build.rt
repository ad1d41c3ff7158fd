// Building: making a node, and one recursive operation for and, or and difference.
ghost use Rattle.std.specs.Prelude.{◌≡◌, ℕ, suc, ◌+◌, ◌≤◌, length, None};
ghost use Rattle.rule.specs.Func.{joined};
ghost use Rattle.graph.specs.Table.{fn_of, node_fn};
ghost use Rattle.graph.specs.Operation.{op_of};
ghost use Rattle.graph.specs.Lent.{table, SameSlices, Grown, HalvesIn, RootsIn, MadeIn, SharesIn, GivenBack};

use crate::operation::Op;
use crate::table::TableRef;

// A table that is lent to be built in: its columns, the count of records in use, and the level, low and high of each record.
#[derive(Drop)]
pub struct TableMut<'a> {
    pub columns: u16,
    pub count: usize,
    pub level: &'a mut [u16],
    pub low: &'a mut [u16],
    pub high: &'a mut [u16],
}

impl TableMut<'_> {
    // The same table, to be read.
    pub fn reading(&self) -> TableRef<'_>
        ensures { SharesIn self.now result }
    {
        TableRef {
            columns: self.columns,
            count: self.count,
            level: self.level,
            low: self.low,
            high: self.high,
        }
    }

    // The number of the node of column k with a low and a high number, or none where there is no room for it.
    pub fn make(&mut self, k: u16, l: u16, h: u16) -> Option<u16>
        requires { HalvesIn self.old k l h }
        ensures same { Grown self.old self.new }
        ensures made { (m : ℕ) → k + suc m ≡ self.old.columns → MadeIn self.old self.new k (suc m) (node_fn (table self.old) k m l h) result }
        ensures kept { result ≡ None → self.new.count ≡ self.old.count }
    {
        if l == h {
            return Some(l);
        }
        if let Some(x) = self.reading().number_at(k, l, h) {
            return Some(x);
        }
        if self.count == self.level.len() {
            return None;
        }
        let i = self.count;
        self.level[i] = k;
        self.low[i] = l;
        self.high[i] = h;
        self.count += 1;
        Some((i + 2) as u16)
    }

    // The number of an operation of two numbers, over the columns from column k on, or none where there is no room for it.
    pub fn apply(&mut self, op: Op, k: u16, a: u16, b: u16) -> Option<u16>
        requires { RootsIn self.old k a b }
        ensures same { Grown self.old self.new }
        ensures made { (m : ℕ) → k + m ≡ self.old.columns → MadeIn self.old self.new k m (joined (op_of op) m (fn_of (table self.old) k m a) (fn_of (table self.old) k m b)) result }
    {
        if let Some(x) = op.known(a, b) {
            return Some(x);
        }
        let first = self.reading().split(k, a);
        let second = self.reading().split(k, b);
        if first.low == first.high && second.low == second.high {
            return self.apply(op, k + 1, first.low, second.low);
        }
        let x = self.apply(op, k + 1, first.low, second.low)?;
        let y = self.apply(op, k + 1, first.high, second.high)?;
        self.make(k, x, y)
    }

    // The records past the first `kept` are given back: they become zero, and `kept` are in use.
    pub fn give_back(&mut self, kept: usize)
        requires { (kept ≤ length self.old.level.now) × (kept ≤ length self.old.low.now) × (kept ≤ length self.old.high.now) }
        ensures same { SameSlices self.old self.new }
        ensures given { GivenBack kept self.old self.new }
    {
        self.level[kept..].fill(0);
        self.low[kept..].fill(0);
        self.high[kept..].fill(0);
        self.count = kept;
    }
}
