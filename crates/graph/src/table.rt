// Reading a table: the half of a number, the look-up of a record, and whether a table keeps its rule.
ghost use Rattle.std.specs.Prelude.{◌≡◌, true, false, ℕ, ◌+◌, ◌≤◌, length};
ghost use Rattle.rule.specs.Refusal.{some_number};
ghost use Rattle.graph.specs.Table.{half_of, refers, is_record, number_at, good_record, good_table};
ghost use Rattle.graph.specs.Chain.{bucket_of};
ghost use Rattle.graph.specs.Lent.{read, HeldIn, SizedIn, SizedFor, ChainedIn, LinkableIn};

// A table that is lent to be read: its columns, the count of records in use, and the level, low and high of each record.
// Kept: three slices and no slice of records, since the C interface lends them so.
#[derive(Clone, Copy)]
pub struct TableRef<'a> {
    pub columns: u16,
    pub count: usize,
    pub level: &'a [u16],
    pub low: &'a [u16],
    pub high: &'a [u16],
}

// Both halves of a number at a column.
#[derive(Clone, Copy)]
pub struct HalvesOf {
    pub low: u16,
    pub high: u16,
}

impl TableRef<'_> {
    // The half of a number at column k, for the digit 1 (`second`) or 0.
    pub fn half_of(self, k: u16, second: bool, x: u16) -> u16
        requires { HeldIn self x }
        ensures { result ≡ half_of (read self.entry) k second x }
    {
        if x < 2 {
            return x;
        }
        let i = (x - 2) as usize;
        if self.level[i] != k {
            return x;
        }
        if second { self.high[i] } else { self.low[i] }
    }

    // Both halves of a number at column k.
    pub fn split(self, k: u16, x: u16) -> HalvesOf
        requires { HeldIn self x }
        ensures { (result.low ≡ half_of (read self.entry) k false x) × (result.high ≡ half_of (read self.entry) k true x) }
    {
        HalvesOf {
            low: self.half_of(k, false, x),
            high: self.half_of(k, true, x),
        }
    }

    // Whether a number is a constant, or one of the first `count` records with a level of at least k.
    pub fn refers_to(self, count: usize, k: u16, x: u16) -> bool
        requires { count ≤ length self.level.now }
        ensures { result ≡ refers (read self.entry) count k x }
    {
        if x < 2 {
            return true;
        }
        let i = (x - 2) as usize;
        i < count && k <= self.level[i]
    }

    // Whether record j has a level, a low and a high number.
    fn is_record(self, j: usize, v: u16, l: u16, h: u16) -> bool
        requires { SizedFor self (j + 1) }
        ensures { result ≡ is_record (read self.entry) j v l h }
    {
        self.level[j] == v && self.low[j] == l && self.high[j] == h
    }

    // The number of the record in use with a level, a low and a high number: a walk from the newest.
    pub fn number_at(self, v: u16, l: u16, h: u16) -> Option<u16>
        requires { SizedIn self }
        ensures { result ≡ some_number (number_at (read self.entry) self.entry.count v l h) }
    {
        for i in (0..self.count).rev() {
            if self.is_record(i, v, l, h) {
                return Some((i + 2) as u16);
            }
        }
        None
    }

    // Whether record i keeps its rule over the records before it, which are on their chains.
    fn good_record(self, chains: &Chains, i: usize) -> bool
        requires { LinkableIn self chains.now i }
        ensures { result ≡ good_record self.entry.columns (read self.entry) i }
    {
        let v = self.level[i];
        let l = self.low[i];
        let h = self.high[i];
        v < self.columns
            && l != h
            && self.refers_to(i, v + 1, l)
            && self.refers_to(i, v + 1, h)
            && chains.number_at(self, i, v, l, h).is_none()
    }

    // Whether the records in use keep their rule.
    pub fn good_table(self) -> bool
        requires { SizedIn self }
        ensures { result ≡ good_table self.entry.columns (read self.entry) self.entry.count }
    {
        let mut chains = Chains {
            last: [0; 1024],
            prev: [0; 4096],
        };
        for i in 0..self.count {
            if !self.good_record(&chains, i) {
                return false;
            }
            chains.link(self, i);
        }
        true
    }
}

// The bucket of a record.
fn bucket_of(v: u16, l: u16, h: u16) -> usize
    ensures { result ≡ bucket_of v l h }
{
    ((v as usize) + 5 * (l as usize) + 11 * (h as usize)) % 1024
}

// The chains of a table's first records: for each bucket its latest record, for each record the one before it in its bucket.
// A place is counted from 1, and 0 ends a chain.
// Kept: 0 and no option, which would double both arrays, and memory is fixed.
#[derive(Drop)]
struct Chains {
    last: [u16; 1024],
    prev: [u16; 4096],
}

impl Chains {
    // The same number as the table's `number_at` has among the first `count` records, found along the chain of its bucket.
    fn number_at(&self, table: TableRef<'_>, count: usize, v: u16, l: u16, h: u16) -> Option<u16>
        requires { ChainedIn table self.now count }
        ensures { result ≡ some_number (number_at (read table.entry) count v l h) }
    {
        // Kept: a walk along a chain, where no index is counted.
        let mut x = self.last[bucket_of(v, l, h)];
        while 0 < x {
            let j = (x - 1) as usize;
            if table.is_record(j, v, l, h) {
                return Some((j + 2) as u16);
            }
            x = self.prev[j];
        }
        None
    }

    // Record i goes on the chain of its bucket.
    fn link(&mut self, table: TableRef<'_>, i: usize)
        requires { LinkableIn table self.old i }
        ensures { ChainedIn table.entry self.new (i + 1) }
    {
        let b = bucket_of(table.level[i], table.low[i], table.high[i]);
        self.prev[i] = self.last[b];
        self.last[b] = (i + 1) as u16;
    }
}
