// A node table as a lent row of records, to be read or to be built in.
ghost use Rattle.std.specs.Prelude.{◌≡◌};
ghost use Rattle.rule.specs.Refusal.{refusal_of};
ghost use Rattle.nodes.specs.Row.{over_refusal};

use rule::refusal::Refusal;

// Laid out as C lays it out: three 16-bit numbers, one after the other.
#[repr(C)]
#[derive(Clone, Copy)]
pub struct Node {
    pub level: u16,
    pub low: u16,
    pub high: u16,
}

// A row that is lent to be read: its columns, the count of records in use, and the records.
#[derive(Clone, Copy)]
pub struct RowRef<'a> {
    pub columns: u16,
    pub count: usize,
    pub nodes: &'a [Node],
}

// A row that is lent to be built in.
#[derive(Drop)]
pub struct RowMut<'a> {
    pub columns: u16,
    pub count: usize,
    pub nodes: &'a mut [Node],
}

// The refusal of a row of more than 4,096 records.
#[tactic(auto, unfolding(crate::specs::Row::over_refusal, rule::specs::Refusal::first_broken, rule::specs::Refusal::refusal_of))]
pub fn over_refusal(columns: u16) -> Refusal
    ensures { result ≡ refusal_of (over_refusal columns) }
{
    if 16 < columns {
        Refusal::ColumnsOver
    } else {
        Refusal::TableOver
    }
}
