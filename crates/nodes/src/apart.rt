// The records of a row as three arrays of numbers, lent as a table to be read, and together again.
ghost use Rattle.nodes.specs.Row.{ApartOf, TogetherIn, SharesRow};

use crate::row::{Node, RowRef};
use graph::table::TableRef;

// The level, the low and the high number of each record; zeros past the row.
// Kept: three arrays, since the entries take three slices, as C lends them.
#[derive(Drop)]
pub struct Apart {
    pub level: [u16; 4096],
    pub low: [u16; 4096],
    pub high: [u16; 4096],
}

impl Apart {
    // The first records of a row, then zeros.
    pub fn of(nodes: &[Node]) -> Apart
        ensures { ApartOf nodes.now result }
    {
        let mut apart = Apart {
            level: [0; 4096],
            low: [0; 4096],
            high: [0; 4096],
        };
        let size = nodes.len().min(4096);
        let first = &nodes[..size];
        for (i, node) in first.iter().enumerate() {
            apart.level[i] = node.level;
            apart.low[i] = node.low;
            apart.high[i] = node.high;
        }
        apart
    }

    // The first numbers of the arrays as a table to be read, as many as the row has records.
    pub fn table(&self, row: RowRef<'_>) -> TableRef<'_>
        ensures { SharesRow self.now row.entry result }
    {
        let size = row.nodes.len().min(4096);
        TableRef {
            columns: row.columns,
            count: row.count,
            level: &self.level[..size],
            low: &self.low[..size],
            high: &self.high[..size],
        }
    }

    // The first records of a row become those of the arrays; the others stay.
    pub fn store(&self, nodes: &mut [Node])
        ensures { TogetherIn self.now nodes.old nodes.new }
    {
        let size = nodes.len().min(4096);
        let first = &mut nodes[..size];
        for (i, node) in first.iter_mut().enumerate() {
            *node = Node {
                level: self.level[i],
                low: self.low[i],
                high: self.high[i],
            };
        }
    }
}
