// The generator: recursive on the columns, left to right; the number of columns left falls at each of its three calls.
ghost use Rattle.std.specs.Prelude.{◌≡◌, ℕ, suc, ◌+◌, ◌^◌, ◌<◌};
ghost use Rattle.list.specs.Generating.{SameRooms, ListableIn, ExpandableIn, MemosIn, ListsIn, ListedIn, MemosAfterIn, NextFits, next_path, PutIn, CopyableIn, CopiedIn};

use listmemo::copy;
use listmemo::past::{Found, Past};
use memo::build::Operations;
use steps::step;
use steps::step::Covers;

// The node table with its memo, the memo of lists, and the list room with the place after the lists so far.
#[derive(Drop)]
pub struct Generator<'g, 'o, 't, 'r> {
    pub operations: &'g mut Operations<'o, 't>,
    pub past: Past,
    pub room: &'r mut [u32],
    pub at: usize,
}

// A column and what was chosen before it: `chosen` holds the literals of the columns before column k, `weight` is that of
// column k: bit k for 1, bit 16 + k for 0.
#[derive(Clone, Copy)]
pub struct Path {
    pub k: u16,
    pub weight: u32,
    pub chosen: u32,
}

impl Path {
    // The path to the next column, with more literals.
    fn next(self, literal: u32) -> Path
        requires { NextFits self literal }
        ensures { result ≡ next_path self literal }
    {
        Path {
            k: self.k + 1,
            weight: 2 * self.weight,
            chosen: self.chosen + literal,
        }
    }
}

impl Generator<'_, '_, '_, '_> {
    // A cube goes into the room where the room goes that far; past its end it is only counted.
    fn put(&mut self, cube: u32)
        requires { self.old.at < 2 ^ 32 }
        ensures same { SameRooms self.old self.new }
        ensures put { PutIn self.old cube self.new }
    {
        if self.at < self.room.len() {
            self.room[self.at] = cube;
        }
        self.at += 1;
    }

    // A list found before is copied.
    fn copy(&mut self, list: Found, chosen: u32)
        requires { CopyableIn self.old list chosen }
        ensures same { SameRooms self.old self.new }
        ensures copied { CopiedIn self.old list chosen self.new }
    {
        copy::copy(self.room, self.at, list, chosen);
        self.at += list.size as usize;
    }

    // Lists A, B and C of a step, one after the other, and their covers; none where there is no room for nodes.
    #[tactic(auto, unfolding(crate::specs::Generating::MemosAfter))]
    #[cycle(expand_generate_at)]
    fn expand(&mut self, path: Path, l: u16, u: u16) -> Option<Covers>
        requires roots { ExpandableIn self.old path l u }
        requires memos { MemosIn self.old }
        ensures same { SameRooms self.old self.new }
        ensures lists { (m : ℕ) → path.k + suc m ≡ self.old.operations.now.table.now.columns → ListsIn self.old self.new path m l u result }
        ensures memos { MemosAfterIn self.new result }
    {
        let kept = step::keep(self.operations, path.k, l, u)?;
        let g0 = self.generate_at(path.next(65536 * path.weight), kept.p0, kept.u0)?;
        let g1 = self.generate_at(path.next(path.weight), kept.p1, kept.u1)?;
        let (r, top) = step::rest(self.operations, path.k + 1, kept, g0, g1)?;
        let gs = self.generate_at(path.next(0), r, top)?;
        Some(Covers { g0, g1, gs })
    }

    // The list for the roots L and U over the columns from the path's on, and its cover. A list found before is copied.
    #[tactic(auto, unfolding(crate::specs::Generating::MemosAfter))]
    #[cycle(expand_generate_at)]
    pub fn generate_at(&mut self, path: Path, l: u16, u: u16) -> Option<u16>
        requires roots { ListableIn self.old path l u }
        requires memos { MemosIn self.old }
        ensures same { SameRooms self.old self.new }
        ensures list { (m : ℕ) → path.k + m ≡ self.old.operations.now.table.now.columns → ListedIn self.old self.new path m l u result }
        ensures memos { MemosAfterIn self.new result }
    {
        if l == 0 {
            return Some(0);
        }
        if u == 1 {
            self.put(path.chosen);
            return Some(1);
        }
        if let Some(found) = self.past.find(l, u, path.k) {
            self.copy(found, path.chosen);
            return Some(found.cover);
        }
        let from = self.at;
        let covers = self.expand(path, l, u)?;
        let cover = step::join(self.operations, path.k, covers)?;
        let found = Found {
            from: from as u32,
            size: (self.at - from) as u32,
            literals: path.chosen,
            cover,
        };
        self.past.keep(l, u, path.k, found);
        Some(cover)
    }
}
