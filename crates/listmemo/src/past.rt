// Lists found before: 512 entries, each for two roots from one column on. Two pairs of roots that meet at one place take it from
// each other.
ghost use Rattle.std.specs.Prelude.{◌≡◌, ℕ, ◌<◌, List, replicate};
ghost use Rattle.listmemo.specs.Past.{key_of, no_entry, Stands, Keeps, FoundOf};

// A list that stands in the room: the place of its first cube, its length, the literals of its path and its cover.
// Kept: the place and the length as u32, where the room has usize: an entry has three words so, and both fit, since a place and
// what may still be listed from it on stay within 2 ^ 32 (`list.Generating.Listable`).
#[derive(Clone, Copy)]
pub struct Found {
    pub from: u32,
    pub size: u32,
    pub literals: u32,
    pub cover: u16,
}

// An entry: the key of two roots and a column, and what was found for them. Key 0 is no entry.
// Kept: 0 and no option, since a key is looked for first, and no question has key 0.
#[derive(Clone, Copy)]
pub struct Entry {
    pub key: u64,
    pub found: Found,
}

#[derive(Drop)]
pub struct Past {
    pub entries: [Entry; 512],
}

// The key of two roots, from column k on.
fn key_of(a: u16, b: u16, k: u16) -> u64
    requires { k < 64 }
    ensures { result ≡ key_of a b k }
{
    ((65536 + (a as u64)) * 65536 + (b as u64)) * 64 + (k as u64)
}

// The place of two roots, from column k on.
fn place_of(a: u16, b: u16, k: u16) -> usize
    requires { k < 64 }
    ensures { result < 512 }
{
    (37 * (a as usize) + 101 * (b as usize) + 7 * (k as usize)) % 512
}

impl Past {
    // No list was found before.
    pub fn new() -> Past
        ensures { result.entries ≡ replicate 512 no_entry }
    {
        let found = Found {
            from: 0,
            size: 0,
            literals: 0,
            cover: 0,
        };
        Past {
            entries: [Entry { key: 0, found }; 512],
        }
    }

    // What is known of the list of two roots, from column k on.
    pub fn find(&self, a: u16, b: u16, k: u16) -> Option<Found>
        requires { k < 64 }
        ensures { (n c : ℕ) (v l h room : List ℕ) (at : ℕ) → Keeps n c v l h room at self.now.entries → FoundOf n c v l h room at a b k result }
    {
        let entry = self.entries[place_of(a, b, k)];
        if entry.key != key_of(a, b, k) {
            return None;
        }
        Some(entry.found)
    }

    // A list found is kept.
    pub fn keep(&mut self, a: u16, b: u16, k: u16, found: Found)
        requires { k < 64 }
        ensures { (n c : ℕ) (v l h room : List ℕ) (at : ℕ) → Keeps n c v l h room at self.old.entries → Stands n c v l h room at a b k found.cover found.from found.size found.literals → Keeps n c v l h room at self.new.entries }
    {
        let key = key_of(a, b, k);
        self.entries[place_of(a, b, k)] = Entry { key, found };
    }
}
