// Bytes put into a lent room one after the other.
ghost use Rattle.std.specs.Prelude.{◌+◌, ◌≤◌, ◌<◌, [], ◌∷◌, length};
ghost use Rattle.line.specs.Decimal.{decimal_of};
ghost use Rattle.text.specs.Writer.{SameRoom, PutIn, ClearedIn};

// The room, and the place after what was put there.
#[derive(Drop)]
pub struct Writer<'r> {
    pub room: &'r mut [u8],
    pub at: usize,
}

impl Writer<'_> {
    // One byte.
    pub fn byte(&mut self, b: u8)
        requires { self.old.at < length self.old.room.now }
        ensures same { SameRoom self.old self.new }
        ensures put { PutIn self.old (b ∷ []) self.new }
    {
        self.room[self.at] = b;
        self.at += 1;
    }

    // Some bytes as they are.
    pub fn bytes(&mut self, word: &[u8])
        requires { self.old.at + length word.now ≤ length self.old.room.now }
        ensures same { SameRoom self.old self.new }
        ensures put { PutIn self.old word.now self.new }
    {
        let end = self.at + word.len();
        self.room[self.at..end].copy_from_slice(word);
        self.at = end;
    }

    // A number in decimal, without leading zeros.
    pub fn number(&mut self, n: u32)
        requires { self.old.at + length (decimal_of 9 n) ≤ length self.old.room.now }
        ensures same { SameRoom self.old self.new }
        ensures put { PutIn self.old (decimal_of 9 n) self.new }
    {
        if 10 <= n {
            self.number(n / 10);
        }
        self.byte(48 + (n % 10) as u8);
    }

    // The bytes past the place become zero.
    pub fn clear_rest(&mut self)
        requires { self.old.at ≤ length self.old.room.now }
        ensures same { SameRoom self.old self.new }
        ensures cleared { ClearedIn self.old self.new }
    {
        self.room[self.at..].fill(0);
    }
}
