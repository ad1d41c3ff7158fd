// The rooms of a program: a table of 4,096 records, a list of 1,536 cubes, and the size of a room for its answer.
ghost use Rattle.std.specs.Prelude.{◌≡◌};
ghost use Rattle.desk.specs.Contract.{IsZero, ReadsInto};

use rule::refusal::Refused;
use text::function;
use text::function::Function;

// The bytes that every answer fits: a list of 1,536 rows of 16 columns.
pub const ANSWER_ROOM: usize = 29206;

// Kept: three arrays, since reading, the generator and the checker take three slices, as C lends them.
#[derive(Drop)]
pub struct Rooms {
    pub level: [u16; 4096],
    pub low: [u16; 4096],
    pub high: [u16; 4096],
    pub list: [u32; 1536],
}

impl Rooms {
    // All zero.
    pub fn new() -> Rooms
        ensures { IsZero result }
    {
        Rooms {
            level: [0; 4096],
            low: [0; 4096],
            high: [0; 4096],
            list: [0; 1536],
        }
    }

    // The function of a text, in the table; the list stays as it is.
    pub fn read(&mut self, input: &[u8]) -> Result<Function, Refused>
        ensures reads { ReadsInto input.now self.old self.new result }
        ensures list { self.new.list ≡ self.old.list }
    {
        function::read_function(input, &mut self.level, &mut self.low, &mut self.high)
    }
}
