// The refusals and their numbers, and the number that belongs to a refusal. An entry answers Ok with its result, or Err with
// the first refusal that applies.
ghost use Rattle.std.specs.Prelude.{◌≡◌};
ghost use Rattle.rule.specs.Refusal.{number_of};

// Why an entry refuses, with document 01's numbers.
#[derive(Clone, Copy)]
pub enum Refusal {
    ColumnsOver = 1,
    TableOver = 2,
    RecordBroken = 3,
    OutOfRange = 4,
    NotWithin = 5,
    ListOver = 6,
    NodesLack = 7,
    ListLacks = 8,
    CubeMalformed = 9,
    TextOver = 10,
    TextFault = 11,
    OnAndOff = 12,
    TextLacks = 13,
}

impl Refusal {
    // Document 01's number, from 1.
    pub fn number(self) -> u16
        ensures { result ≡ number_of self }
    {
        self as u16
    }

    // The refusal with what it returns.
    pub fn returning(self, returned: usize) -> Refused
        ensures refusal { result.refusal ≡ self }
        ensures returned { result.returned ≡ returned }
    {
        Refused {
            refusal: self,
            returned,
        }
    }
}

// A refusal with what it returns: the place of a fault, the room that is needed, or 0.
// Kept: the number stands beside its refusal, as document 01 has it: one number for each, 0 where there is none; the exports
// give out both.
#[derive(Clone, Copy)]
pub struct Refused {
    pub refusal: Refusal,
    pub returned: usize,
}

// A refusal that has nothing to return returns 0.
impl From<Refusal> for Refused {
    ghost from_gives = { λ r e. (e.refusal ≡ r) × (e.returned ≡ 0) };

    fn from(refusal: Refusal) -> Refused {
        refusal.returning(0)
    }
}
