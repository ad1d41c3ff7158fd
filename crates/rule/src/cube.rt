// A single cube by its number: its literals, whether it is well formed, whether it covers a point; and the literals and
// the first malformed cube of a list. Every function takes every number.
ghost use Rattle.std.specs.Prelude.{◌≡◌, ◌+◌, ◌-◌, ◌^◌, min};
ghost use Rattle.std.specs.Int.Count.{ones};
ghost use Rattle.rule.specs.Number.{well_formed, first_malformed, number_covers, literal_sum};
ghost use Rattle.rule.specs.Refusal.{some_number};

// The number of literals of a cube: the count of its set bits.
pub fn literals(cube: u32) -> u32
    ensures { result ≡ ones cube }
{
    cube.count_ones()
}

// The literals of a list: the sum of its cubes'. No list that fits into a machine's memory comes near the largest number.
pub fn list_literals(list: &[u32]) -> u64
    ensures { result ≡ min (literal_sum list.now) (2 ^ 64 - 1) }
{
    list.iter().fold(
        0u64,
        |sum, &cube| sum.saturating_add(u64::from(literals(cube))),
    )
}

// Whether a number is a well-formed cube of some columns: no column has both bits, none beyond the last has one.
#[tactic(auto, using(crate::proofs::Masks::well_formed_wide))]
pub fn well_formed(columns: u16, cube: u32) -> bool
    ensures { result ≡ well_formed columns cube }
{
    let ones = cube % 65536;
    let zeros = cube / 65536;
    let beyond = 1u32 << columns.min(16);
    (ones & zeros) == 0 && (16 <= columns || (ones < beyond && zeros < beyond))
}

// The position of the first malformed cube of a list, from 1.
pub fn first_malformed(columns: u16, list: &[u32]) -> Option<usize>
    ensures { result ≡ some_number (first_malformed columns list.now) }
{
    list.iter()
        .position(|&cube| !well_formed(columns, cube))
        .map(|place| place + 1)
}

// Whether a cube covers a point: every column that must be 1 is, and none that must be 0.
#[tactic(auto, using(crate::proofs::Masks::number_covers_masks))]
pub fn covers(cube: u32, point: u32) -> bool
    ensures { result ≡ number_covers cube point }
{
    let ones = cube % 65536;
    let zeros = cube / 65536;
    (ones & point) == ones && (zeros & point) == 0
}
