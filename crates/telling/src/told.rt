// Answers told in numbers.
// Kept: numbers for refusals and kinds, since the C interface has them.
ghost use Rattle.std.specs.Prelude.{◌≡◌};
ghost use Rattle.telling.specs.Told.{Told, ToldValue, ToldList, ToldVerdict, ToldWritten, ToldCandidate, ToldFunction, kind_and_values};

use checker::fault::{Fault, Verdict};
use rule::refusal::{Refusal, Refused};
use text::function::Function;

// The status of an entry that is done.
const DONE: u16 = 0;

// The status of an operation; its root and the count of records in use after it go into the array.
pub fn tell(answer: Result<u16, Refusal>, count: usize, out: &mut [u64; 2]) -> u16
    ensures { Told answer count result out.new }
{
    match answer {
        Ok(root) => {
            *out = [root as u64, count as u64];
            DONE
        }
        Err(refusal) => {
            *out = [0, count as u64];
            refusal.number()
        }
    }
}

// The status of a value; the value goes into the array as 0 or 1.
pub fn tell_value(answer: Result<bool, Refusal>, out: &mut [u64; 1]) -> u16
    ensures { ToldValue answer result out.new }
{
    match answer {
        Ok(value) => {
            *out = [value as u64];
            DONE
        }
        Err(refusal) => {
            *out = [0];
            refusal.number()
        }
    }
}

// The status of a generation, a writing or a candidate's reading; what a refusal returns and the length that is answered go into
// the array.
pub fn tell_length(answer: Result<usize, Refused>, out: &mut [u64; 2]) -> u16
    ensures list { ToldList answer result out.new }
    ensures written { ToldWritten answer result out.new }
    ensures candidate { ToldCandidate answer result out.new }
{
    match answer {
        Ok(length) => {
            *out = [0, length as u64];
            DONE
        }
        Err(refused) => {
            *out = [refused.returned as u64, 0];
            refused.refusal.number()
        }
    }
}

// The status of a generation; what a refusal returns and the length of the list go into the array.
pub fn tell_list(answer: Result<usize, Refused>, out: &mut [u64; 2]) -> u16
    ensures { ToldList answer result out.new }
{
    tell_length(answer, out)
}

// The status of a writing; what a refusal returns and the bytes written go into the array.
pub fn tell_written(written: Result<usize, Refused>, out: &mut [u64; 2]) -> u16
    ensures { ToldWritten written result out.new }
{
    tell_length(written, out)
}

// The status of a candidate's reading; what a refusal returns and the length of the list go into the array.
pub fn tell_candidate(rows: Result<usize, Refused>, out: &mut [u64; 2]) -> u16
    ensures { ToldCandidate rows result out.new }
{
    tell_length(rows, out)
}

// The kind of a verdict and its values.
fn kind_and_values(verdict: Verdict) -> [u64; 3]
    ensures { result ≡ kind_and_values (Ok verdict) }
{
    match verdict {
        Ok(()) => [0, 0, 0],
        Err(Fault::Off(cube, point)) => [1, cube as u64, point as u64],
        Err(Fault::Missing(point)) => [2, point as u64, 0],
        Err(Fault::Literal(cube, column)) => [3, cube as u64, column as u64],
        Err(Fault::Cube(cube)) => [4, cube as u64, 0],
    }
}

// The status of a check; the kind of its verdict, or what a refusal returns, and two values go into the array.
#[tactic(auto, unfolding(crate::specs::Told::kind_and_values, crate::specs::Told::verdict_numbers_of))]
pub fn tell_verdict(answer: Result<Verdict, Refused>, out: &mut [u64; 3]) -> u16
    ensures { ToldVerdict answer result out.new }
{
    match answer {
        Ok(verdict) => {
            *out = kind_and_values(verdict);
            DONE
        }
        Err(refused) => {
            *out = [refused.returned as u64, 0, 0];
            refused.refusal.number()
        }
    }
}

// The status of a function text's reading; what a refusal returns, the columns, the count of records, L and U go into the
// array.
pub fn tell_function(answer: Result<Function, Refused>, out: &mut [u64; 5]) -> u16
    ensures { ToldFunction answer result out.new }
{
    match answer {
        Ok(
            Function {
                columns,
                count,
                lower,
                upper,
            },
        ) => {
            *out = [0, columns as u64, count as u64, lower as u64, upper as u64];
            DONE
        }
        Err(refused) => {
            *out = [refused.returned as u64, 0, 0, 0, 0];
            refused.refusal.number()
        }
    }
}
