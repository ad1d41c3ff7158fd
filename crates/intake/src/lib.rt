// A whole input, read into a lent room.
#![tactic(auto)]

ghost use Rattle.std.specs.Prelude.{◌≤◌, length, take};
ghost use Rattle.std.specs.Io.KnownBytes.{Consumes};

use std::io::Read;

// One read, and the number of its bytes. A read that fails gives none.
fn read_some<R: Read>(reader: &mut R, room: &mut [u8]) -> usize
    ensures count { result ≤ length room.new }
    ensures bytes { Consumes (R.remaining reader.old) (R.remaining reader.new) (take result room.new) }
{
    match reader.read(room) {
        Ok(count) => count,
        Err(_) => 0,
    }
}

// Reads until the room is full, the input ends or a read fails. The bytes that were read stand at the start of the room in their
// order, and their number is returned.
pub fn read_full<R: Read>(reader: &mut R, room: &mut [u8]) -> usize
    ensures count { result ≤ length room.new }
    ensures bytes { Consumes (R.remaining reader.old) (R.remaining reader.new) (take result room.new) }
{
    let mut done = 0;
    // Kept: a loop over reads, each of as many bytes as come; no index is counted.
    while done < room.len() {
        let count = read_some(reader, &mut room[done..]);
        if count == 0 {
            break;
        }
        done += count;
    }
    done
}
