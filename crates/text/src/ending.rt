// Where a function text ends: what follows its first `.e` line.
ghost use Rattle.std.specs.Prelude.{◌≡◌};
ghost use Rattle.line.specs.Meaning.{after_end};

use crate::reader::Reader;
use line::meaning::Line;

// What follows the first `.e` line: nothing without one.
pub fn after_end(text: &[u8]) -> &[u8]
    ensures { result.now ≡ after_end text.now }
{
    let mut reader = Reader { text, at: 0 };
    while let Some(line) = reader.next_line() {
        if let Line::End = line {
            break;
        }
    }
    &reader.text[reader.at..]
}
