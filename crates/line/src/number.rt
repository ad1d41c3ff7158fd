// Decimal numbers of one to five digits, as `.i` and `.p` have them.
// A longer field is no number, so that no value wraps.
ghost use Rattle.std.specs.Prelude.{◌≡◌};
ghost use Rattle.line.specs.Decimal.{number};

// Reads a field as a number.
pub fn read_number(f: &[u8]) -> Option<u32>
    ensures { result ≡ number f.now }
{
    if f.is_empty() || 5 < f.len() {
        return None;
    }
    let mut value: u32 = 0;
    for b in f {
        if !b.is_ascii_digit() {
            return None;
        }
        value = 10 * value + u32::from(*b - b'0');
    }
    Some(value)
}
