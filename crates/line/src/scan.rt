// Runs of bytes: what stands before the first byte of a class, and what from it on; so a line's end, its comment and its fields.
ghost use Rattle.std.specs.Prelude.{◌≡◌, ◌≤◌, length, drop};
ghost use Rattle.line.specs.Bytes.{is_blank, is_newline, until, from};
ghost use Rattle.line.specs.Scan.{test_of, first_field, rest_fields};

// The classes of bytes: byte 10, "#", spaces and tabs, and all but spaces and tabs.
// Kept: a class and no closure, since a function that takes a closure asks that it may be called, and these ask nothing.
#[derive(Clone, Copy)]
pub enum Class {
    Newline,
    Hash,
    Blank,
    Filled,
}

impl Class {
    // Whether a byte is of the class.
    #[tactic(auto, unfolding(crate::specs::Scan::test_of, crate::specs::Scan::is_filled, crate::specs::Bytes::is_newline, crate::specs::Bytes::is_hash))]
    fn has(self, b: u8) -> bool
        ensures { result ≡ test_of self b }
    {
        match self {
            Class::Newline => b == b'\n',
            Class::Hash => b == b'#',
            Class::Blank => is_blank(b),
            Class::Filled => !is_blank(b),
        }
    }
}

// Whether a byte is a space or a tab.
#[tactic(auto, unfolding(crate::specs::Bytes::is_blank))]
fn is_blank(b: u8) -> bool
    ensures { result ≡ is_blank b }
{
    matches!(b, b' ' | b'\t')
}

// How many bytes stand before the first of a class.
pub fn run_length(s: &[u8], what: Class) -> usize
    ensures { result ≡ length (until (test_of what) s.now) }
{
    s.iter().position(|b| what.has(*b)).unwrap_or(s.len())
}

// The bytes before the first of a class.
pub fn before_first(s: &[u8], what: Class) -> &[u8]
    ensures { result.now ≡ until (test_of what) s.now }
{
    let n = run_length(s, what);
    &s[..n]
}

// The bytes from the first of a class on.
pub fn from_first(s: &[u8], what: Class) -> &[u8]
    ensures { result.now ≡ from (test_of what) s.now }
{
    let n = run_length(s, what);
    &s[n..]
}

// The line that starts at a place of a text, without its byte 10.
pub fn line_at(text: &[u8], at: usize) -> &[u8]
    requires { at ≤ length text.now }
    ensures { result.now ≡ until is_newline (drop at text.now) }
{
    before_first(&text[at..], Class::Newline)
}

// The first field, empty without one.
pub fn first_field(s: &[u8]) -> &[u8]
    ensures { result.now ≡ first_field s.now }
{
    let t = from_first(s, Class::Filled);
    before_first(t, Class::Blank)
}

// What follows the first field.
pub fn rest_fields(s: &[u8]) -> &[u8]
    ensures { result.now ≡ rest_fields s.now }
{
    let t = from_first(s, Class::Filled);
    from_first(t, Class::Blank)
}
