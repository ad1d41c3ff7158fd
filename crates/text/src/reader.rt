// A reader of a lent text: its lines are taken one after the other.
ghost use Rattle.std.specs.Prelude.{◌≡◌, ◌≤◌, length, drop};
ghost use Rattle.text.specs.Reader.{next_line, rest_after, told_at, taken_at};

use line::meaning::Line;
use line::{meaning, scan};

// The lent text, and the place of its next unread line.
#[derive(Clone, Copy)]
pub struct Reader<'a> {
    pub text: &'a [u8],
    pub at: usize,
}

impl Reader<'_> {
    // The meaning of the next line, or none at the end of the text and past it. The place is then that of the line after it, or
    // the end.
    pub fn next_line(&mut self) -> Option<Line>
        ensures line { result ≡ next_line (drop self.old.at self.old.text.now) }
        ensures rest { drop self.new.at self.new.text.now ≡ rest_after (drop self.old.at self.old.text.now) }
        ensures taken { told_at result self.new.at ≡ taken_at self.old.text.now self.old.at }
        ensures within { self.new.at ≤ length self.new.text.now }
        ensures text { self.new.text ≡ self.old.text }
    {
        if self.text.len() <= self.at {
            self.at = self.text.len();
            return None;
        }
        let line = scan::line_at(self.text, self.at);
        let told = meaning::line_meaning(line);
        self.at = (self.at + line.len() + 1).min(self.text.len());
        Some(told)
    }
}
