// A whole text, line by line: its shape, or the line of its first fault.
ghost use Rattle.std.specs.Prelude.{◌≡◌, ◌≤◌, length};
ghost use Rattle.line.specs.declared.meaning.Line;
ghost use Rattle.text.specs.Outcome.{start, allows_kind, allows_out, legal, step, finish, outcome};
ghost use Rattle.text.specs.Outcome.{with_columns, with_output, with_kind, with_count, with_row};
ghost use Rattle.text.specs.Judged.{judged, judged_plus};

use crate::reader::Reader;
use line::meaning::{Kind, Line, Out};

// What the lines so far have said: the columns, whether `.o` was there, the type, the stated number of rows, and the rows
// themselves.
#[derive(Clone, Copy)]
pub struct State {
    pub columns: Option<u16>,
    pub output: bool,
    pub kind: Option<Kind>,
    pub count: Option<u32>,
    pub rows: u32,
}

// What a line does: it leads on, it is a fault, or it ends the text.
#[derive(Clone, Copy)]
pub enum Step {
    On(State),
    Fault,
    Ended,
}

// A text's shape: its columns, its type and the number of its rows.
#[derive(Clone, Copy)]
pub struct Shape {
    pub columns: u16,
    pub kind: Kind,
    pub rows: u32,
}

// Whether a type may stand in what is asked for: a candidate's is f or fd.
#[tactic(auto, unfolding(crate::specs::Outcome::allows_kind))]
fn allows_kind(asked: u16, kind: Kind) -> bool
    ensures { result ≡ allows_kind asked kind }
{
    match kind {
        Kind::F | Kind::Fd => true,
        Kind::Fr => asked == 0,
    }
}

// Whether an output sign may stand in what is asked for: a candidate's are 1.
#[tactic(auto, unfolding(crate::specs::Outcome::allows_out))]
fn allows_out(asked: u16, out: Out) -> bool
    ensures { result ≡ allows_out asked out }
{
    match out {
        Out::One => true,
        Out::Zero | Out::Dash | Out::Tilde => asked == 0,
    }
}

// A state if a line may stand after what was said before it.
#[tactic(auto, unfolding(crate::specs::Outcome::legal))]
fn legal(allowed: bool, then: State) -> Step
    ensures { result ≡ legal allowed then }
{
    if allowed { Step::On(then) } else { Step::Fault }
}

impl State {
    // The state before the first line.
    #[tactic(auto, unfolding(crate::specs::Outcome::start))]
    fn nothing_said() -> State
        ensures { result ≡ start }
    {
        State {
            columns: None,
            output: false,
            kind: None,
            count: None,
            rows: 0,
        }
    }

    // The state after each kind of line.
    #[tactic(auto, unfolding(crate::specs::Outcome::with_columns))]
    fn with_columns(self, n: u16) -> State
        ensures { result ≡ with_columns self n }
    {
        State {
            columns: Some(n),
            ..self
        }
    }

    #[tactic(auto, unfolding(crate::specs::Outcome::with_output))]
    fn with_output(self) -> State
        ensures { result ≡ with_output self }
    {
        State {
            output: true,
            ..self
        }
    }

    #[tactic(auto, unfolding(crate::specs::Outcome::with_kind))]
    fn with_kind(self, kind: Kind) -> State
        ensures { result ≡ with_kind self kind }
    {
        State {
            kind: Some(kind),
            ..self
        }
    }

    #[tactic(auto, unfolding(crate::specs::Outcome::with_count))]
    fn with_count(self, n: u32) -> State
        ensures { result ≡ with_count self n }
    {
        State {
            count: Some(n),
            ..self
        }
    }

    #[tactic(auto, unfolding(crate::specs::Outcome::with_row))]
    fn with_row(self) -> State
        requires { self.rows ≤ 32768 }
        ensures { result ≡ with_row self }
    {
        State {
            rows: self.rows + 1,
            ..self
        }
    }

    // What a line does after what was said so far. A directive stands before the first row, and once.
    #[tactic(auto, unfolding(crate::specs::Outcome::step, crate::specs::Outcome::first, crate::specs::Outcome::said, crate::specs::Outcome::columns_are, crate::specs::Outcome::allows_columns))]
    fn take(self, asked: u16, line: Line) -> Step
        requires { self.rows ≤ 32768 }
        ensures { result ≡ step asked self line }
    {
        let early = self.rows == 0;
        match line {
            Line::Empty => Step::On(self),
            Line::Columns(n) => legal(
                early && self.columns.is_none() && (asked == 0 || n == asked),
                self.with_columns(n),
            ),
            Line::Output => legal(early && !self.output, self.with_output()),
            Line::Typed(kind) => legal(
                early && self.kind.is_none() && allows_kind(asked, kind),
                self.with_kind(kind),
            ),
            Line::Count(n) => legal(early && self.count.is_none(), self.with_count(n)),
            Line::Row(signs, _, out) => legal(
                self.columns == Some(signs) && self.output && allows_out(asked, out),
                self.with_row(),
            ),
            Line::End => Step::Ended,
            Line::Bad => Step::Fault,
        }
    }

    // The end of a text, known at line k: its shape, or that line. An absent type means fd.
    #[tactic(auto, using(crate::proofs::KindNames::kind_back), unfolding(crate::specs::Outcome::finish, crate::specs::Outcome::said, crate::specs::Outcome::end_with, crate::specs::Outcome::complete, crate::specs::Outcome::count_right, crate::specs::Outcome::kind_or_fd, crate::specs::Judged::judged_plus))]
    fn finish(self, k: u32) -> Result<Shape, u32>
        ensures { result ≡ judged_plus self.rows (finish self k) }
    {
        let Some(columns) = self.columns else {
            return Err(k);
        };
        let counted = self.count.is_none_or(|n| n == self.rows);
        if !self.output || !counted {
            return Err(k);
        }
        Ok(Shape {
            columns,
            kind: self.kind.unwrap_or(Kind::Fd),
            rows: self.rows,
        })
    }
}

// Judges a whole text: a function text where 0 is asked for, else a candidate for so many columns. A fault is given by its line.
// Kept: 0 asks for a function text: the definition `text.Outcome.outcome`, which may not change, takes this number, and clauses
// cite it.
pub fn judge(asked: u16, text: &[u8]) -> Result<Shape, u32>
    requires { length text.now ≤ 32768 }
    ensures { result ≡ judged (outcome asked text.now) }
{
    let mut reader = Reader { text, at: 0 };
    let mut state = State::nothing_said();
    let mut k: u32 = 1;
    while let Some(line) = reader.next_line() {
        match state.take(asked, line) {
            Step::On(next) => state = next,
            Step::Fault => return Err(k),
            Step::Ended => break,
        }
        k += 1;
    }
    state.finish(k)
}
