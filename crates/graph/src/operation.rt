// The operations and their terminal cases: where the result is known without taking columns apart.
ghost use Rattle.graph.specs.Operation.{TerminalOf, symmetric};

// An operation of two functions. The difference is the first and not the second.
#[derive(Clone, Copy)]
pub enum Op {
    And,
    Or,
    Difference,
}

impl Op {
    // A number that is the result whatever the columns are, or none: then the operands are to be split.
    #[tactic(auto, unfolding(crate::specs::Operation::symmetric))]
    pub fn known(self, a: u16, b: u16) -> Option<u16>
        ensures { TerminalOf self a b result }
    {
        match self {
            Op::And => symmetric_terminal(false, a, b),
            Op::Or => symmetric_terminal(true, a, b),
            Op::Difference => difference_terminal(a, b),
        }
    }
}

// And where 0 decides, or where 1 does: the constant that decides is the result, the other one leaves the other operand.
fn symmetric_terminal(one_decides: bool, a: u16, b: u16) -> Option<u16>
    ensures { TerminalOf (symmetric one_decides) a b result }
{
    let decides = one_decides as u16;
    if a == decides || b == decides {
        return Some(decides);
    }
    if a < 2 {
        return Some(b);
    }
    if b < 2 || a == b {
        return Some(a);
    }
    None
}

// First and not second: 0 where the first is 0, the second is 1 or both are equal, and the first where the second is 0.
fn difference_terminal(a: u16, b: u16) -> Option<u16>
    ensures { TerminalOf Op.Difference a b result }
{
    if a == 0 || b == 1 || a == b {
        return Some(0);
    }
    if b == 0 {
        return Some(a);
    }
    None
}
