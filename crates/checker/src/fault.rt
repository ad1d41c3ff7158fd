// What is wrong with a list.

// The first fault: cubes are counted from 1, columns from 0, points have their numbers.
#[derive(Clone, Copy)]
pub enum Fault {
    Off(u32, u32),
    Missing(u32),
    Literal(u32, u16),
    Cube(u32),
}

// Accept, or the first fault.
pub type Verdict = Result<(), Fault>;
