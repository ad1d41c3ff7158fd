// The list rule at a point: three rules of nine entries each, over the values 0, 1 and star.
// The look-up answers what document 01's formulas give, wherever an entry can arise from the steps.
ghost use Rattle.std.specs.Prelude.{◌≡◌};
ghost use Rattle.rule.specs.Three.{printed, entry_of, place_of};

// A value at a point: off, on, or don't care, in the table's order.
#[derive(Clone, Copy)]
pub enum Value {
    Zero,
    One,
    Star,
}

// The rules of a step: keep (half, other half), remove (half, cover), join (rest 0, rest 1).
#[derive(Clone, Copy)]
pub enum Rule {
    Keep,
    Remove,
    Join,
}

// The table: for each rule, the value that it gives for two values, or none where the two cannot meet.
const KEEP: [Option<Value>; 9] = [
    Some(Value::Zero), // half 0, other half 0
    Some(Value::Zero), // half 0, other half 1
    Some(Value::Zero), // half 0, other half *
    Some(Value::One), // half 1, other half 0
    Some(Value::Star), // half 1, other half 1
    Some(Value::Star), // half 1, other half *
    Some(Value::Star), // half *, other half 0
    Some(Value::Star), // half *, other half 1
    Some(Value::Star), // half *, other half *
];

const REMOVE: [Option<Value>; 9] = [
    Some(Value::Zero), // half 0, cover 0
    None, // half 0, cover 1
    None, // half 0, cover *
    Some(Value::One), // half 1, cover 0
    Some(Value::Star), // half 1, cover 1
    None, // half 1, cover *
    Some(Value::Star), // half *, cover 0
    Some(Value::Star), // half *, cover 1
    None, // half *, cover *
];

const JOIN: [Option<Value>; 9] = [
    Some(Value::Zero), // rest 0 is 0, rest 1 is 0
    Some(Value::Zero), // rest 0 is 0, rest 1 is 1
    Some(Value::Zero), // rest 0 is 0, rest 1 is *
    Some(Value::Zero), // rest 0 is 1, rest 1 is 0
    Some(Value::One), // rest 0 is 1, rest 1 is 1
    Some(Value::One), // rest 0 is 1, rest 1 is *
    Some(Value::Zero), // rest 0 is *, rest 1 is 0
    Some(Value::One), // rest 0 is *, rest 1 is 1
    Some(Value::Star), // rest 0 is *, rest 1 is *
];

impl Rule {
    // The entries of a rule.
    #[tactic(auto, unfolding(crate::specs::Three::printed))]
    fn entries(self) -> [Option<Value>; 9]
        ensures { result ≡ printed self }
    {
        match self {
            Rule::Keep => KEEP,
            Rule::Remove => REMOVE,
            Rule::Join => JOIN,
        }
    }
}

impl Value {
    // The place of a value in the order 0, 1, star.
    #[tactic(auto, unfolding(crate::specs::Three::place_of))]
    fn place(self) -> usize
        ensures { result ≡ place_of self }
    {
        self as usize
    }
}

// The entry of a rule for two values.
#[tactic(auto, using(crate::proofs::Table::place_below, crate::proofs::Table::entry_at))]
pub fn look_up(rule: Rule, first: Value, second: Value) -> Option<Value>
    ensures { result ≡ entry_of rule first second }
{
    rule.entries()[first.place() * 3 + second.place()]
}
