// A function text read into a lent row of records.
ghost use Rattle.std.specs.Prelude.{◌≡◌};
ghost use Rattle.rule.specs.Refusal.{refusal_of};
ghost use Rattle.nodes.specs.Reading.{over_text, RowReads};

use crate::apart::Apart;
use crate::row::Node;
use rule::refusal::{Refusal, Refused};
use text::function;
use text::function::Function;

// The refusal of a row of more than 4,096 records.
#[tactic(auto, unfolding(crate::specs::Reading::over_text, rule::specs::Refusal::first_broken, rule::specs::Refusal::refusal_of))]
fn over_text(text: &[u8]) -> Refusal
    ensures { result ≡ refusal_of (over_text text.now) }
{
    if 32768 < text.len() {
        Refusal::TextOver
    } else {
        Refusal::TableOver
    }
}

// The function of a text, in the row.
pub fn read(text: &[u8], nodes: &mut [Node]) -> Result<Function, Refused>
    ensures { RowReads text.now nodes.old nodes.new result }
{
    let size = nodes.len();
    if 4096 < size {
        return Err(over_text(text).into());
    }
    let Apart {
        mut level,
        mut low,
        mut high,
    } = Apart::of(nodes);
    let answer = function::read_function(
        text,
        &mut level[..size],
        &mut low[..size],
        &mut high[..size],
    );
    Apart { level, low, high }.store(nodes);
    answer
}
