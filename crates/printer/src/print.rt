// Printing a key.
ghost use Rattle.printer.specs.Refusal.{goal_line_lem};
ghost use Rattle.std.specs.Prelude.{◌≡◌};

use key::keys::Key;
use key_text::text::key_text;
use listing::refusal::ListingRefusal;
use records::fault::FaultLine;
use std::io;
use std::io::Write;

// What is printed where a goal fact is out of reach: refusal 7 of the layer of keys, and the fact.
pub fn goal_line(goal: usize) -> FaultLine
    ensures { result ≡ goal_line_lem goal }
{
    FaultLine {
        layer: 3,
        number: ListingRefusal::GoalOutOfReach(goal).number(),
        place: goal,
        byte: 0,
    }
}

// Prints the lines of a key, or the refusal of a goal out of reach.
pub fn print_key(rt: &HostRuntime, key: &Key) -> io::Result<()> {
    if let Some(goal) = key.missed() {
        return rt.println(goal_line(goal));
    }
    let text = key_text(rt.alloc(), key)?;
    rt.stdout().write_all(text.as_slice())
}
