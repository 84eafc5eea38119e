// The line with a number.
ghost use Rattle.key.specs.Keys.{Shows, task_of};
ghost use Rattle.listing.specs.Finding.{Lined};
ghost use Rattle.rules.specs.Machine.{Machine};

use crate::fact::fact_line;
use crate::find::find_passing;
use crate::pair::{PLACES, Pair};
use key::keys::Key;
use lines::line::Line;
use reach::tables::LevelTable;
use task::facts::count_facts;

// The line with a number, or the number of lines where there is none.
pub(crate) fn line_at(key: &Key, number: usize) -> Result<Line, usize>
    ensures { (m : Machine) → Shows key.now m → Lined (task_of key.now) m number result }
{
    let source = key.source();
    let held = match find_passing(count_facts(source), number, |fact| key.holds(fact)) {
        Ok(fact) => {
            let line = fact_line(key, &LevelTable::of(source), fact).unwrap();
            return Ok(Line::Fact(line));
        }
        Err(held) => held,
    };
    match find_passing(
        PLACES,
        number - held,
        |place| Pair::at(place).is_ordered(key),
    ) {
        Ok(place) => {
            let order = Pair::at(place).line(key).unwrap();
            Ok(Line::Order(order))
        }
        Err(ordered) => Err(held + ordered),
    }
}
