// The line of a fact.
ghost use Rattle.std.specs.Prelude.{◌≡◌, ◌<◌, ◌≤◌, MatchOption};
ghost use Rattle.key.specs.Keys.{task_of};
ghost use Rattle.listing.specs.Listing.{FactShown};
ghost use Rattle.reach.specs.Built.{LevelsBuilt};
ghost use Rattle.task.specs.Task.{facts};

use key::keys::Key;
use lines::line::FactLine;
use reach::tables::LevelTable;
use task::facts::fact_at;

// The line of the fact with a number, by a table of the levels: `None` where no fact has the number.
pub fn fact_line(key: &Key, levels: &LevelTable, number: usize) -> Option<FactLine>
    ensures { MatchOption result (facts (task_of key.now) ≤ number) (λ x. (number < facts (task_of key.now)) × (x.number ≡ number) × (LevelsBuilt (task_of key.now) levels.now.table → FactShown (task_of key.now) x)) }
{
    let fact = fact_at(key.source(), number)?;
    Some(FactLine {
        number: number as u16,
        variable: fact.variable as u16,
        value: fact.value as u16,
        level: levels.level(number),
    })
}
