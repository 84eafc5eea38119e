// The account of any task.
ghost use Rattle.account.specs.Accounts.{AccountOf, Listed};
ghost use Rattle.reach.specs.Built.{LevelsBuilt};
ghost use Rattle.std.specs.Prelude.{IfOk};
ghost use Rattle.task.specs.Task.{facts};

use crate::account::{Account, Counts, FactLevel};
use reach::tables::LevelTable;
use std::alloc::{AllocError, Global};
use task::facts::{count_facts, fact_at};
use task::task_source::TaskSource;

// The facts upwards, each with its level. A `for`: in a chain it was not proved that the closure's number is one of a fact.
fn list_levels<S: TaskSource>(
    heap: Global,
    source: &S,
    levels: &LevelTable,
) -> Result<Vec<FactLevel>, AllocError>
    requires { LevelsBuilt (S.task source.now) levels.now.table }
    ensures { IfOk result (λ v. Listed (S.task source.now) (facts (S.task source.now)) v.items) }
{
    let mut list = Vec::new(heap);
    for number in 0..count_facts(source) {
        let fact = fact_at(source, number).unwrap();
        let level = levels.level(number);
        list.push(FactLevel {
            number,
            fact,
            level,
        })?;
    }
    Ok(list)
}

// The account of a task.
pub fn account_of<S: TaskSource>(heap: Global, source: &S) -> Result<Account, AllocError>
    ensures { IfOk result (AccountOf (S.task source.now)) }
{
    let levels = LevelTable::of(source);
    let counts = Counts {
        variables: source.variables(),
        facts: count_facts(source),
        actions: source.actions(),
        layers: levels.layers(),
    };
    Ok(Account {
        counts,
        levels: list_levels(heap, source, &levels)?,
    })
}
