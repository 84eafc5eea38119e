// Achievers of a fact that do not need another.
ghost use Rattle.std.specs.Prelude.{ℕ, Decides, MatchOption};
ghost use Rattle.judging.specs.Achievers.{AllIn, LacksIn};
ghost use Rattle.reach.specs.Built.{ReachBuilt};
ghost use Rattle.rules.specs.Machine.{Lacking, Lowest};
ghost use Rattle.rules.specs.Marks.{Confirmed};

use reach::tables::ReachTable;
use rules::calls::Kind;
use task::barred::Barred;
use task::facts::Fact;
use task::task_source::TaskSource;

// Whether a table of the reach has all conditions of an action. A `for`: with `all` the bound of the sum in the closure was not proved.
fn has_conditions<S: TaskSource>(source: &S, reach: &ReachTable, action: usize) -> bool
    ensures { Decides result (AllIn (S.task source.now) reach.now action) }
{
    let mut offset = 0;
    for variable in 0..source.variables() {
        if let Some(value) = source.need(action, variable) {
            let number = offset + value;
            if !reach.has(number) {
                return false;
            }
        }
        offset += source.size(variable);
    }
    true
}

// The two facts of an ordering stay two parameters, as in the definitions: a struct would be taken apart in each clause.
// Whether an action achieves the later fact and does not need the earlier one, and the table has all its conditions.
fn is_lacking<S: TaskSource>(
    source: &S,
    reach: &ReachTable,
    earlier: Fact,
    later: Fact,
    action: usize,
) -> bool
    ensures { Decides result (LacksIn (S.task source.now) reach.now earlier later action) }
{
    source.is_present(action)
        && source.effect(action, later.variable) == Some(later.value)
        && source.need(action, earlier.variable) != Some(earlier.value)
        && has_conditions(source, reach, action)
}

// The lowest such action.
fn first_lacking<S: TaskSource>(
    source: &S,
    reach: &ReachTable,
    earlier: Fact,
    later: Fact,
) -> Option<usize>
    ensures { MatchOption result ((a : ℕ) → LacksIn (S.task source.now) reach.now earlier later a → ⊥) (Lowest (LacksIn (S.task source.now) reach.now earlier later)) }
{
    (0..source.actions()).find(|action| is_lacking(source, reach, earlier, later, *action))
}

// The lowest achiever of the later fact that counts for a kind and does not need the earlier fact, by the table of the task's reach.
pub fn lacking_action<S: TaskSource>(
    source: &S,
    reach: &ReachTable,
    kind: Kind,
    earlier: Fact,
    later: Fact,
) -> Option<usize>
    ensures { ReachBuilt (S.task source.now) reach.now.table → MatchOption result (Confirmed kind (S.task source.now) earlier later) (Lowest (Lacking kind (S.task source.now) earlier later)) }
{
    match kind {
        Kind::Greedy => {
            let possible = ReachTable::of(&Barred::new(source, later));
            first_lacking(source, &possible, earlier, later)
        }
        Kind::Necessary => first_lacking(source, reach, earlier, later),
    }
}
